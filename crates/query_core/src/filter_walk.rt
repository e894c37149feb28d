// Whether a filter takes a row.
ghost use Rattle.std.specs.Prelude.{◌↔◌, IfOk, IsTrue, map};
ghost use Rattle.std.specs.List.{AllByRecursion};
ghost use Rattle.query_arguments.specs.FilterTrees.{filter_tree, trees_of};
ghost use Rattle.query_lists.specs.Filters.{PassesEach, PassesFilter, PassesSome};
ghost use Rattle.query_core.specs.reading.Found.{EachCondition, EachConditionOf};

use query_arguments::Filter;
use query_lists::FilterOperator;
use std::alloc::AllocError;

/// A row, with what conditions of one type need to test it.
pub(crate) trait Tested<C> {
    ghost Knows: { Self → C → Type 0 };

    ghost Holds: { Self → C → Type 0 };

    /// Whether the condition holds of the row.
    fn holds(&self, condition: &C) -> Result<bool, AllocError>
        ensures { Knows self.now condition.now → IfOk result (λ holds. IsTrue holds ↔ Holds self.now condition.now) };
}

/// Whether each of the conditions holds.
fn all_hold<C, T: Tested<C>>(row: &T, conditions: &Vec<C>) -> Result<bool, AllocError>
    ensures { AllByRecursion (T.Knows row.now) conditions.now.items
        → IfOk result (λ all. IsTrue all ↔ AllByRecursion (T.Holds row.now) conditions.now.items) }
{
    for condition in conditions {
        let holds = row.holds(condition)?;
        if !holds {
            return Ok(false);
        }
    }
    Ok(true)
}

/// Whether each of the filters takes the row.
#[cycle(takes)]
fn each_takes<C, T: Tested<C>>(row: &T, filters: &Vec<Filter<C>>) -> Result<bool, AllocError>
    ensures { EachConditionOf (T.Knows row.now) (trees_of (map filter_tree filters.now.items))
        → IfOk result (λ each. IsTrue each ↔ PassesEach (T.Holds row.now) (trees_of (map filter_tree filters.now.items))) }
{
    for filter in filters {
        let taken = takes(row, filter)?;
        if !taken {
            return Ok(false);
        }
    }
    Ok(true)
}

/// Whether one of them does.
#[cycle(takes)]
fn some_takes<C, T: Tested<C>>(row: &T, filters: &Vec<Filter<C>>) -> Result<bool, AllocError>
    ensures { EachConditionOf (T.Knows row.now) (trees_of (map filter_tree filters.now.items))
        → IfOk result (λ some. IsTrue some ↔ PassesSome (T.Holds row.now) (trees_of (map filter_tree filters.now.items))) }
{
    for filter in filters {
        let taken = takes(row, filter)?;
        if taken {
            return Ok(true);
        }
    }
    Ok(false)
}

/// Whether the filter takes the row (RFC 8620 section 5.5). It goes no deeper than the JSON that the filter was read from.
#[cycle(takes)]
pub(crate) fn takes<C, T: Tested<C>>(row: &T, filter: &Filter<C>) -> Result<bool, AllocError>
    ensures { EachCondition (T.Knows row.now) (filter_tree filter.now)
        → IfOk result (λ taken. IsTrue taken ↔ PassesFilter (T.Holds row.now) (filter_tree filter.now)) }
{
    match filter {
        Filter::Conditions(conditions) => all_hold(row, conditions),
        Filter::Joined(operator, filters) => match operator {
            FilterOperator::And => each_takes(row, filters),
            FilterOperator::Or => some_takes(row, filters),
            FilterOperator::Not => {
                let some = some_takes(row, filters)?;
                Ok(!some)
            }
        },
    }
}
