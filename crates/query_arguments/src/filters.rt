// Filters as JSON.
ghost use Rattle.std.specs.Prelude.{◌≡◌, ℕ, IfOk, List, map, option_map};
ghost use Rattle.serde_json.specs.Data.{Data};
ghost use Rattle.serde_json.specs.Find.{as_str};
ghost use Rattle.serde_json.specs.View.{view, items_view, members_view};
ghost use Rattle.query_arguments.specs.Filters as spec;
ghost use Rattle.query_arguments.specs.FilterTrees.{filter_tree};
ghost use Rattle.query_arguments.specs.Readings.{each_read, reading_map};
ghost use Rattle.query_arguments.specs.declared.reading.Reading as declared;

use crate::email_condition::EmailCondition;
use crate::email_filters::email_condition;
use crate::filter::Filter;
use crate::mailbox_filters::mailbox_condition;
use crate::reading::{Reading, both, each_read};
use query_conditions::MailboxCondition;
use query_lists::FilterOperator;
use serde_json::{Map, Value};
use std::alloc::{AllocError, Global};

/// What a filter's conditions are.
pub(crate) trait Condition: Drop {
    ghost condition_in: { List ℕ → Data → declared.Reading Self };

    /// The condition that a member of a FilterCondition is.
    fn read(alloc: Global, key: &str, value: &Value) -> Result<Reading<Self>, AllocError>
        ensures { IfOk result (λ r. r ≡ condition_in key.now (view value.now)) };
}

impl Condition for EmailCondition {
    ghost use Rattle.query_arguments.specs.EmailFilters.{email_condition_in};

    ghost condition_in = { email_condition_in };

    fn read(
        alloc: Global,
        key: &str,
        value: &Value,
    ) -> Result<Reading<EmailCondition>, AllocError> {
        email_condition(alloc, key, value)
    }
}

impl Condition for MailboxCondition {
    ghost use Rattle.query_arguments.specs.MailboxFilters.{mailbox_condition_in};

    ghost condition_in = { mailbox_condition_in };

    fn read(
        alloc: Global,
        key: &str,
        value: &Value,
    ) -> Result<Reading<MailboxCondition>, AllocError> {
        mailbox_condition(alloc, key, value)
    }
}

/// What each member of a FilterCondition is.
fn conditions_in<C: Condition>(
    alloc: Global,
    members: &Map<String, Value>,
) -> Result<Vec<Reading<C>>, AllocError>
    ensures { IfOk result (λ v. v.items ≡ spec.conditions_in C.condition_in (members_view members.now.entries)) }
{
    let mut parts = Vec::with_capacity(alloc, members.len())?;
    for (key, value) in members.iter() {
        parts.push(C::read(alloc, key.as_str(), value)?)?;
    }
    Ok(parts)
}

/// The filter that a FilterCondition is.
fn plain_filter<C: Condition>(
    alloc: Global,
    members: &Map<String, Value>,
) -> Result<Reading<Filter<C>>, AllocError>
    ensures { IfOk result (λ r. reading_map filter_tree r ≡ spec.plain_filter C.condition_in (members_view members.now.entries)) }
{
    let parts = conditions_in(alloc, members)?;
    match each_read(alloc, parts)? {
        Reading::Wrong => Ok(Reading::Wrong),
        Reading::Unsupported => Ok(Reading::Unsupported),
        Reading::Means(conditions) => Ok(Reading::Means(Filter::Conditions(conditions))),
    }
}

/// The operator of this name.
fn operator_named(name: &str) -> Reading<FilterOperator>
    ensures { result ≡ spec.operator_named name.now }
{
    match name {
        "AND" => Reading::Means(FilterOperator::And),
        "OR" => Reading::Means(FilterOperator::Or),
        "NOT" => Reading::Means(FilterOperator::Not),
        _ => Reading::Unsupported,
    }
}

fn operator_in(value: &Value) -> Reading<FilterOperator>
    ensures { result ≡ spec.operator_in (view value.now) }
{
    match value.as_str() {
        None => Reading::Wrong,
        Some(name) => operator_named(name),
    }
}

/// The filter that an operator and what it joins are.
fn joined_filter<C: Drop>(
    operator: Reading<FilterOperator>,
    filters: Reading<Vec<Filter<C>>>,
) -> Reading<Filter<C>>
    ensures { reading_map filter_tree result ≡ spec.joined_filter operator (reading_map (λ v. map filter_tree v.items) filters) }
{
    match both(operator, filters) {
        Reading::Wrong => Reading::Wrong,
        Reading::Unsupported => Reading::Unsupported,
        Reading::Means((operator, filters)) => Reading::Means(Filter::Joined(operator, filters)),
    }
}

/// What each item of a list is as a filter.
#[cycle(filters)]
fn filters_in<C: Condition>(
    alloc: Global,
    items: &Vec<Value>,
) -> Result<Vec<Reading<Filter<C>>>, AllocError>
    ensures { IfOk result (λ v. map (reading_map filter_tree) v.items ≡ spec.filters_in C.condition_in (items_view items.now.items)) }
{
    let mut parts = Vec::with_capacity(alloc, items.len())?;
    for item in items {
        parts.push(filter_in(alloc, item)?)?;
    }
    Ok(parts)
}

/// The filters that a list is.
#[cycle(filters)]
fn filters_of<C: Condition>(
    alloc: Global,
    value: &Value,
) -> Result<Reading<Vec<Filter<C>>>, AllocError>
    ensures { IfOk result (λ r. reading_map (λ v. map filter_tree v.items) r ≡ spec.filters_of C.condition_in (view value.now)) }
{
    match value {
        Value::Array(items) => {
            let parts = filters_in(alloc, items)?;
            each_read(alloc, parts)
        }
        _ => Ok(Reading::Wrong),
    }
}

/// The filters that an operator joins, of the members of a FilterOperator.
#[cycle(filters)]
fn joined_in<C: Condition>(
    alloc: Global,
    members: &Map<String, Value>,
) -> Result<Reading<Vec<Filter<C>>>, AllocError>
    ensures { IfOk result (λ r. reading_map (λ v. map filter_tree v.items) r ≡ spec.joined_in C.condition_in (members_view members.now.entries)) }
{
    for (key, value) in members.iter() {
        if key.as_str() == "conditions" {
            return filters_of(alloc, value);
        }
    }
    Ok(Reading::Wrong)
}

/// The filter that a value is.
#[cycle(filters)]
fn filter_in<C: Condition>(alloc: Global, value: &Value) -> Result<Reading<Filter<C>>, AllocError>
    ensures { IfOk result (λ r. reading_map filter_tree r ≡ spec.filter_in C.condition_in (view value.now)) }
{
    let Value::Object(members) = value else {
        return Ok(Reading::Wrong);
    };
    match value.get("operator") {
        None => plain_filter(alloc, members),
        Some(operator) => {
            let filters = joined_in(alloc, members)?;
            Ok(joined_filter(operator_in(operator), filters))
        }
    }
}

/// The filter that takes every row.
fn all_rows<C: Drop>(alloc: Global) -> Filter<C>
    ensures { filter_tree result ≡ spec.all_rows }
{
    Filter::Conditions(Vec::new(alloc))
}

/// The filter of a query, which takes every row where it is null or isn't there.
pub(crate) fn filter_or_all<C: Condition>(
    alloc: Global,
    value: Option<&Value>,
) -> Result<Reading<Filter<C>>, AllocError>
    ensures { IfOk result (λ r. reading_map filter_tree r ≡ spec.filter_or_all C.condition_in (option_map (λ v. view v.now) value.entry)) }
{
    match value {
        None | Some(Value::Null) => Ok(Reading::Means(all_rows(alloc))),
        Some(value) => filter_in(alloc, value),
    }
}
