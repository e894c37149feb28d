// Whether a query reads each record alone.
ghost use Rattle.std.specs.Prelude.{◌≡◌, map};
ghost use Rattle.std.specs.List.{list_any};
ghost use Rattle.query_orders.specs.Emails.{sort_reads_thread};
ghost use Rattle.query_arguments.specs.Asked.{list_seen};
ghost use Rattle.query_arguments.specs.FilterTrees.{filter_tree, trees_of};
ghost use Rattle.query_core.specs.Lists as lists;
ghost use Rattle.query_core.specs.Lists.{has_condition, have_condition, reads_thread};

use query_arguments::{AskedList, EmailCondition, Filter};
use query_orders::{EmailComparator, EmailSort};

fn condition_reads_thread(condition: &EmailCondition) -> bool
    ensures { result ≡ reads_thread condition.now }
{
    match condition {
        EmailCondition::Record(_) => false,
        EmailCondition::Header(_, _) => false,
        EmailCondition::Thread(_, _) => true,
    }
}

fn conditions_read_threads(conditions: &Vec<EmailCondition>) -> bool
    ensures { result ≡ list_any reads_thread conditions.now.items }
{
    for condition in conditions {
        if condition_reads_thread(condition) {
            return true;
        }
    }
    false
}

#[cycle(reads)]
fn filters_read_threads(filters: &Vec<Filter<EmailCondition>>) -> bool
    ensures { result ≡ have_condition reads_thread (trees_of (map filter_tree filters.now.items)) }
{
    for filter in filters {
        if filter_reads_threads(filter) {
            return true;
        }
    }
    false
}

#[cycle(reads)]
fn filter_reads_threads(filter: &Filter<EmailCondition>) -> bool
    ensures { result ≡ has_condition reads_thread (filter_tree filter.now) }
{
    match filter {
        Filter::Conditions(conditions) => conditions_read_threads(conditions),
        Filter::Joined(_, filters) => filters_read_threads(filters),
    }
}

fn property_reads_thread(property: &EmailSort) -> bool
    ensures { result ≡ sort_reads_thread property.now }
{
    match property {
        EmailSort::ReceivedAt => false,
        EmailSort::Size => false,
        EmailSort::From => false,
        EmailSort::To => false,
        EmailSort::Subject => false,
        EmailSort::SentAt => false,
        EmailSort::HasKeyword(_) => false,
        EmailSort::AllInThreadHaveKeyword(_) => true,
        EmailSort::SomeInThreadHaveKeyword(_) => true,
    }
}

/// Whether a comparator asks of Threads.
pub(crate) fn sort_reads_threads(comparators: &Vec<EmailComparator>) -> bool
    ensures { result ≡ list_any (λ c. sort_reads_thread c.property) comparators.now.items }
{
    for comparator in comparators {
        if property_reads_thread(&comparator.property) {
            return true;
        }
    }
    false
}

/// Whether a query of Emails speaks of no other Emails of a Thread: neither its filter nor its order does, and Threads aren't
/// collapsed. It takes no memory.
pub fn reads_record_alone(asked: &AskedList<EmailCondition, EmailComparator>) -> bool
    ensures { result ≡ lists.reads_record_alone (list_seen asked.now) }
{
    !asked.collapses && !filter_reads_threads(&asked.filter) && !sort_reads_threads(&asked.sort)
}
