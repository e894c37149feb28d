// Comparators as JSON.
ghost use Rattle.std.specs.Prelude.{◌≡◌, [], IfOk, option_map};
ghost use Rattle.serde_json.specs.Data.{Data};
ghost use Rattle.serde_json.specs.View.{view, items_view};
ghost use Rattle.query_arguments.specs.Readings as readings;
ghost use Rattle.query_arguments.specs.Readings.{reading_map};
ghost use Rattle.query_arguments.specs.Sorts as spec;
ghost use Rattle.query_arguments.specs.declared.reading.Reading as declared;

use crate::reading::{Reading, both, each_read};
use crate::values::keyword_given;
use octets::Bytes;
use query_orders::{EmailComparator, EmailSort, MailboxComparator, MailboxSort};
use serde_json::Value;
use std::alloc::{AllocError, Global};

/// The keyword that a comparator has beside its property.
fn keyword_beside(alloc: Global, value: &Value) -> Result<Option<Bytes>, AllocError>
    ensures { IfOk result (λ o. o ≡ spec.keyword_beside (view value.now)) }
{
    match value.get("keyword") {
        None => Ok(None),
        Some(keyword) => keyword_given(alloc, keyword),
    }
}

fn has_keyword(alloc: Global, value: &Value) -> Result<Reading<EmailSort>, AllocError>
    ensures { IfOk result (λ r. r ≡ readings.means (λ keyword. EmailSort.HasKeyword keyword) (spec.keyword_beside (view value.now))) }
{
    match keyword_beside(alloc, value)? {
        None => Ok(Reading::Wrong),
        Some(keyword) => Ok(Reading::Means(EmailSort::HasKeyword(keyword))),
    }
}

fn all_in_thread(alloc: Global, value: &Value) -> Result<Reading<EmailSort>, AllocError>
    ensures { IfOk result (λ r. r ≡ readings.means (λ keyword. EmailSort.AllInThreadHaveKeyword keyword) (spec.keyword_beside (view value.now))) }
{
    match keyword_beside(alloc, value)? {
        None => Ok(Reading::Wrong),
        Some(keyword) => Ok(Reading::Means(EmailSort::AllInThreadHaveKeyword(keyword))),
    }
}

fn some_in_thread(alloc: Global, value: &Value) -> Result<Reading<EmailSort>, AllocError>
    ensures { IfOk result (λ r. r ≡ readings.means (λ keyword. EmailSort.SomeInThreadHaveKeyword keyword) (spec.keyword_beside (view value.now))) }
{
    match keyword_beside(alloc, value)? {
        None => Ok(Reading::Wrong),
        Some(keyword) => Ok(Reading::Means(EmailSort::SomeInThreadHaveKeyword(keyword))),
    }
}

/// The property of Emails of this name (RFC 8621 section 4.4.2).
fn email_sort_named(
    alloc: Global,
    name: &str,
    value: &Value,
) -> Result<Reading<EmailSort>, AllocError>
    ensures { IfOk result (λ r. r ≡ spec.email_sort_named name.now (view value.now)) }
{
    match name {
        "receivedAt" => Ok(Reading::Means(EmailSort::ReceivedAt)),
        "size" => Ok(Reading::Means(EmailSort::Size)),
        "from" => Ok(Reading::Means(EmailSort::From)),
        "to" => Ok(Reading::Means(EmailSort::To)),
        "subject" => Ok(Reading::Means(EmailSort::Subject)),
        "sentAt" => Ok(Reading::Means(EmailSort::SentAt)),
        "hasKeyword" => has_keyword(alloc, value),
        "allInThreadHaveKeyword" => all_in_thread(alloc, value),
        "someInThreadHaveKeyword" => some_in_thread(alloc, value),
        _ => Ok(Reading::Unsupported),
    }
}

/// The property of Mailboxes of this name (RFC 8621 section 2.3).
fn mailbox_sort_named(name: &str) -> Reading<MailboxSort>
    ensures { result ≡ spec.mailbox_sort_named name.now }
{
    match name {
        "name" => Reading::Means(MailboxSort::Name),
        "sortOrder" => Reading::Means(MailboxSort::SortOrder),
        _ => Reading::Unsupported,
    }
}

fn email_sort(alloc: Global, value: &Value) -> Result<Reading<EmailSort>, AllocError>
    ensures { IfOk result (λ r. r ≡ spec.email_sort (view value.now)) }
{
    match value.get("property").and_then(Value::as_str) {
        None => Ok(Reading::Wrong),
        Some(name) => email_sort_named(alloc, name, value),
    }
}

fn mailbox_sort(value: &Value) -> Reading<MailboxSort>
    ensures { result ≡ spec.mailbox_sort (view value.now) }
{
    match value.get("property").and_then(Value::as_str) {
        None => Reading::Wrong,
        Some(name) => mailbox_sort_named(name),
    }
}

/// Whether the lowest comes first, where the member is of the right kind.
fn is_ascending(value: &Value) -> Option<bool>
    ensures { result ≡ spec.is_ascending (view value.now) }
{
    match value.get("isAscending") {
        None => Some(true),
        Some(flag) => flag.as_bool(),
    }
}

/// Whether the lowest comes first. A collation isn't supported.
fn direction(value: &Value) -> Reading<bool>
    ensures { result ≡ spec.direction (view value.now) }
{
    let Some(ascending) = is_ascending(value) else {
        return Reading::Wrong;
    };
    match value.get("collation") {
        None => Reading::Means(ascending),
        Some(Value::String(_)) => Reading::Unsupported,
        Some(_) => Reading::Wrong,
    }
}

/// What a query sorts by.
pub(crate) trait Comparator: Drop {
    ghost comparator_in: { Data → declared.Reading Self };

    /// The comparator that a value is.
    fn read(alloc: Global, value: &Value) -> Result<Reading<Self>, AllocError>
        ensures { IfOk result (λ r. r ≡ comparator_in (view value.now)) };
}

impl Comparator for EmailComparator {
    ghost use Rattle.query_arguments.specs.Sorts.{email_comparator_in};

    ghost comparator_in = { email_comparator_in };

    fn read(alloc: Global, value: &Value) -> Result<Reading<EmailComparator>, AllocError> {
        match both(email_sort(alloc, value)?, direction(value)) {
            Reading::Wrong => Ok(Reading::Wrong),
            Reading::Unsupported => Ok(Reading::Unsupported),
            Reading::Means((property, is_ascending)) => Ok(Reading::Means(EmailComparator {
                property,
                is_ascending,
            })),
        }
    }
}

impl Comparator for MailboxComparator {
    ghost use Rattle.query_arguments.specs.Sorts.{mailbox_comparator_in};

    ghost comparator_in = { mailbox_comparator_in };

    fn read(_alloc: Global, value: &Value) -> Result<Reading<MailboxComparator>, AllocError> {
        match both(mailbox_sort(value), direction(value)) {
            Reading::Wrong => Ok(Reading::Wrong),
            Reading::Unsupported => Ok(Reading::Unsupported),
            Reading::Means((property, is_ascending)) => Ok(Reading::Means(MailboxComparator {
                property,
                is_ascending,
            })),
        }
    }
}

/// What each item of a list is as a comparator.
fn comparators_in<S: Comparator>(
    alloc: Global,
    items: &Vec<Value>,
) -> Result<Vec<Reading<S>>, AllocError>
    ensures { IfOk result (λ v. v.items ≡ spec.comparators_in S.comparator_in (items_view items.now.items)) }
{
    let mut parts = Vec::with_capacity(alloc, items.len())?;
    for item in items {
        parts.push(S::read(alloc, item)?)?;
    }
    Ok(parts)
}

/// The order that a list of comparators is.
fn sort_of<S: Comparator>(alloc: Global, value: &Value) -> Result<Reading<Vec<S>>, AllocError>
    ensures { IfOk result (λ r. reading_map (λ v. v.items) r ≡ spec.sort_of S.comparator_in (view value.now)) }
{
    match value {
        Value::Array(items) => {
            let parts = comparators_in(alloc, items)?;
            each_read(alloc, parts)
        }
        _ => Ok(Reading::Wrong),
    }
}

/// The order that is none: rows are sorted by number alone.
fn no_sort<S: Drop>(alloc: Global) -> Vec<S>
    ensures { result.items ≡ [] }
{
    Vec::new(alloc)
}

/// The order of a query, which is that of numbers alone where it is null or isn't there.
pub(crate) fn sort_or_none<S: Comparator>(
    alloc: Global,
    value: Option<&Value>,
) -> Result<Reading<Vec<S>>, AllocError>
    ensures { IfOk result (λ r. reading_map (λ v. v.items) r ≡ spec.sort_or_none S.comparator_in (option_map (λ v. view v.now) value.entry)) }
{
    match value {
        None | Some(Value::Null) => Ok(Reading::Means(no_sort(alloc))),
        Some(value) => sort_of(alloc, value),
    }
}
