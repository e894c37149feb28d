// Emails in order.
ghost use Rattle.std.specs.Prelude.{◌≡◌, ℕ, List, IfOk, IsPermutation, drop, map};
ghost use Rattle.std.specs.List.Sorted.{IsStrictlySortedBy};
ghost use Rattle.std.specs.Cmp.Lexicographic.{slice_cmp};
ghost use Rattle.std.specs.Option.{option_cmp, option_copied, option_map};
ghost use Rattle.std.specs.Ordering.{bool_cmp, nat_cmp};
ghost use Rattle.mail_maps.specs.Serve.{Email, email_of};
ghost use Rattle.query_conditions.specs.Entries.{email_at, emails_at};
ghost use Rattle.query_conditions.specs.ThreadKeywords.{AreThreadsOf, all_in_thread_have, some_in_thread_has};
ghost use Rattle.query_lists.specs.Ordered.{AscendByNumber, row_cmp};
ghost use Rattle.query_orders.specs.Emails.{email_cmp};
ghost use Rattle.query_orders.specs.Entries.{in_its_thread};
ghost use Rattle.query_orders.specs.Listed.{IsListed};
ghost use Rattle.query_orders.specs.Texts.{folded};
ghost use Rattle.query_orders.specs.reading.Keys.{AreInOrder, IsOneToOne, IsSortedByKeys};
ghost use Rattle.query_orders.specs.reading.Rows.{emails_by, emails_in_order, grouped_entry, sorted_text};

use crate::comparators::{EmailComparator, EmailSort};
use crate::deciding::deciding;
use crate::folded::sorted_by_texts;
use crate::keys::sorted_by;
use mail_maps::EmailRow;
use mail_maps::keywords::has_name;
use octets::Bytes;
use query_conditions::{EmailEntry, KeywordThreads, Quantity, keyword_threads, thread_matches};
use query_lists::GroupedRow;
use std::alloc::{AllocError, Global};

/// A text by which Emails are sorted.
#[derive(Clone, Copy)]
enum SortedText {
    /// The name, else the address, of the first mailbox of From.
    From,
    /// The same of To.
    To,
    /// The base subject.
    Subject,
}

fn octets_of(text: &Option<Bytes>) -> Option<&[u8]>
    ensures { option_copied result ≡ text.now }
{
    match text {
        None => None,
        Some(text) => Some(text.as_slice()),
    }
}

/// The text of an Email. None where it has none.
fn text_of(row: &EmailRow, text: SortedText) -> Option<&[u8]>
    ensures { option_copied result ≡ sorted_text text (email_of row.now) }
{
    match text {
        SortedText::From => octets_of(&row.envelope.from.first),
        SortedText::To => octets_of(&row.envelope.to.first),
        SortedText::Subject => Some(row.envelope.base.as_slice()),
    }
}

/// The texts of Emails, where they lie. The loop does nothing else, so that the processor reads several rows at a time.
fn texts_of<'a>(
    alloc: Global,
    rows: &[EmailEntry<'a>],
    text: SortedText,
) -> Result<Vec<Option<&'a [u8]>>, AllocError>
    ensures { IfOk result (λ v. map option_copied v.items ≡ map (λ e. sorted_text text (email_at e)) rows.now) }
{
    let mut texts = Vec::with_capacity(alloc, rows.len())?;
    for row in rows {
        texts.push(text_of(row.row, text))?;
    }
    Ok(texts)
}

/// Values in the order of a text of the Emails.
fn sorted_by_text<V: Copy>(
    alloc: Global,
    rows: &[EmailEntry<'_>],
    values: &[V],
    is_ascending: bool,
    text: SortedText,
) -> Result<Vec<V>, AllocError>
    ensures { IfOk result (λ v. IsSortedByKeys is_ascending (option_cmp (slice_cmp nat_cmp))
        (map (λ e. option_map folded (sorted_text text (email_at e))) rows.now) values.now v.items) }
{
    let texts = texts_of(alloc, rows, text)?;
    sorted_by_texts(alloc, texts.as_slice(), values, is_ascending)
}

fn all_have(threads: &KeywordThreads, thread: u64) -> bool
    ensures { (emails : List (ℕ × Email)) (keyword : List ℕ) → AreThreadsOf threads.now emails keyword
        → result ≡ all_in_thread_have emails keyword thread }
{
    thread_matches(threads, Quantity::All, thread)
}

fn some_has(threads: &KeywordThreads, thread: u64) -> bool
    ensures { (emails : List (ℕ × Email)) (keyword : List ℕ) → AreThreadsOf threads.now emails keyword
        → result ≡ some_in_thread_has emails keyword thread }
{
    thread_matches(threads, Quantity::Some, thread)
}

/// Values in the order of whether each of the Thread's Emails has the keyword.
fn sorted_by_all<V: Copy>(
    alloc: Global,
    emails: &[EmailEntry<'_>],
    rows: &[EmailEntry<'_>],
    values: &[V],
    is_ascending: bool,
    keyword: &Bytes,
) -> Result<Vec<V>, AllocError>
    ensures { IfOk result (λ v. IsSortedByKeys is_ascending bool_cmp
        (map (λ e. all_in_thread_have (emails_at emails.now) keyword.now (email_at e).immutable.thread) rows.now) values.now v.items) }
{
    let threads = keyword_threads(alloc, emails, keyword.as_slice())?;
    sorted_by(
        alloc,
        rows,
        values,
        is_ascending,
        |email| all_have(&threads, email.row.thread),
    )
}

/// Values in the order of whether one of the Thread's Emails has the keyword.
fn sorted_by_some<V: Copy>(
    alloc: Global,
    emails: &[EmailEntry<'_>],
    rows: &[EmailEntry<'_>],
    values: &[V],
    is_ascending: bool,
    keyword: &Bytes,
) -> Result<Vec<V>, AllocError>
    ensures { IfOk result (λ v. IsSortedByKeys is_ascending bool_cmp
        (map (λ e. some_in_thread_has (emails_at emails.now) keyword.now (email_at e).immutable.thread) rows.now) values.now v.items) }
{
    let threads = keyword_threads(alloc, emails, keyword.as_slice())?;
    sorted_by(
        alloc,
        rows,
        values,
        is_ascending,
        |email| some_has(&threads, email.row.thread),
    )
}

/// Values of Emails, which have one each, in the order of the Emails by one comparator; those of Emails that it doesn't tell apart
/// stay in their order.
fn in_order_by<V: Copy>(
    alloc: Global,
    emails: &[EmailEntry<'_>],
    rows: &[EmailEntry<'_>],
    values: &[V],
    comparator: &EmailComparator,
) -> Result<Vec<V>, AllocError>
    ensures { IfOk result (λ v. (of : EmailEntry → V) → values.now ≡ map of rows.now
        → AreInOrder (emails_by (emails_at emails.now) comparator.now) of rows.now v.items) }
{
    let is_ascending = comparator.is_ascending;
    match &comparator.property {
        EmailSort::ReceivedAt => {
            sorted_by(
                alloc,
                rows,
                values,
                is_ascending,
                |email| email.row.received,
            )
        }
        EmailSort::Size => sorted_by(alloc, rows, values, is_ascending, |email| email.row.size),
        EmailSort::From => sorted_by_text(alloc, rows, values, is_ascending, SortedText::From),
        EmailSort::To => sorted_by_text(alloc, rows, values, is_ascending, SortedText::To),
        EmailSort::Subject => sorted_by_text(
            alloc,
            rows,
            values,
            is_ascending,
            SortedText::Subject,
        ),
        EmailSort::SentAt => {
            sorted_by(
                alloc,
                rows,
                values,
                is_ascending,
                |email| email.row.envelope.sent_at,
            )
        }
        EmailSort::HasKeyword(keyword) => sorted_by(alloc, rows, values, is_ascending, |email| {
            has_name(keyword.as_slice(), &email.row.keywords)
        }),
        EmailSort::AllInThreadHaveKeyword(keyword) => {
            sorted_by_all(alloc, emails, rows, values, is_ascending, keyword)
        }
        EmailSort::SomeInThreadHaveKeyword(keyword) => {
            sorted_by_some(alloc, emails, rows, values, is_ascending, keyword)
        }
    }
}

/// Emails in order by the comparators but the first, and by number. It sorts by the last one first.
fn in_order_by_others<'a>(
    alloc: Global,
    emails: &[EmailEntry<'_>],
    rows: Vec<EmailEntry<'a>>,
    comparators: &[&EmailComparator],
) -> Result<Vec<EmailEntry<'a>>, AllocError>
    ensures permutation { IfOk result (λ v. IsPermutation rows.entry.items v.items) }
    ensures sorted { AscendByNumber (emails_at rows.entry.items)
        → IfOk result (λ v. IsStrictlySortedBy (emails_in_order (emails_at emails.now) (map (λ c. c.now) (drop 1 comparators.now))) v.items) }
{
    let mut rows = rows;
    let mut left = comparators.len();
    while 1 < left {
        left -= 1;
        rows = in_order_by(alloc, emails, &rows, &rows, comparators[left])?;
    }
    Ok(rows)
}

/// Values of Emails that stand in order by all comparators but the first, in the order of the Emails by all of them.
fn in_order_by_all<V: Copy>(
    alloc: Global,
    emails: &[EmailEntry<'_>],
    rows: &[EmailEntry<'_>],
    values: Vec<V>,
    comparators: &[&EmailComparator],
) -> Result<Vec<V>, AllocError>
    ensures permutation { IfOk result (λ v. (of : EmailEntry → V) → values.items ≡ map of rows.now → IsPermutation values.items v.items) }
    ensures listed { IfOk result (λ v. (of : EmailEntry → V) → values.items ≡ map of rows.now → IsOneToOne of rows.now
        → IsStrictlySortedBy (emails_in_order (emails_at emails.now) (map (λ c. c.now) (drop 1 comparators.now))) rows.now
        → IsListed (emails_in_order (emails_at emails.now) (map (λ c. c.now) comparators.now)) of rows.now v.items) }
{
    match comparators {
        [] => Ok(values),
        [first, ..] => in_order_by(alloc, emails, rows, values.as_slice(), first),
    }
}

/// The numbers of Emails, as these stand.
fn numbers_of(alloc: Global, rows: &[EmailEntry<'_>]) -> Result<Vec<u64>, AllocError>
    ensures { IfOk result (λ v. v.items ≡ map (λ e. e.number) rows.now) }
{
    let mut numbers = Vec::with_capacity(alloc, rows.len())?;
    for row in rows {
        numbers.push(row.number)?;
    }
    Ok(numbers)
}

/// Their numbers with those of their Threads.
fn in_threads(alloc: Global, rows: &[EmailEntry<'_>]) -> Result<Vec<GroupedRow>, AllocError>
    ensures { IfOk result (λ v. v.items ≡ map grouped_entry rows.now) }
{
    let mut grouped = Vec::with_capacity(alloc, rows.len())?;
    for row in rows {
        grouped.push(GroupedRow {
            number: row.number,
            group: row.row.thread,
        })?;
    }
    Ok(grouped)
}

/// The numbers of Emails, which are given in ascending number, in order: by the first comparator, where that doesn't tell them
/// apart by the next one, and at last by number, which ascends under a descending comparator too (RFC 8621 section 4.4.2). `emails`
/// are all that there are: of them Threads are. Each key is made once a row and comparator; a comparator whose property stands
/// earlier costs no sort.
pub fn numbers_in_order(
    alloc: Global,
    emails: &[EmailEntry<'_>],
    rows: Vec<EmailEntry<'_>>,
    comparators: &[EmailComparator],
) -> Result<Vec<u64>, AllocError>
    ensures permutation { IfOk result (λ v. IsPermutation (map (λ e. e.0) (emails_at rows.entry.items)) v.items) }
    ensures listed { AscendByNumber (emails_at rows.entry.items)
        → IfOk result (λ v. IsListed (row_cmp (email_cmp (emails_at emails.now) comparators.now)) (λ e. e.0) (emails_at rows.entry.items) v.items) }
{
    let kept = deciding(alloc, comparators)?;
    let rows = in_order_by_others(alloc, emails, rows, kept.as_slice())?;
    let numbers = numbers_of(alloc, &rows)?;
    in_order_by_all(alloc, emails, &rows, numbers, kept.as_slice())
}

/// The same Emails in the same order, each by its number and its Thread's.
pub fn threads_in_order(
    alloc: Global,
    emails: &[EmailEntry<'_>],
    rows: Vec<EmailEntry<'_>>,
    comparators: &[EmailComparator],
) -> Result<Vec<GroupedRow>, AllocError>
    ensures permutation { IfOk result (λ v. IsPermutation (map in_its_thread (emails_at rows.entry.items)) v.items) }
    ensures listed { AscendByNumber (emails_at rows.entry.items)
        → IfOk result (λ v. IsListed (row_cmp (email_cmp (emails_at emails.now) comparators.now)) in_its_thread (emails_at rows.entry.items) v.items) }
{
    let kept = deciding(alloc, comparators)?;
    let rows = in_order_by_others(alloc, emails, rows, kept.as_slice())?;
    let grouped = in_threads(alloc, &rows)?;
    in_order_by_all(alloc, emails, &rows, grouped, kept.as_slice())
}
