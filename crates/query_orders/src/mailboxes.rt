// Mailboxes in order.
ghost use Rattle.std.specs.Prelude.{◌≡◌, IfOk, IsPermutation, MatchOption, OnErr, OnOk, Some, map};
ghost use Rattle.std.specs.List.Sorted.{IsStrictlySortedBy};
ghost use Rattle.std.specs.Option.{option_copied};
ghost use Rattle.std.specs.declared.cmp.Ordering.TheVariants.{Equal};
ghost use Rattle.mail_maps.specs.Serve.{ServedMailbox};
ghost use Rattle.query_lists.specs.Ordered.{AscendByNumber, row_cmp};
ghost use Rattle.query_orders.specs.Directions.{directed};
ghost use Rattle.query_orders.specs.Entries.{mailboxes_at};
ghost use Rattle.query_orders.specs.Mailboxes.{mailbox_cmp};
ghost use Rattle.query_orders.specs.Texts.{text_cmp};
ghost use Rattle.query_orders.specs.reading.Keys.{IsStableSort, by_key};

use crate::comparators::{MailboxComparator, MailboxSort};
use crate::entry::MailboxEntry;
use crate::folded::sorted_by_texts;
use std::alloc::{AllocError, Global};

/// The comparator that decides: the first by name, since `sortOrder` tells no two apart. Where there is none, none are told apart.
fn first_by_name(comparators: &[MailboxComparator]) -> Option<MailboxComparator>
    ensures { MatchOption result
        ((a b : ServedMailbox) → mailbox_cmp comparators.now a b ≡ Equal)
        (λ c. (a b : ServedMailbox) → directed c.is_ascending (text_cmp a.name b.name) ≡ mailbox_cmp comparators.now a b) }
{
    for comparator in comparators {
        match comparator.property {
            MailboxSort::Name => return Some(*comparator),
            MailboxSort::SortOrder => {}
        }
    }
    None
}

/// The names of Mailboxes, where they lie.
fn names_of<'a>(
    alloc: Global,
    rows: &[MailboxEntry<'a>],
) -> Result<Vec<Option<&'a [u8]>>, AllocError>
    ensures { IfOk result (λ v. map option_copied v.items ≡ map (λ b. Some b.row.now.name) rows.now) }
{
    let mut names = Vec::with_capacity(alloc, rows.len())?;
    for row in rows {
        names.push(Some(row.row.name.as_str().as_bytes()))?;
    }
    Ok(names)
}

/// Mailboxes in the order of their names; those of one name stay in their order.
fn in_order_by_name<'a>(
    alloc: Global,
    rows: &[MailboxEntry<'a>],
    is_ascending: bool,
) -> Result<Vec<MailboxEntry<'a>>, AllocError>
    ensures permutation { IfOk result (λ v. IsPermutation rows.now v.items) }
    ensures sorted { IfOk result (λ v. IsStableSort (by_key is_ascending text_cmp (λ b. b.row.now.name)) rows.now v.items) }
{
    let names = names_of(alloc, rows)?;
    sorted_by_texts(alloc, names.as_slice(), rows, is_ascending)
}

/// Puts rows that stand in ascending number in order: by the first comparator, where that doesn't tell them apart by the next one,
/// and at last by number, which ascends under a descending comparator too (RFC 8621 section 2.3). Each key is made once a row; a
/// comparator whose property stands earlier costs no sort. Where memory ends, the rows stand as they did.
pub fn sort_mailboxes<'a>(
    rows: &mut Vec<MailboxEntry<'a>>,
    comparators: &[MailboxComparator],
) -> Result<(), AllocError>
    ensures permutation { IsPermutation rows.old.items rows.new.items }
    ensures err { OnErr result (rows.new.items ≡ rows.old.items) }
    ensures sorted { AscendByNumber (mailboxes_at rows.old.items)
        → OnOk result (IsStrictlySortedBy (row_cmp (mailbox_cmp comparators.now)) (mailboxes_at rows.new.items)) }
{
    let alloc: Global = *rows.allocator();
    match first_by_name(comparators) {
        None => Ok(()),
        Some(comparator) => {
            *rows = in_order_by_name(alloc, rows, comparator.is_ascending)?;
            Ok(())
        }
    }
}
