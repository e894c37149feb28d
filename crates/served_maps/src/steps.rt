// The steps from one map of rows to the next, as touches.
ghost use Rattle.std.specs.Prelude.{◌≡◌, ◌++◌, map, filter, IfOk};
ghost use Rattle.change_list.specs.Advance.{row_at, counts_if, is_gone, is_changed, advance_entries};
ghost use Rattle.served_maps.specs.reading.Steps.{removed, changed, added};

use crate::Row;
use change_list::{Entry, Kind};
use std::alloc::{AllocError, Global};
use std::collections::BTreeMap;

fn removals<R: Row>(
    alloc: Global,
    old: &BTreeMap<u64, R>,
    new: &BTreeMap<u64, R>,
) -> Result<Vec<Entry>, AllocError>
    ensures { IfOk result (λ v. v.items ≡ map removed (filter (is_gone new.now.entries) old.now.entries)) }
{
    old.iter()
        .filter(|(id, _)| !new.contains_key(*id))
        .map(|(id, _)| Entry {
            id: *id,
            kind: Kind::Removed,
            counts_only: false,
        })
        .collect(alloc)
}

fn is_changed<R: Row>(old: &BTreeMap<u64, R>, id: &u64, row: &R) -> bool
    ensures { result ≡ is_changed R.same old.now.entries (id.now, row.now) }
{
    match old.get(id) {
        Some(was) => !was.is_same(row),
        None => false,
    }
}

fn is_counts_alone<R: Row>(old: &BTreeMap<u64, R>, id: &u64, row: &R) -> bool
    ensures { result ≡ counts_if R.but_for_counts (row_at old.now.entries id.now) row.now }
{
    match old.get(id) {
        Some(was) => was.is_same_but_for_counts(row),
        None => false,
    }
}

fn change<R: Row>(old: &BTreeMap<u64, R>, id: &u64, row: &R) -> Entry
    ensures { result ≡ changed R.but_for_counts old.now.entries (id.now, row.now) }
{
    Entry {
        id: *id,
        kind: Kind::Changed,
        counts_only: is_counts_alone(old, id, row),
    }
}

fn changes<R: Row>(
    alloc: Global,
    old: &BTreeMap<u64, R>,
    new: &BTreeMap<u64, R>,
) -> Result<Vec<Entry>, AllocError>
    ensures { IfOk result (λ v. v.items ≡ map (changed R.but_for_counts old.now.entries) (filter (is_changed R.same old.now.entries) new.now.entries)) }
{
    new.iter()
        .filter(|(id, row)| is_changed(old, id, row))
        .map(|(id, row)| change(old, id, row))
        .collect(alloc)
}

fn additions<R: Row>(
    alloc: Global,
    old: &BTreeMap<u64, R>,
    new: &BTreeMap<u64, R>,
) -> Result<Vec<Entry>, AllocError>
    ensures { IfOk result (λ v. v.items ≡ map added (filter (is_gone old.now.entries) new.now.entries)) }
{
    new.iter()
        .filter(|(id, _)| !old.contains_key(*id))
        .map(|(id, _)| Entry {
            id: *id,
            kind: Kind::Added,
            counts_only: false,
        })
        .collect(alloc)
}

/// Lists one after the other.
pub fn joined(
    mut first: Vec<Entry>,
    second: &[Entry],
    third: &[Entry],
) -> Result<Vec<Entry>, AllocError>
    ensures { IfOk result (λ v. v.items ≡ first.items ++ (second.now ++ third.now)) }
{
    first.extend_from_slice(second)?;
    first.extend_from_slice(third)?;
    Ok(first)
}

/// The touches that take one map to the next: removals, then changes, then additions, each by ascending number. It costs
/// a look-up for each row of both.
pub fn steps_between<R: Row>(
    alloc: Global,
    old: &BTreeMap<u64, R>,
    new: &BTreeMap<u64, R>,
) -> Result<Vec<Entry>, AllocError>
    ensures { IfOk result (λ v. v.items ≡ advance_entries (record { same = R.same; counts = R.but_for_counts }) old.now.entries new.now.entries) }
{
    let first = removals(alloc, old, new)?;
    let second = changes(alloc, old, new)?;
    let third = additions(alloc, old, new)?;
    joined(first, second.as_slice(), third.as_slice())
}
