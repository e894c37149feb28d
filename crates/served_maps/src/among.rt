// The steps from one map of rows to the next, where they differ at some ids alone.
ghost use Rattle.std.specs.Prelude.{◌≡◌, ◌++◌, ◌&&◌, not, ℕ, List, true, false, cond, None, map, filter, is_some, IfOk, OnOk};
ghost use Rattle.std.specs.BTreeMap.{get};
ghost use Rattle.std.specs.BTreeSet.{contains};
ghost use Rattle.std.specs.List.Sorted.{IsStrictlySortedBy};
ghost use Rattle.std.specs.Map.{keys_of};
ghost use Rattle.std.specs.Ordering.{nat_cmp};
ghost use Rattle.change_list.specs.Advance.{row_at, differs, counts_if, advance_entries};
ghost use Rattle.served_maps.specs.Among.{then_at};
ghost use Rattle.served_maps.specs.reading.AmongSteps as at_ids;

use crate::Row;
use crate::steps::joined;
use change_list::{Entry, Kind};
use std::alloc::{AllocError, Global};
use std::collections::{BTreeMap, BTreeSet};

/// Takes out what the ids have. It takes no memory.
fn clear_among<R: Drop>(rows: &mut BTreeMap<u64, R>, ids: &BTreeSet<u64>)
    ensures { (q : ℕ) → get nat_cmp rows.new q ≡ cond (contains nat_cmp ids.now q) None (get nat_cmp rows.old q) }
{
    for id in ids {
        rows.remove(id);
    }
}

/// Puts these rows in.
fn put_rows<R: Drop>(rows: &mut BTreeMap<u64, R>, fresh: BTreeMap<u64, R>) -> Result<(), AllocError>
    ensures { OnOk result ((q : ℕ) → get nat_cmp rows.new q ≡ at_ids.value_put (get nat_cmp rows.old q) fresh.entries q) }
{
    for (id, row) in fresh {
        rows.insert(id, row)?;
    }
    Ok(())
}

/// The map with what is fresh at these ids. It costs a look-up or two for each of them.
pub fn updated<R: Drop>(
    old: BTreeMap<u64, R>,
    ids: &BTreeSet<u64>,
    fresh: BTreeMap<u64, R>,
) -> Result<BTreeMap<u64, R>, AllocError>
    ensures { IfOk result (λ rows. ((q : ℕ) → contains nat_cmp ids.now q ≡ false → row_at fresh.entries q ≡ None)
        → (q : ℕ) → row_at rows.entries q ≡ then_at ids.now old.entries fresh.entries q) }
{
    let mut rows = old;
    // (the length says that keys ascend)
    let _count = fresh.len();
    clear_among(&mut rows, ids);
    put_rows(&mut rows, fresh)?;
    Ok(rows)
}

fn goes<R>(old: &BTreeMap<u64, R>, fresh: &BTreeMap<u64, R>, id: &u64) -> bool
    ensures { result ≡ at_ids.goes old.now.entries fresh.now.entries id.now }
{
    old.contains_key(id) && !fresh.contains_key(id)
}

fn is_other<R: Row>(old: &BTreeMap<u64, R>, fresh: &BTreeMap<u64, R>, id: &u64) -> bool
    ensures { result ≡ at_ids.is_other R.same old.now.entries fresh.now.entries id.now }
{
    match old.get(id) {
        Some(was) => match fresh.get(id) {
            Some(row) => !was.is_same(row),
            None => false,
        },
        None => false,
    }
}

fn is_counts_alone<R: Row>(old: &BTreeMap<u64, R>, fresh: &BTreeMap<u64, R>, id: &u64) -> bool
    ensures { result ≡ at_ids.tested (counts_if R.but_for_counts) (row_at old.now.entries id.now) (row_at fresh.now.entries id.now) }
{
    match old.get(id) {
        Some(was) => match fresh.get(id) {
            Some(row) => was.is_same_but_for_counts(row),
            None => false,
        },
        None => false,
    }
}

fn change<R: Row>(old: &BTreeMap<u64, R>, fresh: &BTreeMap<u64, R>, id: &u64) -> Entry
    ensures { result ≡ at_ids.change_at R.but_for_counts old.now.entries fresh.now.entries id.now }
{
    Entry {
        id: *id,
        kind: Kind::Changed,
        counts_only: is_counts_alone(old, fresh, id),
    }
}

fn removals<R>(
    alloc: Global,
    old: &BTreeMap<u64, R>,
    fresh: &BTreeMap<u64, R>,
    ids: &BTreeSet<u64>,
) -> Result<Vec<Entry>, AllocError>
    ensures { IfOk result (λ v. v.items ≡ map at_ids.removal_at (filter (at_ids.goes old.now.entries fresh.now.entries) ids.now.keys)) }
{
    ids.iter()
        .filter(|id| goes(old, fresh, *id))
        .map(|id| Entry {
            id: *id,
            kind: Kind::Removed,
            counts_only: false,
        })
        .collect(alloc)
}

fn changes<R: Row>(
    alloc: Global,
    old: &BTreeMap<u64, R>,
    fresh: &BTreeMap<u64, R>,
    ids: &BTreeSet<u64>,
) -> Result<Vec<Entry>, AllocError>
    ensures { IfOk result (λ v. v.items ≡ map (at_ids.change_at R.but_for_counts old.now.entries fresh.now.entries)
        (filter (at_ids.is_other R.same old.now.entries fresh.now.entries) ids.now.keys)) }
{
    ids.iter()
        .filter(|id| is_other(old, fresh, *id))
        .map(|id| change(old, fresh, id))
        .collect(alloc)
}

fn additions<R>(
    alloc: Global,
    old: &BTreeMap<u64, R>,
    fresh: &BTreeMap<u64, R>,
    ids: &BTreeSet<u64>,
) -> Result<Vec<Entry>, AllocError>
    ensures { IfOk result (λ v. v.items ≡ map at_ids.addition_at (filter (at_ids.goes fresh.now.entries old.now.entries) ids.now.keys)) }
{
    ids.iter()
        .filter(|id| goes(fresh, old, *id))
        .map(|id| Entry {
            id: *id,
            kind: Kind::Added,
            counts_only: false,
        })
        .collect(alloc)
}

/// The touches that take one map to the next, which has what is fresh at these ids, and what it had elsewhere: removals, then
/// changes, then additions, each by ascending number. It costs a look-up for each of the ids.
pub fn steps_among<R: Row>(
    alloc: Global,
    old: &BTreeMap<u64, R>,
    fresh: &BTreeMap<u64, R>,
    ids: &BTreeSet<u64>,
) -> Result<Vec<Entry>, AllocError>
    ensures { IfOk result (λ v. (new : List (ℕ × R)) → IsStrictlySortedBy nat_cmp (keys_of new)
        → ((q : ℕ) → row_at new q ≡ then_at ids.now old.now.entries fresh.now.entries q)
        → ((row : R) → R.same row row ≡ true)
        → v.items ≡ advance_entries (record { same = R.same; counts = R.but_for_counts }) old.now.entries new) }
{
    // (the lengths say that keys ascend)
    let _count = old.len();
    let _ids = ids.len();
    let first = removals(alloc, old, fresh, ids)?;
    let second = changes(alloc, old, fresh, ids)?;
    let third = additions(alloc, old, fresh, ids)?;
    let steps = joined(first, second.as_slice(), third.as_slice())?;
    Ok(steps)
}
