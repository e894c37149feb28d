// The ids that are told, of those that were touched.
ghost use Rattle.std.specs.Prelude.{◌≡◌, ◌∷◌, ◌++◌, [], ◌==◌, ◌||◌, ◌+◌, ℕ, Bool, IfOk, OnOk, if◌then◌else◌, filter, length};
ghost use Rattle.std.specs.BTreeSet.{contains};
ghost use Rattle.std.specs.List.{enumerate_from, list_any};
ghost use Rattle.std.specs.Ordering.{nat_cmp};
ghost use Rattle.query_changes.specs.Changes as spec;

use std::alloc::{AllocError, Global};
use std::collections::BTreeSet;

/// The ids that were there.
pub(crate) fn were_there(alloc: Global, touched: &[(u64, bool)]) -> Result<Vec<u64>, AllocError>
    ensures { IfOk result (λ v. v.items ≡ spec.were_there touched.now) }
{
    touched.iter().filter(|t| t.1).map(|t| t.0).collect(alloc)
}

fn note(ids: &mut BTreeSet<u64>, id: u64) -> Result<(), AllocError>
    ensures { OnOk result ((n : ℕ) → contains nat_cmp ids.new n ≡ (contains nat_cmp ids.old n || id == n)) }
{
    ids.insert(id)?;
    Ok(())
}

/// The ids that were touched, so that each of a list is looked up among them.
fn touched_ids(alloc: Global, touched: &[(u64, bool)]) -> Result<BTreeSet<u64>, AllocError>
    ensures { IfOk result (λ ids. (n : ℕ) → contains nat_cmp ids n ≡ list_any (λ (t : ℕ × Bool). t.0 == n) touched.now) }
{
    let mut ids = BTreeSet::new(alloc);
    for touch in touched {
        note(&mut ids, touch.0)?;
    }
    Ok(ids)
}

fn add_if(
    added: &mut Vec<(u64, u64)>,
    is_told: bool,
    index: u64,
    number: u64,
) -> Result<(), AllocError>
    ensures { OnOk result (added.new.items ≡ (if is_told then added.old.items ++ (index, number) ∷ [] else added.old.items)) }
{
    if is_told {
        added.push((index, number))?;
    }
    Ok(())
}

/// The numbers of a list that are among the ids, each with its index.
fn among(alloc: Global, list: &[u64], ids: &BTreeSet<u64>) -> Result<Vec<(u64, u64)>, AllocError>
    ensures { IfOk result (λ v. v.items ≡ filter (λ (e : ℕ × ℕ). contains nat_cmp ids.now e.1) (enumerate_from 0 list.now)) }
{
    let mut added = Vec::new(alloc);
    for (index, number) in list.iter().enumerate() {
        add_if(&mut added, ids.contains(number), index as u64, *number)?;
    }
    Ok(added)
}

/// The ids that are in the list as it is now, each with its index.
pub(crate) fn now_in(
    alloc: Global,
    list: &[u64],
    touched: &[(u64, bool)],
) -> Result<Vec<(u64, u64)>, AllocError>
    ensures { IfOk result (λ v. v.items ≡ spec.now_in list.now touched.now) }
{
    let ids = touched_ids(alloc, touched)?;
    among(alloc, list, &ids)
}

/// Whether these ids are no more than is asked.
pub(crate) fn is_no_more_than(most: Option<u64>, removed: &[u64], added: &[(u64, u64)]) -> bool
    ensures { result ≡ spec.is_no_more_than most (length removed.now + length added.now) }
{
    match most {
        None => true,
        Some(most) => {
            let removed = removed.len() as u64;
            removed <= most && added.len() as u64 <= most - removed
        }
    }
}
