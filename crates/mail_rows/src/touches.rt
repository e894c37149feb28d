//! The touches of a step, by what remains, what goes and what comes.
ghost use Rattle.std.specs.Prelude.{◌≡◌, ◌≤◌, ◌-◌, ◌++◌, map, IfOk};
ghost use Rattle.mail_rows.specs.reading.RowPass as passes;
ghost use Rattle.mail_rows.specs.reading.Indexes.{numbers_from};

use crate::remaining::RemovedEmail;
use change_list::{Entry, Kind};
use served_maps::steps::joined;
use std::alloc::{AllocError, Global};

fn removals(alloc: Global, gone: &[RemovedEmail]) -> Result<Vec<Entry>, AllocError>
    ensures { IfOk result (λ v. v.items ≡ map passes.touch_of_removal gone.now) }
{
    gone.iter()
        .map(|email| Entry {
            id: email.number,
            kind: Kind::Removed,
            counts_only: false,
        })
        .collect(alloc)
}

fn additions(alloc: Global, first: u64, next: u64) -> Result<Vec<Entry>, AllocError>
    requires { first ≤ next }
    ensures { IfOk result (λ v. v.items ≡ map passes.touch_of_addition (numbers_from first (next - first))) }
{
    let mut added = Vec::new(alloc);
    for number in first..next {
        added.push(Entry {
            id: number,
            kind: Kind::Added,
            counts_only: false,
        })?;
    }
    Ok(added)
}

/// Removals, then changes, then the additions of these numbers.
pub fn touches_of(
    alloc: Global,
    gone: &[RemovedEmail],
    changed: &[Entry],
    first: u64,
    next: u64,
) -> Result<Vec<Entry>, AllocError>
    requires { first ≤ next }
    ensures { IfOk result (λ v. v.items ≡ map passes.touch_of_removal gone.now
        ++ (changed.now ++ map passes.touch_of_addition (numbers_from first (next - first)))) }
{
    let removed = removals(alloc, gone)?;
    let added = additions(alloc, first, next)?;
    joined(removed, changed, added.as_slice())
}
