//! The lists of an answer, from what a walk has seen.
ghost use Rattle.std.specs.Prelude.{◌≡◌, ℕ, IsTrue, IfOk, Some, true, map, filter};
ghost use Rattle.std.specs.BTreeMap.{IsOrdered};
ghost use Rattle.std.specs.List.{list_any};
ghost use Rattle.std.specs.Ordering.{nat_cmp};
ghost use Rattle.change_list.specs.reading.Parts.{has_of, IsIn};
ghost use Rattle.change_list.specs.Changes.{Lists};

use crate::walk::Seen;
use octets::Listed;
use std::alloc::{AllocError, Global};
use std::collections::BTreeMap;

/// Which ids a list of an answer has.
#[derive(Clone, Copy)]
pub enum Part {
    /// Not there before the touches, there after them.
    Created,
    /// There before and after.
    Updated,
    /// There before, not there after.
    Destroyed,
    /// Updated by touches of which one changed more than counts.
    Mixed,
}

impl Part {
    fn has(self, seen: &Seen) -> bool
        ensures { result ≡ has_of self seen.now }
    {
        match self {
            Part::Created => !seen.was_there && seen.is_there,
            Part::Updated => seen.was_there && seen.is_there,
            Part::Destroyed => seen.was_there && !seen.is_there,
            Part::Mixed => seen.was_there && seen.is_there && !seen.counts_alone,
        }
    }
}

/// The ids of a part, ascending.
pub fn ids_in(
    alloc: Global,
    seen: &BTreeMap<u64, Seen>,
    part: Part,
) -> Result<Listed<u64>, AllocError>
    ensures { IfOk result (λ ids. Lists ids (IsIn seen.now part)) }
{
    let ids = picked(alloc, seen, part)?;
    Ok(Listed::from_vec(ids))
}

fn picked(alloc: Global, seen: &BTreeMap<u64, Seen>, part: Part) -> Result<Vec<u64>, AllocError>
    ensures items { IfOk result (λ v. v.items ≡ map (λ e. e.0) (filter (λ e. has_of part e.1) seen.now.entries)) }
    ensures ordered { IsOrdered nat_cmp seen.now }
{
    seen.iter()
        .filter(|(_, known)| part.has(known))
        .map(|(id, _)| *id)
        .collect(alloc)
}

/// Whether a part has an id.
pub fn has_any(seen: &BTreeMap<u64, Seen>, part: Part) -> bool
    ensures any { result ≡ list_any (λ e. has_of part e.1) seen.now.entries }
    ensures ordered { IsOrdered nat_cmp seen.now }
{
    seen.iter().any(|(_, known)| part.has(known))
}

/// Each id with whether it was there before, ascending.
pub fn ids_with_presence(
    alloc: Global,
    seen: &BTreeMap<u64, Seen>,
) -> Result<Vec<(u64, bool)>, AllocError>
    ensures items { IfOk result (λ v. v.items ≡ map (λ e. (e.0, e.1.was_there)) seen.now.entries) }
    ensures ordered { IsOrdered nat_cmp seen.now }
{
    seen.iter()
        .map(|(id, known)| (*id, known.was_there))
        .collect(alloc)
}
