//! A walk over the kept touches from a place on.
ghost use Rattle.std.specs.Prelude.{◌≡◌, ◌≤◌, ◌<◌, ◌↔◌, drop, length, IsTrue, IfOk, Some, None, ℕ};
ghost use Rattle.change_list.specs.reading.Seen.{seen_after_one, Gathered};

use crate::Entry;
use circular_buffer::HeapCircularBuffer;
use std::alloc::{AllocError, Global};
use std::collections::BTreeMap;

/// What a walk over touches has seen of an id.
#[derive(Clone, Copy, Debug, PartialEq, Eq)]
pub struct Seen {
    /// Whether the id was there before the first of them.
    pub was_there: bool,
    /// Whether it is there after the last of them.
    pub is_there: bool,
    /// Whether each of them changed counts alone.
    pub counts_alone: bool,
}

/// What has been seen of an id after one more touch of it.
fn noted(known: Option<Seen>, entry: &Entry) -> Seen
    ensures { result ≡ seen_after_one known entry.now }
{
    match known {
        None => Seen {
            was_there: entry.kind.finds(),
            is_there: entry.kind.leaves(),
            counts_alone: entry.counts_only,
        },
        Some(seen) => Seen {
            was_there: seen.was_there,
            is_there: entry.kind.leaves(),
            counts_alone: seen.counts_alone && entry.counts_only,
        },
    }
}

/// Whether the next id would be one too many.
fn is_past(known: Option<Seen>, max: Option<u64>, count: usize) -> bool
    ensures { IsTrue result ↔ (most : ℕ) × (known ≡ None) × (max ≡ Some most) × (most ≤ count) }
{
    match (known, max) {
        (None, Some(most)) => most <= count as u64,
        _ => false,
    }
}

/// Takes the touches from index `start` on, as many as `max` allows: what was seen of each id, and how many they are.
pub fn gather(
    alloc: Global,
    ring: &HeapCircularBuffer<Entry>,
    start: usize,
    max: Option<u64>,
) -> Result<(BTreeMap<u64, Seen>, usize), AllocError>
    requires { start ≤ length ring.now.items }
    ensures { IfOk result (λ r. Gathered (drop start ring.now.items) max r.0 r.1) }
{
    let mut seen = BTreeMap::new(alloc);
    let mut taken = 0;
    for i in start..ring.len() {
        let Some(entry) = ring.get(i) else {
            unreachable!();
        };
        let known = seen.get(&entry.id).copied();
        if is_past(known, max, seen.len()) {
            return Ok((seen, taken));
        }
        seen.insert(entry.id, noted(known, entry))?;
        taken += 1;
    }
    Ok((seen, taken))
}
