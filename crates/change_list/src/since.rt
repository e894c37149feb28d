//! What changed after a place, from a walk over the touches after it.
ghost use Rattle.std.specs.Prelude.{◌≡◌, ◌≢◌, ◌↔◌, [], false, IsTrue, ◌+◌, ◌≤◌, ◌<◌, ◌^◌, drop, length, IfOk};
ghost use Rattle.change_list.specs.reading.Answer.{Answers};

use crate::parts::{Part, has_any, ids_in};
use crate::walk::gather;
use crate::{Changes, Entry};
use circular_buffer::HeapCircularBuffer;
use octets::Listed;
use std::alloc::{AllocError, Global};

// Whether counts are all that changed in the updated ids, of which some may have changed in more.
fn has_only_counts(updated: &Listed<u64>, has_mixed: bool) -> bool
    ensures { IsTrue result ↔ ((updated.now ≢ []) × (has_mixed ≡ false)) }
{
    !updated.is_empty() && !has_mixed
}

/// What changed after `place`, from the touches from index `start` on.
pub fn answer(
    alloc: Global,
    ring: &HeapCircularBuffer<Entry>,
    place: u64,
    start: usize,
    max: Option<u64>,
) -> Result<Changes, AllocError>
    requires start { start ≤ length ring.now.items }
    requires fits { place + length ring.now.items < 2 ^ 63 }
    ensures { IfOk result (λ c. Answers (drop start ring.now.items) place max c) }
{
    let (seen, taken) = gather(alloc, ring, start, max)?;
    let created = ids_in(alloc, &seen, Part::Created)?;
    let updated = ids_in(alloc, &seen, Part::Updated)?;
    let destroyed = ids_in(alloc, &seen, Part::Destroyed)?;
    let counts_only = has_only_counts(&updated, has_any(&seen, Part::Mixed));
    Ok(Changes {
        to: place + taken as u64,
        created,
        updated,
        destroyed,
        counts_only,
    })
}
