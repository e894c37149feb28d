// Clients that came and are not handed on yet.
ghost use Rattle.std.specs.Prelude.{◌≡◌, ◌+◌, ◌≤◌, [], IfOk};
ghost use Rattle.std.specs.VecDeque.{deque_capacity, deque_len};
ghost use Rattle.client_front.specs.declared.waiting.TheConstants.{MAX_HELD_CLIENTS};

use crate::scan::Scan;
use std::alloc::{AllocError, Global};
use std::collections::VecDeque;

/// How many clients are held at most.
pub const MAX_HELD_CLIENTS: usize = 1_024;

/// After how many milliseconds a client that sends nothing is closed.
pub const IDLE_MILLISECONDS: u64 = 60_000;

/// A client whose head isn't whole. Times are milliseconds of the monotonic clock.
#[derive(Drop)]
pub(crate) struct Idle<S: Drop> {
    /// What the listener watches it under.
    pub(crate) key: u64,
    /// When it is closed: its first octet is due, or its head's end.
    pub(crate) due: u64,
    /// What it has sent of its head.
    pub(crate) scan: Scan,
    pub(crate) stream: S,
}

/// Clients that came, in order of their coming, and those whose head is whole, in order of that.
#[derive(Drop)]
pub(crate) struct Waiting<S: Drop> {
    pub(crate) idle: VecDeque<Idle<S>>,
    pub(crate) asking: VecDeque<S>,
    // As many as may be held are held, and ask, without memory being asked for.
    ghost few: { deque_len idle + deque_len asking ≤ MAX_HELD_CLIENTS },
    ghost idle_room: { MAX_HELD_CLIENTS ≤ deque_capacity idle },
    ghost asking_room: { MAX_HELD_CLIENTS ≤ deque_capacity asking },
}

impl<S: Drop> Waiting<S> {
    /// No clients, and room for as many as may be held.
    pub(crate) fn new(alloc: Global) -> Result<Waiting<S>, AllocError>
        ensures { IfOk result (λ waiting. (waiting.idle.items ≡ []) × (waiting.asking.items ≡ [])) }
    {
        let idle = VecDeque::with_capacity(alloc, MAX_HELD_CLIENTS)?;
        let asking = VecDeque::with_capacity(alloc, MAX_HELD_CLIENTS)?;
        Ok(Waiting { idle, asking })
    }
}
