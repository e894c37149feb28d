// Octets that a client has not taken yet.
ghost use Rattle.std.specs.Prelude.{◌≡◌, ◌≤◌, ◌↔◌, [], length, take, IsTrue, IfOk};
ghost use Rattle.client_streams.specs.Sending as spec;

use std::alloc::{AllocError, Global};
use std::marker::Model;

/// How many octets of a response are kept for its client at most.
pub const MAX_KEPT_OCTETS: usize = 8_388_608;

/// Octets of a response that its client is to be sent and has not taken yet, in order, with room for as many as are kept.
#[derive(Drop)]
pub struct SendBuffer {
    octets: Vec<u8>,
    /// How many of them it has taken.
    taken: usize,
}

impl Model for SendBuffer {
    ghost use Rattle.std.specs.Prelude.{◌≤◌, drop, length, vec_capacity, vec_len};
    ghost use Rattle.client_streams.specs.Kept.{Kept};
    ghost use Rattle.client_streams.specs.declared.send_buffer.TheConstants.{MAX_KEPT_OCTETS};

    ghost Value = { Kept };

    ghost view = { λ b. record { unsent = drop b.taken b.octets.items; stored = vec_len b.octets } };

    ghost invariant = { λ b. (b.taken ≤ length b.octets.items) × (MAX_KEPT_OCTETS ≤ vec_capacity b.octets) };
}

impl SendBuffer {
    /// An empty buffer.
    pub fn new(alloc: Global) -> Result<SendBuffer, AllocError>
        ensures { IfOk result (λ buffer. buffer ≡ spec.nothing_kept) }
    {
        let octets = Vec::with_capacity(alloc, MAX_KEPT_OCTETS)?;
        Ok(SendBuffer { octets, taken: 0 })
    }

    /// What the client has not taken yet.
    pub fn unsent(&self) -> &[u8]
        ensures { result.now ≡ self.now.unsent }
    {
        self.octets.as_slice().split_at(self.taken).1
    }

    /// Whether it has taken all.
    pub fn is_empty(&self) -> bool
        ensures { IsTrue result ↔ (self.now.unsent ≡ []) }
    {
        self.unsent().is_empty()
    }

    /// It has taken so many more, from the front.
    pub fn advance(&mut self, count: usize)
        requires { count ≤ length self.old.unsent }
        ensures { self.new ≡ spec.sent_more count self.old }
    {
        self.taken += count;
    }

    /// Puts some of the octets behind what stands, from their front, as many as there is room for: how many. It takes no memory.
    pub fn put(&mut self, from: &[u8]) -> usize
        ensures count { result ≡ spec.fitting self.old from.now }
        ensures put { self.new ≡ spec.kept_more (take result from.now) self.old }
    {
        let count = from
            .len()
            .min(MAX_KEPT_OCTETS.saturating_sub(self.octets.len()));
        let (octets, _) = from.split_at(count);
        let _ = self.octets.extend_from_slice(octets);
        count
    }

    /// Empties the buffer, whose room stays.
    pub fn clear(&mut self)
        ensures { self.new ≡ spec.nothing_kept }
    {
        self.octets.clear();
        self.taken = 0;
    }
}
