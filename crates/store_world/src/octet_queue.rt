// Octets that wait, in the order in which they came.
ghost use Rattle.std.specs.Prelude.{◌≡◌, ◌≤◌, ◌++◌, [], OnErr, OnOk, drop, length, min, take};

use std::alloc::{AllocError, Global};
use std::marker::Model;

/// Octets, of which the first are taken off and to which more are added.
#[derive(Drop)]
pub(crate) struct OctetQueue {
    held: Vec<u8>,
    // The place of the first octet that isn't taken off.
    from: usize,
}

impl Model for OctetQueue {
    ghost use Rattle.std.specs.Prelude.{◌≤◌, List, ℕ, drop, vec_len};

    ghost Value = { List ℕ };

    ghost view = { λ q. drop q.from q.held.items };

    ghost invariant = { λ q. q.from ≤ vec_len q.held };
}

impl OctetQueue {
    /// No octets. It takes no memory.
    pub(crate) fn new(alloc: Global) -> OctetQueue
        ensures { result ≡ [] }
    {
        OctetQueue {
            held: Vec::new(alloc),
            from: 0,
        }
    }

    /// The octets, in order.
    pub(crate) fn as_slice(&self) -> &[u8]
        ensures { result.now ≡ self.now }
    {
        &self.held[self.from..]
    }

    /// All octets are taken off.
    pub(crate) fn clear(&mut self)
        ensures { self.new ≡ [] }
    {
        self.held.clear();
        self.from = 0;
    }

    /// These octets wait too, after the others.
    pub(crate) fn add(&mut self, octets: &[u8]) -> Result<(), AllocError>
        ensures ok { OnOk result (self.new ≡ self.old ++ octets.now) }
        ensures err { OnErr result (self.new ≡ self.old) }
    {
        if self.from == self.held.len() {
            self.clear();
        }
        self.held.extend_from_slice(octets)
    }

    /// The first `count` octets are taken off.
    pub(crate) fn skip(&mut self, count: usize)
        requires { count ≤ length self.old }
        ensures { self.new ≡ drop count self.old }
    {
        self.from += count;
    }

    /// Takes octets off to the front of `into`, as many as there are and as it has room for; how many.
    pub(crate) fn give(&mut self, into: &mut [u8]) -> usize
        ensures count { result ≡ min (length self.old) (length into.new) }
        ensures octets { take result into.new ≡ take result self.old }
        ensures rest { self.new ≡ drop result self.old }
    {
        let waiting = self.as_slice();
        let count = waiting.len().min(into.len());
        into[..count].copy_from_slice(&waiting[..count]);
        self.skip(count);
        count
    }
}
