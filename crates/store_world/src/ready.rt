// Octets that stand ready to be read.
ghost use Rattle.std.specs.Prelude.{◌≡◌, ◌++◌, [], OnErr, OnOk, drop, length, min, take};
ghost use Rattle.store_sessions.specs.Sessions.{greeting};

use crate::octet_queue::OctetQueue;
use std::alloc::{AllocError, Global};
use std::marker::Model;
use store_sessions::GREETING;

/// What the store told and isn't read yet: of the greeting first, and then of what was told after it.
#[derive(Drop)]
pub(crate) struct Ready {
    greeting: &'static [u8],
    told: OctetQueue,
}

impl Model for Ready {
    ghost use Rattle.std.specs.Prelude.{◌++◌, List, ℕ};

    ghost Value = { List ℕ };

    ghost view = { λ r. r.greeting.now ++ r.told };
}

impl Ready {
    /// Nothing stands ready. It takes no memory.
    pub(crate) fn new(alloc: Global) -> Ready
        ensures { result ≡ [] }
    {
        Ready {
            greeting: &[],
            told: OctetQueue::new(alloc),
        }
    }

    /// Nothing stands ready.
    pub(crate) fn clear(&mut self)
        ensures { self.new ≡ [] }
    {
        self.greeting = &[];
        self.told.clear();
    }

    /// The greeting alone stands ready. It takes no memory.
    pub(crate) fn greet(&mut self)
        ensures { self.new ≡ greeting }
    {
        self.greeting = GREETING;
        self.told.clear();
    }

    /// These octets stand ready too, after the others.
    pub(crate) fn add(&mut self, octets: &[u8]) -> Result<(), AllocError>
        ensures ok { OnOk result (self.new ≡ self.old ++ octets.now) }
        ensures err { OnErr result (self.new ≡ self.old) }
    {
        self.told.add(octets)
    }

    /// Puts octets at the front of `into`, as many as there are and as it has room for; how many.
    pub(crate) fn give(&mut self, into: &mut [u8]) -> usize
        ensures count { result ≡ min (length self.old) (length into.new) }
        ensures octets { take result into.new ≡ take result self.old }
        ensures rest { self.new ≡ drop result self.old }
    {
        let count = self.greeting.len().min(into.len());
        into[..count].copy_from_slice(&self.greeting[..count]);
        self.greeting = &self.greeting[count..];
        count + self.told.give(&mut into[count..])
    }
}
