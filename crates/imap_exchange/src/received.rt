// The octets of one link life that a store gave.
ghost use Rattle.std.specs.Prelude.{◌≡◌, ◌<◌, ◌≤◌, ◌+◌, ◌++◌, List, ℕ, [], length, take, drop, IfOk, OnOk, IsErrOf};
ghost use Rattle.std.specs.Bool.{OnTrue, OnFalse};
ghost use Rattle.gate_world.specs.Causes.{Rose, LinkAlone};
ghost use Rattle.gate_world.specs.Tape.{Adds};
ghost use Rattle.imap_exchange.specs.Received.{Octets, nothing_given, most_given, room_left};
ghost use Rattle.imap_exchange.specs.Responses.{IsOver};
ghost use Rattle.imap_exchange.specs.reading.Filling.{Fills};

use crate::link_end::{LinkEnd, MAX_EXCHANGE_OCTETS, MAX_LIFE_OCTETS};
use gate_world::{FillError, Link, MAX_FILL_OCTETS, Unread};
use std::alloc::Global;
use std::marker::Model;

// Whether too much was given, in an exchange before which this much was given.
fn is_over(begun: u64, given: u64) -> bool
    requires { begun ≤ given }
    ensures over { OnTrue result (IsOver begun given) }
    ensures under { OnFalse result (IsOver begun given → ⊥) }
    ensures within { OnFalse result (given ≤ MAX_LIFE_OCTETS) }
{
    MAX_EXCHANGE_OCTETS < given - begun || MAX_LIFE_OCTETS < given
}

/// What a store gave in one link life: the octets that aren't read yet, and how many there were in all.
#[derive(Drop)]
pub struct Received {
    unread: Unread,
    given: u64,
}

impl Model for Received {
    ghost use Rattle.std.specs.Prelude.{◌≤◌, length};
    ghost use Rattle.imap_exchange.specs.Received.{Octets, most_given};

    ghost Value = { Octets };

    ghost view = { λ r. record { octets = r.unread; given = r.given } };

    ghost invariant = { λ r. (length r.unread ≤ r.given) × (r.given ≤ most_given) };
}

impl Received {
    /// Nothing is given yet. It takes no memory.
    pub fn new(alloc: Global) -> Received
        ensures { result ≡ nothing_given }
    {
        Received {
            unread: Unread::new(alloc),
            given: 0,
        }
    }

    /// The octets that aren't read yet.
    pub fn as_slice(&self) -> &[u8]
        ensures { result.now ≡ self.now.octets }
    {
        self.unread.as_slice()
    }

    /// How many octets of the life stand before those that aren't read yet.
    pub fn offset(&self) -> u64
        ensures { result + length self.now.octets ≡ self.now.given }
    {
        self.given - self.unread.as_slice().len() as u64
    }

    /// The first `count` octets are read.
    pub fn skip(&mut self, count: usize)
        requires { count ≤ length self.old.octets }
        ensures octets { self.new.octets ≡ drop count self.old.octets }
        ensures given { self.new.given ≡ self.old.given }
        ensures room { room_left self.new + count ≡ room_left self.old }
    {
        self.unread.skip(count);
    }

    /// Reads further octets from the link, unless too many were given in the exchange or the life. `begun` is what the
    /// life had given before the exchange.
    pub(crate) fn fill<L: Link>(&mut self, link: &mut L, begun: u64) -> Result<(), LinkEnd>
        requires { begun ≤ self.old.given }
        ensures tape { Adds (L.tape link.old) (L.tape link.new) (Fills begun self.old self.new result) }
        ensures alone { LinkAlone (L.faults link.old) (L.faults link.new) }
        ensures cause { IsErrOf result LinkEnd.Lost → Rose (L.faults link.old).link (L.faults link.new).link }
        ensures more { OnOk result (self.old.given < self.new.given) }
        ensures kept { OnOk result ((gave : List ℕ) × (self.new.octets ≡ self.old.octets ++ gave)) }
        ensures bound { OnOk result (self.new.given ≤ most_given) }
        ensures room { OnOk result (room_left self.new ≡ room_left self.old) }
        ensures hidden { L.hidden link.new ≡ L.hidden link.old }
    {
        if is_over(begun, self.given) {
            return Err(LinkEnd::TooMuch);
        }
        let before = self.unread.as_slice().len();
        match self.unread.fill_from_link(link) {
            Ok(()) => {
                self.given += (self.unread.as_slice().len() - before) as u64;
                Ok(())
            }
            Err(FillError::Failed) => Err(LinkEnd::Lost),
            Err(FillError::Memory) => Err(LinkEnd::Memory),
        }
    }
}
