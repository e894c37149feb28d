// The list of the last touches of a type.
ghost use Rattle.std.specs.Prelude.{◌≡◌, ◌+◌, ◌-◌, ◌<◌, ◌≤◌, ◌↔◌, [], ◌∷◌, ◌++◌, List, length, IsTrue, IfOk};
ghost use Rattle.change_list.specs.Kept.{IsOf, IsKeptPlace, front_of, none_yet, with_touch};
ghost use Rattle.change_list.specs.Touches.{AreTouches};
ghost use Rattle.change_list.specs.Changes.{IsChanges};
ghost use Rattle.change_list.specs.TouchedIds.{AreTouched};
ghost use Rattle.change_list.specs.Refusal.{RefusesOutside};
ghost use Rattle.change_list.specs.declared.entries.Entry.{Entry};

use crate::parts::ids_with_presence;
use crate::since::answer;
use crate::walk::gather;
use crate::{Changes, Entry, SinceError};
use circular_buffer::HeapCircularBuffer;
use octets::Listed;
use std::alloc::{AllocError, Global};
use std::marker::Model;

/// How many touches of a type are kept.
pub const WINDOW: usize = 8192;

/// The last place: JSON's readers keep integers exactly up to it.
pub const MAX_PLACE: u64 = 9_007_199_254_740_991;

/// The last touches of a type, and how many there have been.
#[derive(Drop)]
pub struct ChangeList {
    ring: HeapCircularBuffer<Entry>,
    place: u64,
    alloc: Global,
}

impl Model for ChangeList {
    ghost use Rattle.std.specs.Prelude.{◌≡◌, ◌≤◌, min, length};
    ghost use Rattle.change_list.specs.Kept.{Kept};
    ghost use Rattle.change_list.specs.declared.list.TheConstants.{MAX_PLACE, WINDOW};

    ghost Value = { Kept };

    ghost view = { λ a. record { place = a.place; entries = a.ring.items } };

    ghost invariant = { λ a. (a.ring.capacity ≡ WINDOW) × (length a.ring.items ≡ min a.place WINDOW) × (a.place ≤ MAX_PLACE) };
}

impl ChangeList {
    /// A list of no touches, with the room for all that it ever keeps.
    pub fn new(alloc: Global) -> Result<ChangeList, AllocError>
        ensures { IfOk result (λ l. l ≡ none_yet) }
    {
        let ring = HeapCircularBuffer::with_capacity(alloc, WINDOW)?;
        Ok(ChangeList {
            ring,
            place: 0,
            alloc,
        })
    }

    /// Notes a touch, in place of the oldest one where the list is full. It takes no memory and always succeeds.
    pub fn touch(&mut self, entry: Entry)
        requires { self.old.place < MAX_PLACE }
        ensures exact { self.new ≡ with_touch self.old entry }
        ensures history { (h : List Entry) → IsOf self.old h → IsOf self.new (h ++ entry ∷ []) }
    {
        self.ring.push_back(entry);
        self.place += 1;
    }

    /// How many touches there have been. It takes no memory.
    pub fn place(&self) -> u64
        ensures exact { result ≡ self.now.place }
        ensures history { (h : List Entry) → IsOf self.now h → result ≡ length h }
        ensures small { result ≤ MAX_PLACE }
    {
        self.place
    }

    /// The least place after which all touches are kept. It takes no memory.
    pub fn front(&self) -> u64
        ensures exact { result ≡ front_of self.now.place }
        ensures history { (h : List Entry) → IsOf self.now h → result ≡ front_of (length h) }
    {
        self.place.saturating_sub(WINDOW as u64)
    }

    /// Whether what changed after a place is answered. It takes no memory.
    pub fn holds(&self, place: u64) -> bool
        ensures { IsTrue result ↔ IsKeptPlace self.now place }
    {
        self.front() <= place && place <= self.place
    }

    /// What changed after a place, in steps of at most `max` touched ids where there is a `max` (RFC 8620, section 5.2).
    /// With a `max` of 0 nothing has.
    pub fn since(&self, place: u64, max: Option<u64>) -> Result<Changes, SinceError>
        ensures changes { IfOk result (λ c. (h : List Entry) → IsOf self.now h → AreTouches h
            → IsChanges h place max c) }
        ensures refused { RefusesOutside self.now place result }
    {
        let start = self.index_of(place)?;
        let changes = answer(self.alloc, &self.ring, place, start, max)?;
        Ok(changes)
    }

    /// The ids touched after a place, ascending, each with whether it was there at that place.
    pub fn touched(&self, place: u64) -> Result<Listed<(u64, bool)>, SinceError>
        ensures ids { IfOk result (λ xs. (h : List Entry) → IsOf self.now h → AreTouches h
            → AreTouched h place xs) }
        ensures refused { RefusesOutside self.now place result }
    {
        let start = self.index_of(place)?;
        let (seen, _taken) = gather(self.alloc, &self.ring, start, None)?;
        let ids = ids_with_presence(self.alloc, &seen)?;
        Ok(Listed::from_vec(ids))
    }

    /// The index of the first touch after a place.
    fn index_of(&self, place: u64) -> Result<usize, SinceError>
        ensures index { IfOk result (λ start. front_of self.now.place + start ≡ place) }
        ensures refused { RefusesOutside self.now place result }
    {
        let front = self.front();
        if place < front {
            return Err(SinceError::BeforeFront { front });
        }
        if self.place < place {
            return Err(SinceError::AfterEnd { place: self.place });
        }
        Ok((place - front) as usize)
    }
}
