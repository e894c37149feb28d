// A script that is played, for the worlds that follow one.
ghost use Rattle.std.specs.Prelude.{◌≡◌, ◌<◌, ◌≤◌, [], IfOk, MatchBool, None, OnErr, OnOk, Some, length, min, take, if◌then◌else◌};
ghost use Rattle.gate_world.specs.declared.event.Event.TheVariants.{Accepted, ClientDone, ClientTook, Clock, Dialed, Kept, KeepFailed, LinkEnded, Loaded, NoMore, Said, StoreGave, StoreTook, Word};
ghost use Rattle.gate_world.specs.Pieces.{Gives, octets_of};
ghost use Rattle.gate_world.specs.Read.{given};
ghost use Rattle.scripted_world.specs.Script.{KeepsWhere, accepted, asked_clock, dialed, drawn, ended, held, next_moment, next_word, received_on, unplayed, with_batch};
ghost use Rattle.gate_world.specs.Tape.{Adds, AddsOne, Just};

use crate::Script;
use crate::left::Left;
use gate_world::{Event, Tape};
use octets::{Bytes, Names};
use std::alloc::{AllocError, Global};

/// What is left of a script, and what was told of it.
#[derive(Drop)]
pub(crate) struct Playback {
    alloc: Global,
    pub(crate) left: Left,
    pub(crate) tape: Tape,
}

impl Playback {
    /// Nothing of the script has been played.
    pub(crate) fn new(alloc: Global, script: Script) -> Playback
        ensures told { result.tape ≡ Some [] }
        ensures left { result.left ≡ unplayed script }
    {
        Playback {
            alloc,
            left: Left::new(script),
            tape: Tape::new(alloc),
        }
    }

    /// The next link life begins.
    pub(crate) fn dial(&mut self)
        ensures tape { AddsOne self.old.tape self.new.tape Dialed }
        ensures left { self.new.left ≡ dialed self.old.left }
    {
        self.left.dial();
        self.tape.add(Event::Dialed);
    }

    /// The link life ends.
    pub(crate) fn end_link(&mut self)
        ensures tape { AddsOne self.old.tape self.new.tape LinkEnded }
        ensures left { self.new.left ≡ ended self.old.left }
    {
        self.left.end_link();
        self.tape.add(Event::LinkEnded);
    }

    /// The store gave these octets.
    pub(crate) fn tell_store_gave(&mut self, octets: &[u8])
        ensures tape { AddsOne self.old.tape self.new.tape (StoreGave octets.now) }
        ensures left { self.new.left ≡ self.old.left }
    {
        match Bytes::copy_of(self.alloc, octets) {
            Ok(octets) => self.tape.add(Event::StoreGave(octets)),
            Err(_) => self.tape.stop(),
        }
    }

    /// The store takes all octets.
    pub(crate) fn write(&mut self, from: &[u8])
        ensures tape { AddsOne self.old.tape self.new.tape (StoreTook from.now) }
        ensures left { self.new.left ≡ self.old.left }
    {
        match Bytes::copy_of(self.alloc, from) {
            Ok(octets) => self.tape.add(Event::StoreTook(octets)),
            Err(_) => self.tape.stop(),
        }
    }

    /// The batches that are kept, in order, and tells them. With no memory for them nothing is told.
    pub(crate) fn load(&mut self) -> Result<Vec<Bytes>, AllocError>
        ensures batches { IfOk result (λ batches. batches.items ≡ held self.old.left) }
        ensures tape { IfOk result (λ batches. AddsOne self.old.tape self.new.tape (Loaded batches.items)) }
        ensures untold { OnErr result (Adds self.old.tape self.new.tape (Just [])) }
        ensures left { self.new.left ≡ self.old.left }
    {
        let batches = share_all(self.alloc, self.left.held())?;
        match share_all(self.alloc, &batches) {
            Ok(told) => self.tape.add(Event::Loaded(Names::from_vec(told))),
            Err(_) => self.tape.stop(),
        }
        Ok(batches)
    }

    // Keeps the batch after the others, and gives it to be told. Nothing is told yet.
    fn hold(&mut self, batch: &[u8]) -> Result<Bytes, AllocError>
        ensures ok { IfOk result (λ told. (told ≡ batch.now) × (self.new.left ≡ with_batch batch.now self.old.left)) }
        ensures err { OnErr result (self.new.left ≡ self.old.left) }
        ensures tape { self.new.tape ≡ self.old.tape }
    {
        let held = Bytes::copy_of(self.alloc, batch)?;
        let told = held.share()?;
        self.left.keep(held)?;
        Ok(told)
    }

    /// Keeps the batch after the others, and tells so. With no memory for it, it isn't kept, and the tape is told no longer.
    pub(crate) fn keep(&mut self, batch: &[u8]) -> Result<(), AllocError>
        ensures tape { AddsOne self.old.tape self.new.tape (Kept batch.now) }
        ensures ok { OnOk result (self.new.left ≡ with_batch batch.now self.old.left) }
        ensures err { OnErr result ((self.new.left ≡ self.old.left) × (self.new.tape ≡ None)) }
    {
        match self.hold(batch) {
            Ok(told) => {
                self.tape.add(Event::Kept(told));
                Ok(())
            }
            Err(error) => {
                self.tape.stop();
                Err(error)
            }
        }
    }

    /// An append of the batch fails, which is kept or not. With no memory for it, it isn't kept, and the tape is told no longer.
    pub(crate) fn fail_to_keep(&mut self, batch: &[u8], kept: bool)
        ensures tape { AddsOne self.old.tape self.new.tape (KeepFailed batch.now) }
        ensures left { KeepsWhere kept batch.now self.old.left self.new.left self.new.tape }
    {
        let told = if kept {
            self.hold(batch)
        } else {
            Bytes::copy_of(self.alloc, batch)
        };
        match told {
            Ok(told) => self.tape.add(Event::KeepFailed(told)),
            Err(_) => self.tape.stop(),
        }
    }

    /// The next client comes, where there is one.
    pub(crate) fn accept(&mut self) -> bool
        ensures tape { AddsOne self.old.tape self.new.tape (if result then Accepted else NoMore) }
        ensures left { MatchBool result ((0 < length self.old.left.script.clients) × (self.new.left ≡ accepted self.old.left)) ((self.old.left.script.clients ≡ []) × (self.new.left ≡ self.old.left)) }
    {
        let more = self.left.accept();
        if more {
            self.tape.add(Event::Accepted);
        } else {
            self.tape.add(Event::NoMore);
        }
        more
    }

    /// Copies the client's next octets to the front of `into`; how many.
    pub(crate) fn recv(&mut self, into: &mut [u8]) -> usize
        ensures bound { result ≤ length into.new }
        ensures tape { AddsOne self.old.tape self.new.tape (given (take result into.new)) }
        ensures gives { Gives self.old.left.script.piece (octets_of self.old.left.client) into.new result }
        ensures left { self.new.left ≡ received_on result self.old.left }
    {
        let count = self.left.recv(into);
        tell_given(self.alloc, &mut self.tape, &into[..count]);
        count
    }

    /// The client takes all octets.
    pub(crate) fn send(&mut self, from: &[u8])
        ensures tape { AddsOne self.old.tape self.new.tape (ClientTook from.now) }
        ensures left { self.new.left ≡ self.old.left }
    {
        match Bytes::copy_of(self.alloc, from) {
            Ok(octets) => self.tape.add(Event::ClientTook(octets)),
            Err(_) => self.tape.stop(),
        }
    }

    /// The answer to the client is finished.
    pub(crate) fn finish(&mut self)
        ensures tape { AddsOne self.old.tape self.new.tape ClientDone }
        ensures left { self.new.left ≡ self.old.left }
    {
        self.tape.add(Event::ClientDone);
    }

    /// The clock's next moment.
    pub(crate) fn now(&mut self) -> i64
        ensures tape { AddsOne self.old.tape self.new.tape (Clock result) }
        ensures moment { result ≡ next_moment self.old.left.script.moments }
        ensures left { self.new.left ≡ asked_clock self.old.left }
    {
        let moment = self.left.ask_clock();
        self.tape.add(Event::Clock(moment));
        moment
    }

    /// The next random word.
    pub(crate) fn word(&mut self) -> u64
        ensures tape { AddsOne self.old.tape self.new.tape (Word result) }
        ensures word { result ≡ next_word self.old.left.script.words }
        ensures left { self.new.left ≡ drawn self.old.left }
    {
        let word = self.left.draw();
        self.tape.add(Event::Word(word));
        word
    }

    /// The console takes a text.
    pub(crate) fn say(&mut self, text: &[u8])
        ensures tape { AddsOne self.old.tape self.new.tape (Said text.now) }
        ensures left { self.new.left ≡ self.old.left }
    {
        match Bytes::copy_of(self.alloc, text) {
            Ok(octets) => self.tape.add(Event::Said(octets)),
            Err(_) => self.tape.stop(),
        }
    }
}

// Tells what a recv gave.
fn tell_given(alloc: Global, tape: &mut Tape, octets: &[u8])
    ensures { AddsOne tape.old tape.new (given octets.now) }
{
    if octets.is_empty() {
        tape.add(Event::ClientEnded);
        return;
    }
    match Bytes::copy_of(alloc, octets) {
        Ok(octets) => tape.add(Event::ClientGave(octets)),
        Err(_) => tape.stop(),
    }
}

// The same batches, whose octets are shared and not copied.
fn share_all(alloc: Global, batches: &[Bytes]) -> Result<Vec<Bytes>, AllocError>
    ensures { IfOk result (λ shared. shared.items ≡ batches.now) }
{
    let mut shared = Vec::with_capacity(alloc, batches.len())?;
    for batch in batches {
        shared.push(batch.share()?)?;
    }
    Ok(shared)
}
