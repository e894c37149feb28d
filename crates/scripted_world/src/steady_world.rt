// A world in memory that follows a script, and in which no call fails.
ghost use Rattle.std.specs.Prelude.{◌≡◌, ◌<◌, ◌≤◌, ◌↔◌, ℕ, [], Some, None, All, Err, IfOk, IfSome, IsNone, IsOk, IsSome, IsTrue, OnErr, OnOk, length, min, take, if◌then◌else◌};
ghost use Rattle.gate_world.specs.Causes.{FrontAlone, KeepAlone, LinkAlone, NoFault, Rose, SayAlone};
ghost use Rattle.gate_world.specs.declared.event.Event.TheVariants.{Accepted, ClientDone, ClientTook, Clock, Dialed, FrontFailed, KeepFailed, Kept, LinkEnded, LoadFailed, Loaded, NoMore, Said, SayFailed, StoreGave, StoreTook, Word};
ghost use Rattle.gate_world.specs.declared.outside.KeepError.TheVariants as keeping;
ghost use Rattle.gate_world.specs.Pieces.{Gives, octets_of};
ghost use Rattle.gate_world.specs.Read.{given};
ghost use Rattle.scripted_world.specs.Script.{Keeps, SteadyAcceptPlays, SteadyLoadPlays, SteadyReadPlays, asked_clock, begun, dialed, drawn, ended, held, next_moment, next_word, received_on, with_batch, with_client};
ghost use Rattle.gate_world.specs.Tape.{Adds, AddsOne, Just};

use crate::Script;
use crate::playback::Playback;
use gate_world::{
    Chance, Clock, Console, Event, Failed, Front, KeepError, Keeper, Link, Secrets, Taped, World,
};
use octets::Bytes;
use std::alloc::{AllocError, Global};
use std::marker::Model;

/// A world in which no call fails: of its script, `fails` and `stop_at` count for nothing, and a read past the end of
/// a link life, or where there is none, gives octets 0.
#[derive(Drop)]
pub struct SteadyWorld {
    playback: Playback,
}

impl Model for SteadyWorld {
    ghost use Rattle.gate_world.specs.Causes.{no_faults};
    ghost use Rattle.scripted_world.specs.Script.{Scripted, secrets};

    ghost Value = { Scripted };

    ghost view = { λ w. record { tape = w.playback.tape; faults = no_faults; hidden = secrets w.playback.left.script; left = w.playback.left } };
}

impl SteadyWorld {
    /// Nothing of the script is played. It takes no memory.
    pub fn new(alloc: Global, script: Script) -> SteadyWorld
        ensures { result ≡ begun script }
    {
        SteadyWorld {
            playback: Playback::new(alloc, script),
        }
    }

    /// The events so far, where they are told.
    pub fn events(&self) -> Option<&[Event]>
        ensures told { IfSome result (λ events. self.now.tape ≡ Some events.now) }
        ensures stopped { IsNone result → self.now.tape ≡ None }
    {
        self.playback.tape.events()
    }

    /// Whether a link life is there.
    pub fn is_linked(&self) -> bool
        ensures { IsTrue result ↔ IsSome self.now.left.link }
    {
        self.playback.left.is_linked()
    }

    /// Tells that the store gave these octets, whatever the script has. Nothing of the script is played.
    pub fn tell_store_gave(&mut self, octets: &[u8])
        ensures tape { AddsOne self.old.tape self.new.tape (StoreGave octets.now) }
        ensures faults { NoFault self.old.faults self.new.faults }
        ensures hidden { self.new.hidden ≡ self.old.hidden }
        ensures plays { self.new.left ≡ self.old.left }
    {
        self.playback.tell_store_gave(octets);
    }

    /// One client more for `accept`, after the others. A refusal changes nothing.
    pub fn add_client(&mut self, octets: Bytes) -> Result<(), AllocError>
        ensures ok { OnOk result (self.new ≡ record self.old { left = with_client self.old.left octets }) }
        ensures err { OnErr result (self.new ≡ self.old) }
    {
        self.playback.left.add_client(octets)
    }

    /// The batches that are kept, in the order in which they were appended. It takes no memory.
    pub fn held(&self) -> &[Bytes]
        ensures { result.now ≡ held self.now.left }
    {
        self.playback.left.held()
    }

    /// Appends the batch, and says whether there was memory for it: without it the batch isn't kept, and the tape is told no longer.
    pub fn keep(&mut self, batch: &[u8]) -> Result<(), AllocError>
        ensures tape { AddsOne self.old.tape self.new.tape (Kept batch.now) }
        ensures faults { NoFault self.old.faults self.new.faults }
        ensures hidden { self.new.hidden ≡ self.old.hidden }
        ensures ok { OnOk result (self.new.left ≡ with_batch batch.now self.old.left) }
        ensures err { OnErr result ((self.new.left ≡ self.old.left) × (self.new.tape ≡ None)) }
    {
        self.playback.keep(batch)
    }
}

// Puts octets 0 at the front of `into`, at most `piece`; how many.
fn put_zeros(piece: usize, into: &mut [u8]) -> usize
    ensures count { result ≡ min piece (length into.new) }
    ensures zeros { All (λ octet. octet ≡ 0) (take result into.new) }
{
    let count = piece.min(into.len());
    into[..count].fill(0);
    count
}

impl Taped for SteadyWorld {
    ghost tape = { λ s. s.tape };

    ghost faults = { λ s. s.faults };

    ghost hidden = { λ s. s.hidden };
}

impl Link for SteadyWorld {
    fn dial(&mut self) -> Result<(), Failed>
        ensures ok { OnOk result (AddsOne self.old.tape self.new.tape Dialed) }
        ensures faults { NoFault self.old.faults self.new.faults }
        ensures hidden { self.new.hidden ≡ self.old.hidden }
        ensures never { IsOk result }
        ensures plays { self.new.left ≡ dialed self.old.left }
    {
        self.playback.dial();
        Ok(())
    }

    fn read(&mut self, into: &mut [u8]) -> Result<usize, Failed>
        requires { 0 < length into.old }
        ensures bound { IfOk result (λ n. (0 < n) × (n ≤ length into.new)) }
        ensures ok { IfOk result (λ n. AddsOne self.old.tape self.new.tape (StoreGave (take n into.new))) }
        ensures faults { NoFault self.old.faults self.new.faults }
        ensures hidden { self.new.hidden ≡ self.old.hidden }
        ensures never { IsOk result }
        ensures plays { IfOk result (SteadyReadPlays into.new self.old.left self.new.left) }
    {
        let mut count = self.playback.left.read(into);
        if count == 0 {
            count = put_zeros(self.playback.left.script.piece.max(1), into);
        }
        self.playback.tell_store_gave(&into[..count]);
        Ok(count)
    }

    fn write(&mut self, from: &[u8]) -> Result<usize, Failed>
        requires { 0 < length from.now }
        ensures bound { IfOk result (λ n. (0 < n) × (n ≤ length from.now)) }
        ensures ok { IfOk result (λ n. AddsOne self.old.tape self.new.tape (StoreTook (take n from.now))) }
        ensures faults { NoFault self.old.faults self.new.faults }
        ensures hidden { self.new.hidden ≡ self.old.hidden }
        ensures never { IsOk result }
        ensures all { IfOk result (λ n. n ≡ length from.now) }
        ensures plays { self.new.left ≡ self.old.left }
    {
        self.playback.write(from);
        Ok(from.len())
    }

    fn hang_up(&mut self)
        ensures tape { AddsOne self.old.tape self.new.tape LinkEnded }
        ensures faults { NoFault self.old.faults self.new.faults }
        ensures hidden { self.new.hidden ≡ self.old.hidden }
        ensures plays { self.new.left ≡ ended self.old.left }
    {
        self.playback.end_link();
    }
}

impl Keeper for SteadyWorld {
    fn load(&mut self) -> Result<Vec<Bytes>, KeepError>
        ensures ok { IfOk result (λ batches. AddsOne self.old.tape self.new.tape (Loaded batches.items)) }
        ensures memory { result ≡ Err keeping.Memory → Adds self.old.tape self.new.tape (Just []) }
        ensures faults { NoFault self.old.faults self.new.faults }
        ensures hidden { self.new.hidden ≡ self.old.hidden }
        ensures plays { SteadyLoadPlays self.old.left self.new.left result }
    {
        let Ok(batches) = self.playback.load() else {
            return Err(KeepError::Memory);
        };
        Ok(batches)
    }

    fn append(&mut self, batch: &[u8]) -> Result<(), Failed>
        ensures ok { OnOk result (AddsOne self.old.tape self.new.tape (Kept batch.now)) }
        ensures faults { NoFault self.old.faults self.new.faults }
        ensures hidden { self.new.hidden ≡ self.old.hidden }
        ensures never { IsOk result }
        ensures plays { Keeps batch.now self.old.left self.new.left self.new.tape }
    {
        let _ = self.keep(batch);
        Ok(())
    }
}

impl Front for SteadyWorld {
    fn accept(&mut self) -> Result<bool, Failed>
        ensures ok { IfOk result (λ more. AddsOne self.old.tape self.new.tape (if more then Accepted else NoMore)) }
        ensures faults { NoFault self.old.faults self.new.faults }
        ensures hidden { self.new.hidden ≡ self.old.hidden }
        ensures never { IsOk result }
        ensures plays { IfOk result (SteadyAcceptPlays self.old.left self.new.left) }
    {
        Ok(self.playback.accept())
    }

    fn recv(&mut self, into: &mut [u8]) -> Result<usize, Failed>
        requires { 0 < length into.old }
        ensures bound { IfOk result (λ n. n ≤ length into.new) }
        ensures ok { IfOk result (λ n. AddsOne self.old.tape self.new.tape (given (take n into.new))) }
        ensures faults { NoFault self.old.faults self.new.faults }
        ensures hidden { self.new.hidden ≡ self.old.hidden }
        ensures never { IsOk result }
        ensures gives { IfOk result (Gives self.old.left.script.piece (octets_of self.old.left.client) into.new) }
        ensures plays { IfOk result (λ n. self.new.left ≡ received_on n self.old.left) }
    {
        Ok(self.playback.recv(into))
    }

    fn send(&mut self, from: &[u8]) -> Result<usize, Failed>
        requires { 0 < length from.now }
        ensures bound { IfOk result (λ n. (0 < n) × (n ≤ length from.now)) }
        ensures ok { IfOk result (λ n. AddsOne self.old.tape self.new.tape (ClientTook (take n from.now))) }
        ensures faults { NoFault self.old.faults self.new.faults }
        ensures hidden { self.new.hidden ≡ self.old.hidden }
        ensures never { IsOk result }
        ensures all { IfOk result (λ n. n ≡ length from.now) }
        ensures plays { self.new.left ≡ self.old.left }
    {
        self.playback.send(from);
        Ok(from.len())
    }

    fn finish(&mut self)
        ensures tape { AddsOne self.old.tape self.new.tape ClientDone }
        ensures faults { NoFault self.old.faults self.new.faults }
        ensures hidden { self.new.hidden ≡ self.old.hidden }
        ensures plays { self.new.left ≡ self.old.left }
    {
        self.playback.finish();
    }
}

impl Clock for SteadyWorld {
    fn now(&mut self) -> i64
        ensures tape { AddsOne self.old.tape self.new.tape (Clock result) }
        ensures faults { NoFault self.old.faults self.new.faults }
        ensures hidden { self.new.hidden ≡ self.old.hidden }
        ensures moment { result ≡ next_moment self.old.left.script.moments }
        ensures plays { self.new.left ≡ asked_clock self.old.left }
    {
        self.playback.now()
    }
}

impl Chance for SteadyWorld {
    fn word(&mut self) -> u64
        ensures tape { AddsOne self.old.tape self.new.tape (Word result) }
        ensures faults { NoFault self.old.faults self.new.faults }
        ensures hidden { self.new.hidden ≡ self.old.hidden }
        ensures word { result ≡ next_word self.old.left.script.words }
        ensures plays { self.new.left ≡ drawn self.old.left }
    {
        self.playback.word()
    }
}

impl Console for SteadyWorld {
    fn say(&mut self, text: &[u8]) -> Result<(), Failed>
        ensures ok { OnOk result (AddsOne self.old.tape self.new.tape (Said text.now)) }
        ensures faults { NoFault self.old.faults self.new.faults }
        ensures hidden { self.new.hidden ≡ self.old.hidden }
        ensures never { IsOk result }
        ensures plays { self.new.left ≡ self.old.left }
    {
        self.playback.say(text);
        Ok(())
    }
}

impl Secrets for SteadyWorld {
    fn password(&self) -> &[u8] {
        self.playback.left.script.password.as_slice()
    }

    fn token(&self) -> &[u8] {
        self.playback.left.script.token.as_slice()
    }
}

impl World for SteadyWorld {}
