// A world in memory that follows a script, and fails where the script says so.
ghost use Rattle.std.specs.Prelude.{◌≡◌, ◌<◌, ◌≤◌, [], Some, None, Err, IfOk, IfSome, IsNone, OnErr, OnOk, length, take, if◌then◌else◌};
ghost use Rattle.gate_world.specs.Causes.{FrontAlone, KeepAlone, LinkAlone, NoFault, Rose, SayAlone};
ghost use Rattle.gate_world.specs.declared.event.Event.TheVariants.{Accepted, ClientDone, ClientTook, Clock, Dialed, FrontFailed, KeepFailed, Kept, LinkEnded, LoadFailed, Loaded, NoMore, Said, SayFailed, StoreGave, StoreTook, Word};
ghost use Rattle.gate_world.specs.declared.outside.KeepError.TheVariants as keeping;
ghost use Rattle.gate_world.specs.Read.{given};
ghost use Rattle.scripted_world.specs.Script.{AcceptPlays, AppendPlays, DialPlays, KeepsWhere, LoadPlays, ReadPlays, RecvPlays, SayPlays, SendPlays, WritePlays, asked_clock, begun, counted, drawn, ended, held, next_moment, next_word};
ghost use Rattle.gate_world.specs.Tape.{Adds, AddsOne, Just};

use crate::Script;
use crate::playback::Playback;
use gate_world::{
    Chance, Clock, Console, Event, Failed, Front, KeepError, Keeper, Link, Secrets, Taped, World,
};
use octets::Bytes;
use std::alloc::Global;
use std::marker::Model;

/// A world in memory that follows a script: the clauses of each call say what it plays of it.
#[derive(Drop)]
pub struct ScriptWorld {
    playback: Playback,
    link_faults: u64,
    keep_faults: u64,
    front_faults: u64,
    say_faults: u64,
}

impl Model for ScriptWorld {
    ghost use Rattle.scripted_world.specs.Script.{Scripted, secrets};

    ghost Value = { Scripted };

    ghost view = { λ w. record { tape = w.playback.tape; faults = record { link = w.link_faults; keep = w.keep_faults; front = w.front_faults; say = w.say_faults }; hidden = secrets w.playback.left.script; left = w.playback.left } };
}

impl ScriptWorld {
    /// Nothing of the script is played. It takes no memory.
    pub fn new(alloc: Global, script: Script) -> ScriptWorld
        ensures { result ≡ begun script }
    {
        ScriptWorld {
            playback: Playback::new(alloc, script),
            link_faults: 0,
            keep_faults: 0,
            front_faults: 0,
            say_faults: 0,
        }
    }

    /// The events so far, where they are told.
    pub fn events(&self) -> Option<&[Event]>
        ensures told { IfSome result (λ events. self.now.tape ≡ Some events.now) }
        ensures stopped { IsNone result → self.now.tape ≡ None }
    {
        self.playback.tape.events()
    }

    /// The batches that are kept, in the order in which they were appended. It takes no memory.
    pub fn held(&self) -> &[Bytes]
        ensures { result.now ≡ held self.now.left }
    {
        self.playback.left.held()
    }
}

impl ScriptWorld {
    // The link life has ended: the fault is counted and told.
    fn link_fails(&mut self) -> Failed
        ensures tape { AddsOne self.old.tape self.new.tape LinkEnded }
        ensures alone { LinkAlone self.old.faults self.new.faults }
        ensures cause { Rose self.old.faults.link self.new.faults.link }
        ensures hidden { self.new.hidden ≡ self.old.hidden }
        ensures left { self.new.left ≡ ended self.old.left }
    {
        self.link_faults = self.link_faults.saturating_add(1);
        self.playback.end_link();
        Failed
    }

    // The fault is counted and told.
    fn load_fails(&mut self) -> KeepError
        ensures error { result ≡ keeping.Failed }
        ensures tape { AddsOne self.old.tape self.new.tape LoadFailed }
        ensures alone { KeepAlone self.old.faults self.new.faults }
        ensures cause { Rose self.old.faults.keep self.new.faults.keep }
        ensures hidden { self.new.hidden ≡ self.old.hidden }
        ensures left { self.new.left ≡ self.old.left }
    {
        self.keep_faults = self.keep_faults.saturating_add(1);
        self.playback.tape.add(Event::LoadFailed);
        KeepError::Failed
    }

    // The fault is counted and told, and the batch is kept or not.
    fn append_fails(&mut self, batch: &[u8], kept: bool) -> Failed
        ensures tape { AddsOne self.old.tape self.new.tape (KeepFailed batch.now) }
        ensures alone { KeepAlone self.old.faults self.new.faults }
        ensures cause { Rose self.old.faults.keep self.new.faults.keep }
        ensures hidden { self.new.hidden ≡ self.old.hidden }
        ensures left { KeepsWhere kept batch.now self.old.left self.new.left self.new.tape }
    {
        self.keep_faults = self.keep_faults.saturating_add(1);
        self.playback.fail_to_keep(batch, kept);
        Failed
    }

    // The fault is counted and told.
    fn front_fails(&mut self) -> Failed
        ensures tape { AddsOne self.old.tape self.new.tape FrontFailed }
        ensures alone { FrontAlone self.old.faults self.new.faults }
        ensures cause { Rose self.old.faults.front self.new.faults.front }
        ensures hidden { self.new.hidden ≡ self.old.hidden }
        ensures left { self.new.left ≡ self.old.left }
    {
        self.front_faults = self.front_faults.saturating_add(1);
        self.playback.tape.add(Event::FrontFailed);
        Failed
    }

    // The fault is counted and told.
    fn say_fails(&mut self) -> Failed
        ensures tape { AddsOne self.old.tape self.new.tape SayFailed }
        ensures alone { SayAlone self.old.faults self.new.faults }
        ensures cause { Rose self.old.faults.say self.new.faults.say }
        ensures hidden { self.new.hidden ≡ self.old.hidden }
        ensures left { self.new.left ≡ self.old.left }
    {
        self.say_faults = self.say_faults.saturating_add(1);
        self.playback.tape.add(Event::SayFailed);
        Failed
    }
}

impl Taped for ScriptWorld {
    ghost tape = { λ s. s.tape };

    ghost faults = { λ s. s.faults };

    ghost hidden = { λ s. s.hidden };
}

impl Link for ScriptWorld {
    fn dial(&mut self) -> Result<(), Failed>
        ensures ok { OnOk result (AddsOne self.old.tape self.new.tape Dialed) }
        ensures err { OnErr result (AddsOne self.old.tape self.new.tape LinkEnded) }
        ensures alone { LinkAlone self.old.faults self.new.faults }
        ensures cause { OnErr result (Rose self.old.faults.link self.new.faults.link) }
        ensures hidden { self.new.hidden ≡ self.old.hidden }
        ensures plays { DialPlays self.old.left self.new.left result }
    {
        if self.playback.left.count_call() {
            return Err(self.link_fails());
        }
        self.playback.dial();
        Ok(())
    }

    fn read(&mut self, into: &mut [u8]) -> Result<usize, Failed>
        requires { 0 < length into.old }
        ensures bound { IfOk result (λ n. (0 < n) × (n ≤ length into.new)) }
        ensures ok { IfOk result (λ n. AddsOne self.old.tape self.new.tape (StoreGave (take n into.new))) }
        ensures err { OnErr result (AddsOne self.old.tape self.new.tape LinkEnded) }
        ensures alone { LinkAlone self.old.faults self.new.faults }
        ensures cause { OnErr result (Rose self.old.faults.link self.new.faults.link) }
        ensures hidden { self.new.hidden ≡ self.old.hidden }
        ensures plays { ReadPlays into.new self.old.left self.new.left result }
    {
        if self.playback.left.count_call() {
            return Err(self.link_fails());
        }
        let count = self.playback.left.read(into);
        if count == 0 {
            return Err(self.link_fails());
        }
        self.playback.tell_store_gave(&into[..count]);
        Ok(count)
    }

    fn write(&mut self, from: &[u8]) -> Result<usize, Failed>
        requires { 0 < length from.now }
        ensures bound { IfOk result (λ n. (0 < n) × (n ≤ length from.now)) }
        ensures ok { IfOk result (λ n. AddsOne self.old.tape self.new.tape (StoreTook (take n from.now))) }
        ensures err { OnErr result (AddsOne self.old.tape self.new.tape LinkEnded) }
        ensures alone { LinkAlone self.old.faults self.new.faults }
        ensures cause { OnErr result (Rose self.old.faults.link self.new.faults.link) }
        ensures hidden { self.new.hidden ≡ self.old.hidden }
        ensures plays { WritePlays from.now self.old.left self.new.left result }
    {
        if self.playback.left.count_call() {
            return Err(self.link_fails());
        }
        if !self.playback.left.is_linked() {
            return Err(self.link_fails());
        }
        self.playback.write(from);
        Ok(from.len())
    }

    fn hang_up(&mut self)
        ensures tape { AddsOne self.old.tape self.new.tape LinkEnded }
        ensures cause { NoFault self.old.faults self.new.faults }
        ensures hidden { self.new.hidden ≡ self.old.hidden }
        ensures plays { self.new.left ≡ ended self.old.left }
    {
        self.playback.end_link();
    }
}

impl Keeper for ScriptWorld {
    fn load(&mut self) -> Result<Vec<Bytes>, KeepError>
        ensures ok { IfOk result (λ batches. AddsOne self.old.tape self.new.tape (Loaded batches.items)) }
        ensures failed { result ≡ Err keeping.Failed → AddsOne self.old.tape self.new.tape LoadFailed }
        ensures memory { result ≡ Err keeping.Memory → Adds self.old.tape self.new.tape (Just []) × NoFault self.old.faults self.new.faults }
        ensures alone { KeepAlone self.old.faults self.new.faults }
        ensures cause { result ≡ Err keeping.Failed → Rose self.old.faults.keep self.new.faults.keep }
        ensures hidden { self.new.hidden ≡ self.old.hidden }
        ensures plays { LoadPlays self.old.left self.new.left result }
    {
        if self.playback.left.count_call() {
            return Err(self.load_fails());
        }
        let Ok(batches) = self.playback.load() else {
            return Err(KeepError::Memory);
        };
        Ok(batches)
    }

    fn append(&mut self, batch: &[u8]) -> Result<(), Failed>
        ensures ok { OnOk result (AddsOne self.old.tape self.new.tape (Kept batch.now)) }
        ensures err { OnErr result (AddsOne self.old.tape self.new.tape (KeepFailed batch.now)) }
        ensures alone { KeepAlone self.old.faults self.new.faults }
        ensures cause { OnErr result (Rose self.old.faults.keep self.new.faults.keep) }
        ensures hidden { self.new.hidden ≡ self.old.hidden }
        ensures plays { AppendPlays batch.now self.old.left self.new.left self.new.tape result }
    {
        let kept = self.playback.left.is_next_kept();
        if self.playback.left.count_call() {
            return Err(self.append_fails(batch, kept));
        }
        let _ = self.playback.keep(batch);
        Ok(())
    }
}

impl Front for ScriptWorld {
    fn accept(&mut self) -> Result<bool, Failed>
        ensures ok { IfOk result (λ more. AddsOne self.old.tape self.new.tape (if more then Accepted else NoMore)) }
        ensures err { OnErr result (AddsOne self.old.tape self.new.tape FrontFailed) }
        ensures alone { FrontAlone self.old.faults self.new.faults }
        ensures cause { OnErr result (Rose self.old.faults.front self.new.faults.front) }
        ensures hidden { self.new.hidden ≡ self.old.hidden }
        ensures plays { AcceptPlays self.old.left self.new.left result }
    {
        if self.playback.left.count_call() {
            return Err(self.front_fails());
        }
        Ok(self.playback.accept())
    }

    fn recv(&mut self, into: &mut [u8]) -> Result<usize, Failed>
        requires { 0 < length into.old }
        ensures bound { IfOk result (λ n. n ≤ length into.new) }
        ensures ok { IfOk result (λ n. AddsOne self.old.tape self.new.tape (given (take n into.new))) }
        ensures err { OnErr result (AddsOne self.old.tape self.new.tape FrontFailed) }
        ensures alone { FrontAlone self.old.faults self.new.faults }
        ensures cause { OnErr result (Rose self.old.faults.front self.new.faults.front) }
        ensures hidden { self.new.hidden ≡ self.old.hidden }
        ensures plays { RecvPlays into.new self.old.left self.new.left result }
    {
        if self.playback.left.count_call() {
            return Err(self.front_fails());
        }
        Ok(self.playback.recv(into))
    }

    fn send(&mut self, from: &[u8]) -> Result<usize, Failed>
        requires { 0 < length from.now }
        ensures bound { IfOk result (λ n. (0 < n) × (n ≤ length from.now)) }
        ensures ok { IfOk result (λ n. AddsOne self.old.tape self.new.tape (ClientTook (take n from.now))) }
        ensures err { OnErr result (AddsOne self.old.tape self.new.tape FrontFailed) }
        ensures alone { FrontAlone self.old.faults self.new.faults }
        ensures cause { OnErr result (Rose self.old.faults.front self.new.faults.front) }
        ensures hidden { self.new.hidden ≡ self.old.hidden }
        ensures plays { SendPlays from.now self.old.left self.new.left result }
    {
        if self.playback.left.count_call() {
            return Err(self.front_fails());
        }
        self.playback.send(from);
        Ok(from.len())
    }

    fn finish(&mut self)
        ensures tape { AddsOne self.old.tape self.new.tape ClientDone }
        ensures cause { NoFault self.old.faults self.new.faults }
        ensures hidden { self.new.hidden ≡ self.old.hidden }
        ensures plays { self.new.left ≡ self.old.left }
    {
        self.playback.finish();
    }
}

impl Clock for ScriptWorld {
    fn now(&mut self) -> i64
        ensures tape { AddsOne self.old.tape self.new.tape (Clock result) }
        ensures cause { NoFault self.old.faults self.new.faults }
        ensures hidden { self.new.hidden ≡ self.old.hidden }
        ensures moment { result ≡ next_moment self.old.left.script.moments }
        ensures plays { self.new.left ≡ asked_clock self.old.left }
    {
        self.playback.now()
    }
}

impl Chance for ScriptWorld {
    fn word(&mut self) -> u64
        ensures tape { AddsOne self.old.tape self.new.tape (Word result) }
        ensures cause { NoFault self.old.faults self.new.faults }
        ensures hidden { self.new.hidden ≡ self.old.hidden }
        ensures word { result ≡ next_word self.old.left.script.words }
        ensures plays { self.new.left ≡ drawn self.old.left }
    {
        self.playback.word()
    }
}

impl Console for ScriptWorld {
    fn say(&mut self, text: &[u8]) -> Result<(), Failed>
        ensures ok { OnOk result (AddsOne self.old.tape self.new.tape (Said text.now)) }
        ensures err { OnErr result (AddsOne self.old.tape self.new.tape SayFailed) }
        ensures alone { SayAlone self.old.faults self.new.faults }
        ensures cause { OnErr result (Rose self.old.faults.say self.new.faults.say) }
        ensures hidden { self.new.hidden ≡ self.old.hidden }
        ensures plays { SayPlays self.old.left self.new.left result }
    {
        if self.playback.left.count_call() {
            return Err(self.say_fails());
        }
        self.playback.say(text);
        Ok(())
    }
}

impl Secrets for ScriptWorld {
    fn password(&self) -> &[u8] {
        self.playback.left.script.password.as_slice()
    }

    fn token(&self) -> &[u8] {
        self.playback.left.script.token.as_slice()
    }
}

impl World for ScriptWorld {}
