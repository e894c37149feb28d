// A world in memory with a store behind its link.
ghost use Rattle.std.specs.Prelude.{◌≡◌, ◌<◌, ◌≤◌, ◌++◌, List, ℕ, [], Err, IfOk, IsOk, MatchOption, None, OnErr, OnOk, Some, length, take, if◌then◌else◌};
ghost use Rattle.std.specs.Borrow.{sem};
ghost use Rattle.gate_world.specs.Causes.{KeepAlone, LinkAlone, Rose};
ghost use Rattle.gate_world.specs.declared.event.Event.TheVariants.{Accepted, ClientDone, ClientTook, KeepFailed, Kept, Loaded, NoMore};
ghost use Rattle.gate_world.specs.declared.event.Event.TheVariants.{Clock, Dialed, LinkEnded, Said, StoreGave, StoreTook, Word};
ghost use Rattle.gate_world.specs.declared.outside.KeepError.TheVariants as keeping;
ghost use Rattle.gate_world.specs.Pieces.{Gives, octets_of};
ghost use Rattle.gate_world.specs.Read.{given};
ghost use Rattle.gate_world.specs.Tape.{Adds, AddsOne, Just};
ghost use Rattle.honest_store.specs.Sessions.{StoreSession};
ghost use Rattle.scripted_world.specs.Script.{next_moment, next_word};
ghost use Rattle.store_world.specs.Lending.{LendsStore};
ghost use Rattle.store_world.specs.Replies.{AnswersSome, Replies};
ghost use Rattle.store_world.specs.StoreBehindLink.{Accepts, Appends, IsButForLink, IsButForTape, Loads, Reads, Sends, Writes};
ghost use Rattle.store_world.specs.StoreBehindLink.{asked_clock, begun, broken, dialed, drawn, faults_of, held, hung_up, read_on, received_on, replied, sent_of, with_client};

use crate::octet_queue::OctetQueue;
use crate::ready::Ready;
use crate::replies::reply;
use crate::sent::Sent;
use gate_world::{
    Chance, Clock, Console, Failed, Front, KeepError, Keeper, Link, Secrets, Taped, World,
};
use octets::{Bytes, Listed};
use scripted_world::{Script, SteadyWorld};
use small_store::StoreMachine;
use std::alloc::{AllocError, Global};
use std::marker::Model;
use store_sessions::CommandStore;

/// The password of the store, and the token of a client.
const DRILL: &[u8] = b"drill";

/// A world in memory, whose clients are those that it is given, whose moments and random words are 0, and whose password and token are `drill`. Behind
/// its link is a store, which answers what is written. The link fails where memory is wanting for that, the keeper where it is wanting for a batch
/// that is appended, and no other call does.
#[derive(Drop)]
pub struct StoreWorld {
    alloc: Global,
    steady: SteadyWorld,
    store: StoreMachine,
    unread: OctetQueue,
    ready: Ready,
    link_faults: u64,
    keep_faults: u64,
    sent: Sent,
}

impl Model for StoreWorld {
    ghost use Rattle.store_world.specs.StoreBehindLink.{StoreBehindLink};

    ghost Value = { StoreBehindLink };

    ghost view = { λ w. record { steady = w.steady; session = w.store; unread = w.unread; ready = w.ready; link_faults = w.link_faults; keep_faults = w.keep_faults; sent = w.sent } };
}

impl StoreWorld {
    /// No call is made yet. Its store has INBOX and Archive, both empty.
    pub fn new(alloc: Global, clients: Vec<Bytes>) -> Result<StoreWorld, AllocError>
        ensures { IfOk result (λ w. w ≡ begun clients.items) }
    {
        let mut script = Script::new(alloc)?.with_secrets(DRILL, DRILL)?;
        script.clients = Listed::from_vec(clients);
        Ok(StoreWorld {
            alloc,
            steady: SteadyWorld::new(alloc, script),
            store: StoreMachine::new(alloc)?,
            unread: OctetQueue::new(alloc),
            ready: Ready::new(alloc),
            link_faults: 0,
            keep_faults: 0,
            sent: Sent::new(alloc),
        })
    }

    /// The store, as its owner has it.
    pub fn store(&mut self) -> &mut StoreMachine
        ensures* stands { sem 𝓛 (LendsStore self.entry result) }
        ensures session { result.now ≡ self.old.session }
    {
        &mut self.store
    }

    /// One client more for `accept`, after the others. A refusal changes nothing.
    pub fn add_client(&mut self, octets: Bytes) -> Result<(), AllocError>
        ensures ok { OnOk result (self.new ≡ with_client self.old octets) }
        ensures err { OnErr result (self.new ≡ self.old) }
    {
        self.steady.add_client(octets)
    }

    /// The batches that are kept, in the order in which they were appended. It takes no memory.
    pub fn held(&self) -> &[Bytes]
        ensures { result.now ≡ held self.now }
    {
        self.steady.held()
    }

    /// The octets that the last accepted client took. None once memory was wanting for such octets, for an event or for an answer. It takes
    /// no memory.
    pub fn sent(&self) -> Option<&[u8]>
        ensures { MatchOption result (sent_of self.now ≡ None) (λ octets. sent_of self.now ≡ Some octets.now) }
    {
        match self.steady.events() {
            None => None,
            Some(_) => self.sent.octets(),
        }
    }
}

impl StoreWorld {
    // The store takes the octets, and replies to the commands that have come.
    fn take(&mut self, octets: &[u8]) -> Result<(), AllocError>
        ensures ok { OnOk result ((told : List ℕ) × (rest : List ℕ) × (session : StoreSession)
            × Replies self.old.session (self.old.unread ++ octets.now) told session rest
            × (self.new ≡ replied told session rest self.old)) }
        ensures err { OnErr result (AnswersSome self.old.session (self.old.unread ++ octets.now) self.new.session × IsButForLink self.new self.old) }
    {
        self.unread.add(octets)?;
        self.store.is_tellable();
        reply(
            self.alloc,
            &mut self.store,
            &mut self.unread,
            &mut self.ready,
        )
    }

    // The link life ends for want of memory.
    fn break_off(&mut self) -> Failed
        ensures tape { AddsOne self.old.steady.tape self.new.steady.tape LinkEnded }
        ensures more { self.old.link_faults ≤ self.new.link_faults }
        ensures plays { IsButForTape self.new (broken self.old.session self.old) }
    {
        self.steady.hang_up();
        self.unread.clear();
        self.ready.clear();
        self.link_faults = self.link_faults.saturating_add(1);
        self.sent.stop();
        Failed
    }
}

impl Taped for StoreWorld {
    ghost tape = { λ s. s.steady.tape };

    ghost faults = { faults_of };

    ghost hidden = { λ s. s.steady.hidden };
}

impl Link for StoreWorld {
    fn dial(&mut self) -> Result<(), Failed>
        ensures never { IsOk result }
        ensures tape { AddsOne self.old.steady.tape self.new.steady.tape Dialed }
        ensures plays { IsButForTape self.new (dialed self.old) }
    {
        self.store.begin_session();
        self.unread.clear();
        self.ready.greet();
        self.steady.dial()
    }

    fn read(&mut self, into: &mut [u8]) -> Result<usize, Failed>
        requires { 0 < length into.old }
        ensures bound { IfOk result (λ n. (0 < n) × (n ≤ length into.new)) }
        ensures never { IsOk result }
        ensures tape { IfOk result (λ n. AddsOne self.old.steady.tape self.new.steady.tape (StoreGave (take n into.new))) }
        ensures gives { IfOk result (Reads self.old.ready into.new) }
        ensures plays { IfOk result (λ n. IsButForTape self.new (read_on n self.old)) }
    {
        let mut count = self.ready.give(into);
        if count == 0 {
            into.fill(0);
            count = into.len();
        }
        self.steady.tell_store_gave(&into[..count]);
        Ok(count)
    }

    fn write(&mut self, from: &[u8]) -> Result<usize, Failed>
        requires { 0 < length from.now }
        ensures all { IfOk result (λ n. n ≡ length from.now) }
        ensures ok { OnOk result (AddsOne self.old.steady.tape self.new.steady.tape (StoreTook from.now)) }
        ensures err { OnErr result (AddsOne self.old.steady.tape self.new.steady.tape LinkEnded) }
        ensures alone { LinkAlone (faults_of self.old) (faults_of self.new) }
        ensures cause { OnErr result (Rose self.old.link_faults self.new.link_faults) }
        ensures hidden { self.new.steady.hidden ≡ self.old.steady.hidden }
        ensures plays { Writes from.now self.old self.new result }
    {
        if !self.steady.is_linked() {
            return self.steady.write(from);
        }
        match self.take(from) {
            Ok(()) => self.steady.write(from),
            Err(_) => Err(self.break_off()),
        }
    }

    fn hang_up(&mut self)
        ensures tape { AddsOne self.old.steady.tape self.new.steady.tape LinkEnded }
        ensures plays { IsButForTape self.new (hung_up self.old) }
    {
        self.unread.clear();
        self.ready.clear();
        self.steady.hang_up();
    }
}

impl Keeper for StoreWorld {
    fn load(&mut self) -> Result<Vec<Bytes>, KeepError>
        ensures ok { IfOk result (λ batches. AddsOne self.old.steady.tape self.new.steady.tape (Loaded batches.items)) }
        ensures memory { result ≡ Err keeping.Memory → Adds self.old.steady.tape self.new.steady.tape (Just []) }
        ensures gives { Loads self.old result }
        ensures plays { IsButForTape self.new self.old }
    {
        self.steady.load()
    }

    fn append(&mut self, batch: &[u8]) -> Result<(), Failed>
        ensures ok { OnOk result (AddsOne self.old.steady.tape self.new.steady.tape (Kept batch.now)) }
        ensures err { OnErr result (AddsOne self.old.steady.tape self.new.steady.tape (KeepFailed batch.now)) }
        ensures alone { KeepAlone (faults_of self.old) (faults_of self.new) }
        ensures cause { OnErr result (Rose self.old.keep_faults self.new.keep_faults) }
        ensures hidden { self.new.steady.hidden ≡ self.old.steady.hidden }
        ensures plays { Appends batch.now self.old self.new result }
    {
        match self.steady.keep(batch) {
            Ok(()) => Ok(()),
            Err(_) => {
                self.keep_faults = self.keep_faults.saturating_add(1);
                Err(Failed)
            }
        }
    }
}

impl Front for StoreWorld {
    fn accept(&mut self) -> Result<bool, Failed>
        ensures never { IsOk result }
        ensures tape { IfOk result (λ more. AddsOne self.old.steady.tape self.new.steady.tape (if more then Accepted else NoMore)) }
        ensures plays { IfOk result (Accepts self.old self.new) }
    {
        let more = self.steady.accept()?;
        if more {
            self.sent.begin();
        }
        Ok(more)
    }

    fn recv(&mut self, into: &mut [u8]) -> Result<usize, Failed>
        requires { 0 < length into.old }
        ensures bound { IfOk result (λ n. n ≤ length into.new) }
        ensures never { IsOk result }
        ensures tape { IfOk result (λ n. AddsOne self.old.steady.tape self.new.steady.tape (given (take n into.new))) }
        ensures gives { IfOk result (Gives self.old.steady.left.script.piece (octets_of self.old.steady.left.client) into.new) }
        ensures plays { IfOk result (λ n. IsButForTape self.new (received_on n self.old)) }
    {
        self.steady.recv(into)
    }

    fn send(&mut self, from: &[u8]) -> Result<usize, Failed>
        requires { 0 < length from.now }
        ensures never { IsOk result }
        ensures all { IfOk result (λ n. n ≡ length from.now) }
        ensures tape { AddsOne self.old.steady.tape self.new.steady.tape (ClientTook from.now) }
        ensures plays { Sends from.now self.old self.new }
    {
        self.sent.add(from);
        self.steady.send(from)
    }

    fn finish(&mut self)
        ensures tape { AddsOne self.old.steady.tape self.new.steady.tape ClientDone }
        ensures plays { IsButForTape self.new self.old }
    {
        self.steady.finish();
    }
}

impl Clock for StoreWorld {
    fn now(&mut self) -> i64
        ensures tape { AddsOne self.old.steady.tape self.new.steady.tape (Clock result) }
        ensures moment { result ≡ next_moment self.old.steady.left.script.moments }
        ensures plays { IsButForTape self.new (asked_clock self.old) }
    {
        self.steady.now()
    }
}

impl Chance for StoreWorld {
    fn word(&mut self) -> u64
        ensures tape { AddsOne self.old.steady.tape self.new.steady.tape (Word result) }
        ensures word { result ≡ next_word self.old.steady.left.script.words }
        ensures plays { IsButForTape self.new (drawn self.old) }
    {
        self.steady.word()
    }
}

impl Console for StoreWorld {
    fn say(&mut self, text: &[u8]) -> Result<(), Failed>
        ensures never { IsOk result }
        ensures tape { AddsOne self.old.steady.tape self.new.steady.tape (Said text.now) }
        ensures plays { IsButForTape self.new self.old }
    {
        self.steady.say(text)
    }
}

impl Secrets for StoreWorld {
    fn password(&self) -> &[u8] {
        self.steady.password()
    }

    fn token(&self) -> &[u8] {
        self.steady.token()
    }
}

impl World for StoreWorld {}
