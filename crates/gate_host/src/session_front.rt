// Clients of a listener that are given before they have sent anything.
ghost use Rattle.std.specs.Prelude.{◌≡◌, ◌<◌, ◌≤◌, length, take, None, IsSome, IsNone, IsErr, is_some, IfOk, OnOk, OnErr};
ghost use Rattle.std.specs.Io.KnownBytes.{ReadConsumes, WriteAppends};
ghost use Rattle.gate_host.specs.Faults.{one_more};
ghost use Rattle.gate_host.specs.Sessions.{ClosedBy, GivenBy};
ghost use Rattle.gate_host.specs.Streams.{known_of};

use crate::faults::raised;
use crate::streams::write_some;
use crate::{Clients, SessionListener};
use client_front::read_once;
use gate_world::Failed;

/// How many seconds a read of a client may wait: half an hour, the least time after which a session may be ended whose client
/// is silent (RFC 9051 section 5.4).
pub const SESSION_READ_SECONDS: u64 = 1_800;

/// How many seconds a write to a client may wait.
pub const SESSION_WRITE_SECONDS: u64 = 60;

/// The clients of a listener, one after another, each from when it has come: it may wait to be sent something first. Where there
/// is no listening at the address that was asked for, each call fails.
#[derive(Drop)]
pub struct SessionFront<L: SessionListener + Drop> {
    /// The listener, where there is one.
    pub listener: Option<L>,
    /// The stream of the client that is served, where one is.
    pub current: Option<L::Stream>,
    /// How often a call has failed; the last number stays.
    pub faults: u64,
}

impl<L: SessionListener + Drop> SessionFront<L> {
    /// A front that has accepted nobody.
    pub fn new(listener: Option<L>) -> SessionFront<L>
        ensures { result ≡ record { listener = listener; current = None; faults = 0 } }
    {
        SessionFront {
            listener,
            current: None,
            faults: 0,
        }
    }

    fn fail(&mut self) -> Failed
        ensures same { self.new ≡ record self.old { faults = one_more self.old.faults } }
        ensures later { self.old.faults ≤ self.new.faults }
    {
        self.faults = raised(self.faults);
        Failed
    }

    /// Closes the client that there may be, and waits for the next one.
    pub fn next_client(&mut self) -> Result<(), Failed>
        ensures closed { ClosedBy L.closes self.old.listener self.old.current }
        ensures given { GivenBy (λ listener. L.accepts listener SESSION_READ_SECONDS SESSION_WRITE_SECONDS) self.old.listener self.new.current }
        ensures ok { OnOk result (IsSome self.new.current) }
        ensures same { OnOk result (self.new ≡ record self.old { current = self.new.current }) }
        ensures err { OnErr result (self.new ≡ record self.old { current = None; faults = one_more self.old.faults }) }
        ensures later { self.old.faults ≤ self.new.faults }
    {
        self.close_client();
        self.current = match &self.listener {
            None => None,
            Some(listener) => listener.accept(SESSION_READ_SECONDS, SESSION_WRITE_SECONDS),
        };
        if self.current.is_none() {
            return Err(self.fail());
        }
        Ok(())
    }

    /// What the client gives next. It is 0 where its input ended. Where no client is served it fails.
    pub fn receive(&mut self, into: &mut [u8]) -> Result<usize, Failed>
        ensures bound { IfOk result (λ n. n ≤ length into.new) }
        ensures octets { ReadConsumes (known_of L.Stream.remaining self.old.current) (known_of L.Stream.remaining self.new.current) result into.new }
        ensures stays { is_some self.new.current ≡ is_some self.old.current }
        ensures nobody { IsNone self.old.current → IsErr result }
        ensures ok { OnOk result (self.new ≡ record self.old { current = self.new.current }) }
        ensures err { OnErr result (self.new ≡ record self.old { current = self.new.current; faults = one_more self.old.faults }) }
        ensures later { self.old.faults ≤ self.new.faults }
    {
        let got = match &mut self.current {
            None => None,
            Some(stream) => read_once(stream, into).ok(),
        };
        match got {
            Some(count) => Ok(count),
            None => Err(self.fail()),
        }
    }

    /// Gives the client some of the octets, from their front. Where it fails, none of them; it does where no client is served.
    pub fn give(&mut self, from: &[u8]) -> Result<usize, Failed>
        ensures bound { IfOk result (λ n. (0 < n) × (n ≤ length from.now)) }
        ensures octets { WriteAppends (known_of L.Stream.contents self.old.current) (known_of L.Stream.contents self.new.current) result from.now }
        ensures stays { is_some self.new.current ≡ is_some self.old.current }
        ensures nobody { IsNone self.old.current → IsErr result }
        ensures ok { OnOk result (self.new ≡ record self.old { current = self.new.current }) }
        ensures err { OnErr result (self.new ≡ record self.old { current = self.new.current; faults = one_more self.old.faults }) }
        ensures later { self.old.faults ≤ self.new.faults }
    {
        let taken = match &mut self.current {
            None => None,
            Some(stream) => write_some(stream, from),
        };
        match taken {
            Some(count) => Ok(count),
            None => Err(self.fail()),
        }
    }

    /// Closes the client that is served, where one is.
    pub fn close_client(&mut self)
        ensures closed { ClosedBy L.closes self.old.listener self.old.current }
        ensures same { self.new ≡ record self.old { current = None } }
    {
        let current = self.current.take();
        if let Some(stream) = current {
            if let Some(listener) = &self.listener {
                listener.close(stream);
            }
        }
    }
}

impl<L: SessionListener + Drop> Clients for SessionFront<L> {
    ghost use Rattle.std.specs.Prelude.{◌≡◌, None, true, IsSome, MatchResult, take};
    ghost use Rattle.std.specs.Io.KnownBytes.{Appends, Consumes};
    ghost use Rattle.gate_host.specs.Faults.{one_more};
    ghost use Rattle.gate_host.specs.Sessions.{ClosedBy, GivenBy};
    ghost use Rattle.gate_host.specs.Streams.{known_of};
    ghost use Rattle.gate_host.specs.declared.session_front.TheConstants.{SESSION_READ_SECONDS, SESSION_WRITE_SECONDS};

    ghost client_faults = { λ f. f.faults };

    // A read of a stream may change what is known of its writes, and the other way round.
    ghost gives = { λ _. None };

    ghost takes = { λ _. None };

    ghost accepts = { λ old result new.
        ClosedBy L.closes old.listener old.current
        × GivenBy (λ listener. L.accepts listener SESSION_READ_SECONDS SESSION_WRITE_SECONDS) old.listener new.current
        × MatchResult result
        (λ came. (came ≡ true) × IsSome new.current × (new ≡ record old { current = new.current }))
        (λ _. new ≡ record old { current = None; faults = one_more old.faults }) };

    ghost receives = { λ old room octets new.
        Consumes (known_of L.Stream.remaining old.current) (known_of L.Stream.remaining new.current) octets
        × IsSome new.current × (new ≡ record old { current = new.current }) };

    ghost sends = { λ old from count new.
        Appends (known_of L.Stream.contents old.current) (known_of L.Stream.contents new.current) (take count from)
        × IsSome new.current × (new ≡ record old { current = new.current }) };

    ghost receives_nothing = { λ old room new. new ≡ record old { current = new.current; faults = one_more old.faults } };

    ghost sends_nothing = { λ old from new. new ≡ record old { current = new.current; faults = one_more old.faults } };

    ghost ends = { λ old new. new ≡ old };

    ghost finishes = { λ old new. ClosedBy L.closes old.listener old.current × (new ≡ record old { current = None }) };

    fn accept(&mut self) -> Result<bool, Failed> {
        match self.next_client() {
            Ok(()) => Ok(true),
            Err(failed) => Err(failed),
        }
    }

    fn recv(&mut self, into: &mut [u8]) -> Result<usize, Failed> {
        self.receive(into)
    }

    fn send(&mut self, from: &[u8]) -> Result<usize, Failed> {
        self.give(from)
    }

    fn finish(&mut self) {
        self.close_client();
    }

    fn end(&mut self) {}
}
