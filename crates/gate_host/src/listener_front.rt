// The clients of a listener.
ghost use Rattle.std.specs.Prelude.{◌≡◌, ◌≤◌, ◌<◌, None, Some, take, length, IsNone, IsErr, IfOk, OnOk, OnErr};
ghost use Rattle.client_front.specs.Accepting.{nobody_yet, state};
ghost use Rattle.client_front.specs.Handing.{NoneOrBothSo};
ghost use Rattle.gate_host.specs.Faults.{one_more};

use crate::Clients;
use crate::faults::raised;
use client_front::{ClientFront, ClientListener, Ticks};
use gate_world::Failed;
use std::alloc::{AllocError, Global};

/// The clients of a listener, or of none where there is no listening at the address that was asked for: then each call
/// fails.
#[derive(Drop)]
pub struct ListenerFront<L: ClientListener + Drop, C: Ticks + Drop> {
    /// The clients.
    pub clients: Option<ClientFront<L, C>>,
    /// How often a call has failed; the last number stays.
    pub faults: u64,
}

impl<L: ClientListener + Drop, C: Ticks + Drop> ListenerFront<L, C> {
    /// A front of the listener, where there is one, that has accepted nobody.
    pub fn new(
        alloc: Global,
        listener: Option<L>,
        clock: C,
    ) -> Result<ListenerFront<L, C>, AllocError>
        ensures clients { IfOk result (λ front. NoneOrBothSo (λ given clients. (state clients.acceptor ≡ nobody_yet given clock) × IsNone clients.current) listener front.clients) }
        ensures faults { IfOk result (λ front. front.faults ≡ 0) }
    {
        let clients = match listener {
            Some(listener) => Some(ClientFront::new(alloc, listener, clock)?),
            None => None,
        };
        Ok(ListenerFront { clients, faults: 0 })
    }

    fn fail(&mut self) -> Failed
        ensures same { self.new ≡ record self.old { faults = one_more self.old.faults } }
        ensures later { self.old.faults ≤ self.new.faults }
    {
        self.faults = raised(self.faults);
        Failed
    }
}

impl<L: ClientListener + Drop, C: Ticks + Drop> Clients for ListenerFront<L, C> {
    ghost client_faults = { λ f. f.faults };

    ghost gives = { λ _. None };

    ghost takes = { λ _. None };

    ghost use Rattle.std.specs.Prelude.{◌≡◌, true, IsNone, MatchResult};
    ghost use Rattle.client_front.specs.Accepting.{HandsOnFirst, HandsOnNobody, state, world};
    ghost use Rattle.client_front.specs.Finishing.{ClosesServed, Ends, Finishes};
    ghost use Rattle.client_front.specs.Handing.{BothSo, IfServed, NoneOrBothSo, ReceivesInTime, ReceivesNothing};
    ghost use Rattle.client_front.specs.Served.{AcceptsAt, AcceptsNothingAt, with_kept};

    // The client is the first that was seen to have a whole head; where none is given there is no listener, or it or the clock failed.
    ghost accepts = { λ old result new. MatchResult result
        (λ came. (came ≡ true) × BothSo (λ before after. IfServed (HandsOnFirst (world L.Stream.shows L.Stream.closes L.Stream.gives L.Stream.takes L.Stream.ends C.reads L.waits L.comes) (state before.acceptor) (state after.acceptor)) after.current × ClosesServed L.Stream.closes before.current) old.clients new.clients)
        (λ _. NoneOrBothSo (λ before after. HandsOnNobody (world L.Stream.shows L.Stream.closes L.Stream.gives L.Stream.takes L.Stream.ends C.reads L.waits L.comes) (state before.acceptor) (state after.acceptor) × IsNone after.current × ClosesServed L.Stream.closes before.current) old.clients new.clients) };

    // The octets are just those that came for the client that is served in time, or that it took, or that are kept for it. The listener and
    // those who wait stay as they are.
    ghost receives = { λ old room octets new. BothSo (λ before after. BothSo (ReceivesInTime L.Stream.receives C.reads room octets before.acceptor.clock after.acceptor.clock) before.current after.current × (after.acceptor ≡ record before.acceptor { clock = after.acceptor.clock })) old.clients new.clients };

    ghost sends = { λ old from count new. BothSo (λ before after. BothSo (AcceptsAt L.Stream.takes L.Stream.sends C.reads from count (state before.acceptor) (state after.acceptor)) before.current after.current × (state after.acceptor ≡ with_kept (state after.acceptor).clock (state after.acceptor).leaving.kept (state before.acceptor))) old.clients new.clients };

    ghost receives_nothing = { λ old room new. NoneOrBothSo (λ before after. NoneOrBothSo (ReceivesNothing L.Stream.receives C.reads room before.acceptor.clock after.acceptor.clock) before.current after.current × (after.acceptor ≡ record before.acceptor { clock = after.acceptor.clock })) old.clients new.clients };

    ghost sends_nothing = { λ old from new. NoneOrBothSo (λ before after. NoneOrBothSo (AcceptsNothingAt L.Stream.takes L.Stream.sends C.reads from (state before.acceptor) (state after.acceptor)) before.current after.current × (state after.acceptor ≡ with_kept (state after.acceptor).clock (state after.acceptor).leaving.kept (state before.acceptor)) × (IsNone before.current → state after.acceptor ≡ state before.acceptor)) old.clients new.clients };

    // Who waits, the listener and the next key stay as they are, and nobody is served.
    ghost finishes = { λ old new. NoneOrBothSo (λ before after. Finishes L.Stream.ends L.Stream.closes L.Stream.gives C.reads before.current (state before.acceptor) (state after.acceptor) × IsNone after.current) old.clients new.clients };

    // Clients are looked at until none is open whose response has ended, or the listener or the clock failed.
    ghost ends = { λ old new. NoneOrBothSo (λ before after. Ends (world L.Stream.shows L.Stream.closes L.Stream.gives L.Stream.takes L.Stream.ends C.reads L.waits L.comes) (state before.acceptor) (state after.acceptor) × IsNone after.current × ClosesServed L.Stream.closes before.current) old.clients new.clients };

    fn accept(&mut self) -> Result<bool, Failed> {
        let accepted = match &mut self.clients {
            Some(clients) => clients.accept(),
            None => None,
        };
        match accepted {
            Some(()) => Ok(true),
            None => Err(self.fail()),
        }
    }

    fn recv(&mut self, into: &mut [u8]) -> Result<usize, Failed> {
        let got = match &mut self.clients {
            Some(clients) => clients.recv(into),
            None => None,
        };
        match got {
            Some(count) => Ok(count),
            None => Err(self.fail()),
        }
    }

    fn send(&mut self, from: &[u8]) -> Result<usize, Failed> {
        let taken = match &mut self.clients {
            Some(clients) => clients.send(from),
            None => None,
        };
        match taken {
            Some(count) => Ok(count),
            None => Err(self.fail()),
        }
    }

    fn finish(&mut self) {
        if let Some(clients) = &mut self.clients {
            clients.finish();
        }
    }

    fn end(&mut self) {
        match &mut self.clients {
            Some(clients) => clients.end(),
            None => {}
        }
    }
}
