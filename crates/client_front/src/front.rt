// The front: one client is served at a time, the others wait.
ghost use Rattle.std.specs.Prelude.{◌≡◌, ◌<◌, ◌≤◌, length, take, IsNone, IfNone, IfOk, IfSome, OnSome};
ghost use Rattle.client_front.specs.Accepting.{HandsOnFirst, HandsOnNobody, nobody_yet, state, world};
ghost use Rattle.client_front.specs.Finishing.{ClosesServed, Ends, Finishes};
ghost use Rattle.client_front.specs.Served.{AcceptsAt, AcceptsNothingAt, with_kept};
ghost use Rattle.client_front.specs.Handing.{BothSo, IfServed, NoneOrBothSo, ReceivesInTime, ReceivesNothing};

use crate::acceptor::Acceptor;
use crate::clock::Ticks;
use crate::serving::{Serving, close_served};
use crate::sockets::ClientListener;
use std::alloc::{AllocError, Global};

/// Clients of a listener. One is served at a time.
#[derive(Drop)]
pub struct ClientFront<L: ClientListener + Drop, C: Ticks + Drop> {
    acceptor: Acceptor<L, C, L::Stream>,
    current: Option<Serving<L::Stream>>,
}

impl<L: ClientListener + Drop, C: Ticks + Drop> ClientFront<L, C> {
    /// A front that has accepted nobody. No memory is asked for later.
    pub fn new(alloc: Global, listener: L, clock: C) -> Result<ClientFront<L, C>, AllocError>
        ensures { IfOk result (λ front. (state front.acceptor ≡ nobody_yet listener clock) × IsNone front.current) }
    {
        let acceptor = Acceptor::new(alloc, listener, clock)?;
        Ok(ClientFront {
            acceptor,
            current: None,
        })
    }

    /// Waits for the next client whose head is whole, and hands it on: the first that was seen to have a whole head. What was served
    /// before is closed. None where the listener or the clock failed.
    pub fn accept(&mut self) -> Option<()>
        ensures handed { OnSome result (IfServed (HandsOnFirst (world L.Stream.shows L.Stream.closes L.Stream.gives L.Stream.takes L.Stream.ends C.reads L.waits L.comes) (state self.old.acceptor) (state self.new.acceptor)) self.new.current) }
        ensures nobody { IfNone result (HandsOnNobody (world L.Stream.shows L.Stream.closes L.Stream.gives L.Stream.takes L.Stream.ends C.reads L.waits L.comes) (state self.old.acceptor) (state self.new.acceptor)) }
        ensures none { IfNone result (IsNone self.new.current) }
        ensures closed { ClosesServed L.Stream.closes self.old.current }
    {
        close_served(self.current.take());
        self.current = Some(self.acceptor.next()?);
        Some(())
    }

    /// Octets of the client that is served: how many, and 0 where it ended its input. None where its request is late, none came in
    /// the time that was left, the clock failed, or none is served.
    pub fn recv(&mut self, into: &mut [u8]) -> Option<usize>
        ensures bound { IfSome result (λ n. n ≤ length into.new) }
        ensures in_time { IfSome result (λ n. BothSo (ReceivesInTime L.Stream.receives C.reads (length into.old) (take n into.new) self.old.acceptor.clock self.new.acceptor.clock) self.old.current self.new.current) }
        ensures nothing { IfNone result (NoneOrBothSo (ReceivesNothing L.Stream.receives C.reads (length into.old) self.old.acceptor.clock self.new.acceptor.clock) self.old.current self.new.current) }
        ensures waiting { self.new.acceptor ≡ record self.old.acceptor { clock = self.new.acceptor.clock } }
    {
        match &mut self.current {
            Some(serving) => serving.receive(&mut self.acceptor.clock, into),
            None => None,
        }
    }

    /// Gives the client that is served some of the octets, from their front, or keeps some, which it takes while others are served: how
    /// many. Where none may be kept it is waited for. None where it is late in taking them, it took none in the time that was left, the
    /// stream or the clock failed, or none is served: what is kept for it is dropped then, so that nothing more is to be sent to it.
    pub fn send(&mut self, from: &[u8]) -> Option<usize>
        ensures bound { IfSome result (λ n. (0 < n) × (n ≤ length from.now)) }
        ensures accepts { IfSome result (λ n. BothSo (AcceptsAt L.Stream.takes L.Stream.sends C.reads from.now n (state self.old.acceptor) (state self.new.acceptor)) self.old.current self.new.current) }
        ensures nothing { IfNone result (NoneOrBothSo (AcceptsNothingAt L.Stream.takes L.Stream.sends C.reads from.now (state self.old.acceptor) (state self.new.acceptor)) self.old.current self.new.current) }
        ensures same { state self.new.acceptor ≡ with_kept (state self.new.acceptor).clock (state self.new.acceptor).leaving.kept (state self.old.acceptor) }
        ensures unserved { IsNone self.old.current → state self.new.acceptor ≡ state self.old.acceptor }
    {
        let keeps = self.acceptor.leaving.has_place();
        match &mut self.current {
            Some(serving) => serving.send(
                &mut self.acceptor.leaving.served,
                &mut self.acceptor.clock,
                from,
                keeps,
            ),
            None => None,
        }
    }

    /// Ends the response to the client that is served, and closes it, or leaves it open: until it has taken what is kept of it, and then
    /// for a short time where it has not ended what it sends. It does not wait.
    pub fn finish(&mut self)
        ensures finishes { Finishes L.Stream.ends L.Stream.closes L.Stream.gives C.reads self.old.current (state self.old.acceptor) (state self.new.acceptor) }
        ensures none { IsNone self.new.current }
    {
        if let Some(serving) = self.current.take() {
            self.acceptor.leave(serving);
        }
    }

    /// Closes the client that is served, and waits until none is open whose response has ended: each has taken all of it and ended what it
    /// sends, or its time is over. For the end of a program, which would close them.
    pub fn end(&mut self)
        ensures ends { Ends (world L.Stream.shows L.Stream.closes L.Stream.gives L.Stream.takes L.Stream.ends C.reads L.waits L.comes) (state self.old.acceptor) (state self.new.acceptor) }
        ensures none { IsNone self.new.current }
        ensures closed { ClosesServed L.Stream.closes self.old.current }
    {
        close_served(self.current.take());
        self.acceptor.end();
    }
}
