// How clients come, and which one is handed on.
ghost use Rattle.std.specs.Prelude.{◌≡◌, ◌≤◌, length, take, true, false, Some, None, [], IfNone, IfOk, IfSome, OnSome};
ghost use Rattle.client_front.specs.Accepting.{AllCome, Asked, HandsOn, HandsOnFirst, HandsOnNobody, IsHeld, LookFails, Looks, Spares, TurnFails, TurnsOnce, nobody_yet, state, world};
ghost use Rattle.client_front.specs.Finishing.{Ends, FinishesOne, LeavesAll, LeavesSome};
ghost use Rattle.client_front.specs.Waiting.{held};

use crate::clock::Ticks;
use crate::holding::is_never;
use crate::scan::Scan;
use crate::serving::Serving;
use crate::sockets::{ClientListener, Next, WAIT_KEYS};
use crate::waiting::{IDLE_MILLISECONDS, Idle, MAX_HELD_CLIENTS, Waiting};
use client_streams::{ClientStream, Leaving, MAX_STEP_MILLISECONDS};
use std::alloc::{AllocError, Global};

/// How many milliseconds a wait for clients takes at most: then those that are late are closed. All of it counts for those that take
/// what is left of their response.
const LOOK_AGAIN_MILLISECONDS: u64 = MAX_STEP_MILLISECONDS / 2;

/// How many clients whose head isn't whole are closed where one can't be accepted: so many descriptors are free then, for the next
/// clients and for what the process opens to serve them.
const SPARED_CLIENTS: usize = 16;

/// A listener, a clock, and the clients that came and aren't served.
#[derive(Drop)]
pub(crate) struct Acceptor<L: Drop, C: Drop, S: Drop> {
    pub(crate) listener: L,
    pub(crate) clock: C,
    /// What the next client is watched under.
    pub(crate) next_key: u64,
    pub(crate) waiting: Waiting<S>,
    pub(crate) leaving: Leaving<S>,
}

impl<L: ClientListener + Drop, C: Ticks + Drop> Acceptor<L, C, L::Stream> {
    /// Nobody has come, and there is room for all who may be held or open.
    pub(crate) fn new(
        alloc: Global,
        listener: L,
        clock: C,
    ) -> Result<Acceptor<L, C, L::Stream>, AllocError>
        ensures { IfOk result (λ acceptor. state acceptor ≡ nobody_yet listener clock) }
    {
        let waiting = Waiting::new(alloc)?;
        let leaving = Leaving::new(alloc)?;
        Ok(Acceptor {
            listener,
            clock,
            next_key: 0,
            waiting,
            leaving,
        })
    }

    /// Closes some of the clients whose head isn't whole, the oldest first.
    fn spare(&mut self)
        ensures { Spares (world L.Stream.shows L.Stream.closes L.Stream.gives L.Stream.takes L.Stream.ends C.reads L.waits L.comes) (state self.old) (state self.new) }
    {
        'spared: for spared in 0..SPARED_CLIENTS {
            if !self.waiting.make_room() {
                return;
            }
        }
    }

    /// Holds a client that is watched under the next key, where there is room for it.
    fn hold(&mut self, stream: L::Stream, now: u64)
        ensures { IsHeld (world L.Stream.shows L.Stream.closes L.Stream.gives L.Stream.takes L.Stream.ends C.reads L.waits L.comes) now stream (state self.old) (state self.new) }
    {
        let client = Idle {
            key: self.next_key,
            due: now.saturating_add(IDLE_MILLISECONDS),
            scan: Scan::new(),
            stream,
        };
        self.next_key = self.next_key.wrapping_add(1);
        self.waiting.admit(client);
    }

    /// Holds the clients that have come. Where one can't be accepted, others are closed, and the next wait comes before those that
    /// are left.
    fn admit_all(&mut self, now: u64)
        ensures { AllCome (world L.Stream.shows L.Stream.closes L.Stream.gives L.Stream.takes L.Stream.ends C.reads L.waits L.comes) now (state self.old) (state self.new) }
    {
        'clients: for came in 0..MAX_HELD_CLIENTS {
            match self.listener.next_client(self.next_key) {
                Next::Client(stream) => self.hold(stream, now),
                Next::Nobody => return,
                Next::Refused => {
                    self.spare();
                    return;
                }
            }
        }
    }

    /// Looks at the clients with these keys.
    fn ask_all(&mut self, keys: &[u64], now: u64)
        ensures asked { Asked L.Stream.shows L.Stream.closes now (held self.old.waiting) keys.now (held self.new.waiting) }
        ensures same { self.new ≡ record self.old { waiting = self.new.waiting } }
    {
        for key in keys {
            self.waiting.ask(*key, now);
        }
    }

    /// Waits for clients, holds those that have come, looks at those that have sent something, and closes those that are late; those
    /// whose response has ended go on.
    fn look(&mut self) -> Option<()>
        ensures looks { OnSome result (Looks (world L.Stream.shows L.Stream.closes L.Stream.gives L.Stream.takes L.Stream.ends C.reads L.waits L.comes) (state self.old) (state self.new)) }
        ensures fails { IfNone result (LookFails (world L.Stream.shows L.Stream.closes L.Stream.gives L.Stream.takes L.Stream.ends C.reads L.waits L.comes) (state self.old) (state self.new)) }
    {
        let mut room = [0u64; WAIT_KEYS];
        let count = self.listener.wait(LOOK_AGAIN_MILLISECONDS, &mut room)?;
        let now = self.clock.milliseconds()?;
        let (keys, _) = room.split_at(count);
        self.admit_all(now);
        self.ask_all(keys, now);
        self.waiting.expire(now);
        self.leaving.go_on(now);
        Some(())
    }

    /// Hands on the client that was seen first to have a whole head, or closes it where it failed; where there is none it looks at those who
    /// wait. Those whose response has ended go on at either. None where the listener or the clock fails.
    fn turn(&mut self) -> Option<Option<Serving<L::Stream>>>
        ensures turned { IfSome result (λ turn. IfNone turn (TurnsOnce (world L.Stream.shows L.Stream.closes L.Stream.gives L.Stream.takes L.Stream.ends C.reads L.waits L.comes) (state self.old) (state self.new))) }
        ensures handed { IfSome result (λ turn. IfSome turn (HandsOn (world L.Stream.shows L.Stream.closes L.Stream.gives L.Stream.takes L.Stream.ends C.reads L.waits L.comes) (state self.old) (state self.new))) }
        ensures fails { IfNone result (TurnFails (world L.Stream.shows L.Stream.closes L.Stream.gives L.Stream.takes L.Stream.ends C.reads L.waits L.comes) (state self.old) (state self.new)) }
    {
        let Some(stream) = self.waiting.next_asking() else {
            self.look()?;
            return Some(None);
        };
        let scan = Scan::new();
        let coming = scan.look(&stream);
        if is_never(coming) {
            stream.close();
            return Some(None);
        }
        let Some(now) = self.clock.milliseconds() else {
            stream.close();
            return None;
        };
        self.leaving.go_on(now);
        self.leaving.begin();
        let serving = Serving::new(stream, now);
        Some(Some(serving))
    }

    /// Leaves the client open that was served, for which some of its response is kept yet. It does not wait.
    fn leave_some(&mut self, serving: Serving<L::Stream>)
        ensures same { state self.new ≡ record (state self.old) { clock = (state self.new).clock; leaving = (state self.new).leaving } }
        ensures leaves { LeavesSome L.Stream.closes C.reads serving.stream (state self.old) (state self.new) }
    {
        match self.clock.milliseconds() {
            Some(now) => self.leaving.flush(serving.stream, now),
            None => serving.close(),
        }
    }

    /// Ends the response to a client for which nothing is kept. One that has not ended what it sends stays open for a short time. It does
    /// not wait.
    fn leave_all(&mut self, serving: Serving<L::Stream>)
        ensures same { state self.new ≡ record (state self.old) { clock = (state self.new).clock; leaving = (state self.new).leaving } }
        ensures leaves { LeavesAll L.Stream.ends L.Stream.closes L.Stream.gives C.reads serving.stream (state self.old) (state self.new) }
    {
        if let Some(client) = serving.finish(&mut self.clock) {
            self.leaving.linger(client);
        }
    }

    /// The response to the client that was served has ended. It does not wait.
    pub(crate) fn leave(&mut self, serving: Serving<L::Stream>)
        ensures { FinishesOne L.Stream.ends L.Stream.closes L.Stream.gives C.reads serving (state self.old) (state self.new) }
    {
        if self.leaving.served.is_empty() {
            self.leave_all(serving);
        } else {
            self.leave_some(serving);
        }
    }

    /// Waits for the next client whose head is whole: the first that was seen to have one. None where the listener or the clock failed.
    pub(crate) fn next(&mut self) -> Option<Serving<L::Stream>>
        ensures handed { IfSome result (HandsOnFirst (world L.Stream.shows L.Stream.closes L.Stream.gives L.Stream.takes L.Stream.ends C.reads L.waits L.comes) (state self.old) (state self.new)) }
        ensures nobody { IfNone result (HandsOnNobody (world L.Stream.shows L.Stream.closes L.Stream.gives L.Stream.takes L.Stream.ends C.reads L.waits L.comes) (state self.old) (state self.new)) }
    {
        'turns: for turn in 0..u64::MAX {
            let turned = self.turn()?;
            match turned {
                Some(serving) => return Some(serving),
                None => {}
            }
        }
        None
    }

    /// Looks at the clients until there is none whose response has ended, or the listener or the clock fails.
    pub(crate) fn end(&mut self)
        ensures { Ends (world L.Stream.shows L.Stream.closes L.Stream.gives L.Stream.takes L.Stream.ends C.reads L.waits L.comes) (state self.old) (state self.new) }
    {
        'looks: for looked in 0..u64::MAX {
            if self.leaving.is_over() {
                return;
            }
            let Some(()) = self.look() else {
                return;
            };
        }
    }
}
