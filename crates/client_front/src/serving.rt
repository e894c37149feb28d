// The client that is served.
ghost use Rattle.std.specs.Prelude.{◌≡◌, ◌<◌, ◌≤◌, [], length, take, true, IfSome, IfNone, OnSome};
ghost use Rattle.client_front.specs.Deadlines.{begun};
ghost use Rattle.client_front.specs.Finishing.{ClosesServed, EndsResponse, IsClosed};
ghost use Rattle.client_front.specs.Handing.{Accepts, AcceptsNothing, Empties, EmptyingFails, GivesNow, GivingFails, Offers, ReceivesInTime, ReceivesNothing, Refuses, SendsInTime, WaitFails, of_caller, of_kept};
ghost use Rattle.client_streams.specs.Kept.{Kept};
ghost use Rattle.client_streams.specs.Patience.{untaken};

use crate::clock::Ticks;
use crate::progress::Progress;
use client_streams::{ClientStream, Finished, SendBuffer, Taking, left};

/// A client that is served: its stream, how far its request has come, and how it takes what it is sent.
#[derive(Drop)]
pub(crate) struct Serving<S: ClientStream> {
    pub(crate) stream: S,
    pub(crate) progress: Progress,
    pub(crate) taking: Taking,
}

impl<S: ClientStream> Serving<S> {
    /// A client that is handed on now.
    pub(crate) fn new(stream: S, now: u64) -> Serving<S>
        ensures { result ≡ record { stream = stream; progress = begun now; taking = untaken } }
    {
        Serving {
            stream,
            progress: Progress::new(now),
            taking: Taking::new(),
        }
    }

    /// Octets of the request, while it is not late.
    pub(crate) fn receive<C: Ticks>(&mut self, clock: &mut C, into: &mut [u8]) -> Option<usize>
        ensures bound { IfSome result (λ n. n ≤ length into.new) }
        ensures in_time { IfSome result (λ n. ReceivesInTime S.receives C.reads (length into.old) (take n into.new) clock.old clock.new self.old self.new) }
        ensures nothing { IfNone result (ReceivesNothing S.receives C.reads (length into.old) clock.old clock.new self.old self.new) }
    {
        let limit = left(self.progress.due(), clock.milliseconds()?)?;
        let count = self.stream.receive(into, limit)?;
        let (octets, _) = into.split_at(count);
        self.progress.note(octets, clock.milliseconds()?);
        Some(count)
    }

    /// Gives the client what is kept, or where nothing is these octets, without a wait: how many of these it takes. None where the stream
    /// failed.
    fn give_now(&mut self, kept: &mut SendBuffer, from: &[u8]) -> Option<usize>
        ensures bound { IfSome result (λ n. n ≤ length from.now) }
        ensures gives { IfSome result (λ n. GivesNow S.takes from.now n (record { serving = self.old; kept = kept.old }) (record { serving = self.new; kept = kept.new })) }
        ensures fails { IfNone result (GivingFails S.takes from.now (record { serving = self.old; kept = kept.old }) (record { serving = self.new; kept = kept.new })) }
    {
        if kept.is_empty() {
            let count = self.stream.send_now(from)?;
            self.taking.add(count, 0, 0);
            return Some(count);
        }
        let taken = self.stream.send_now(kept.unsent())?;
        kept.advance(taken);
        self.taking.add(taken, 0, 0);
        Some(0)
    }

    /// Gives the client what it takes without a wait, and keeps as many of the octets as there is room for where it takes none of them, if
    /// some may be kept: how many are taken or kept. None where the stream failed.
    fn offer(&mut self, kept: &mut SendBuffer, from: &[u8], keeps: bool) -> Option<usize>
        ensures bound { IfSome result (λ n. n ≤ length from.now) }
        ensures offers { IfSome result (λ n. Offers S.takes keeps from.now n (record { serving = self.old; kept = kept.old }) (record { serving = self.new; kept = kept.new })) }
        ensures fails { IfNone result (GivingFails S.takes from.now (record { serving = self.old; kept = kept.old }) (record { serving = self.new; kept = kept.new })) }
    {
        let count = self.give_now(kept, from)?;
        if count > 0 {
            return Some(count);
        }
        if keeps {
            return Some(kept.put(from));
        }
        Some(0)
    }

    /// Waits until the client takes some of what is kept, while it is not late in taking it.
    fn wait_for_some<C: Ticks>(&mut self, kept: &mut SendBuffer, clock: &mut C) -> Option<usize>
        ensures bound { IfSome result (λ n. (0 < n) × (n ≤ length kept.old.unsent)) }
        ensures in_time { IfSome result (λ n. SendsInTime S.sends C.reads of_kept kept.old.unsent n clock.old clock.new (record { serving = self.old; kept = kept.old }) (record { serving = self.new; kept = kept.new })) }
        ensures fails { IfNone result (WaitFails S.sends C.reads of_kept kept.old.unsent clock.old clock.new (record { serving = self.old; kept = kept.old }) (record { serving = self.new; kept = kept.new })) }
    {
        let limit = self.taking.limit()?;
        let since = clock.milliseconds()?;
        let count = self.stream.send(kept.unsent(), limit)?;
        kept.advance(count);
        self.taking.add(count, since, clock.milliseconds()?);
        Some(count)
    }

    /// Waits until the client has taken all that is kept, while it is not late in taking it.
    fn wait_for_all<C: Ticks>(&mut self, kept: &mut SendBuffer, clock: &mut C) -> Option<()>
        ensures all { OnSome result (Empties S.sends C.reads clock.old (record { serving = self.old; kept = kept.old }) clock.new (record { serving = self.new; kept = kept.new })) }
        ensures none { OnSome result (kept.new.unsent ≡ []) }
        ensures fails { IfNone result (EmptyingFails S.sends C.reads clock.old clock.new (record { serving = self.old; kept = kept.old }) (record { serving = self.new; kept = kept.new })) }
    {
        'pieces: while !kept.is_empty() {
            self.wait_for_some(kept, clock)?;
        }
        Some(())
    }

    /// Waits until the client takes some of these octets, while it is not late in taking them.
    fn give_in_time<C: Ticks>(&mut self, clock: &mut C, from: &[u8]) -> Option<usize>
        ensures bound { IfSome result (λ n. (0 < n) × (n ≤ length from.now)) }
        ensures in_time { (kept : Kept) → IfSome result (λ n. SendsInTime S.sends C.reads of_caller from.now n clock.old clock.new (record { serving = self.old; kept = kept }) (record { serving = self.new; kept = kept })) }
        ensures fails { (kept : Kept) → IfNone result (WaitFails S.sends C.reads of_caller from.now clock.old clock.new (record { serving = self.old; kept = kept }) (record { serving = self.new; kept = kept })) }
    {
        let limit = self.taking.limit()?;
        let since = clock.milliseconds()?;
        let given = self.stream.send(from, limit)?;
        self.taking.add(given, since, clock.milliseconds()?);
        Some(given)
    }

    /// Gives the client some of the octets, from their front, or keeps them. Where none may be kept it is waited for, while it is not late
    /// in taking what it is given.
    fn give_or_keep<C: Ticks>(
        &mut self,
        kept: &mut SendBuffer,
        clock: &mut C,
        from: &[u8],
        keeps: bool,
    ) -> Option<usize>
        ensures bound { IfSome result (λ n. (0 < n) × (n ≤ length from.now)) }
        ensures accepts { IfSome result (λ n. Accepts S.takes S.sends C.reads keeps from.now n clock.old clock.new (record { serving = self.old; kept = kept.old }) (record { serving = self.new; kept = kept.new })) }
        ensures nothing { IfNone result (Refuses S.takes S.sends C.reads keeps from.now clock.old clock.new (record { serving = self.old; kept = kept.old }) (record { serving = self.new; kept = kept.new })) }
    {
        let count = self.offer(kept, from, keeps)?;
        if count > 0 {
            return Some(count);
        }
        self.wait_for_all(kept, clock)?;
        let given = self.give_in_time(clock, from)?;
        Some(given)
    }

    /// Gives the client some of the octets, from their front, or keeps them: it takes these while others are served. Where none may be
    /// kept it is waited for. Where none are accepted what is kept is dropped: the client is late, or its stream or the clock failed.
    pub(crate) fn send<C: Ticks>(
        &mut self,
        kept: &mut SendBuffer,
        clock: &mut C,
        from: &[u8],
        keeps: bool,
    ) -> Option<usize>
        ensures bound { IfSome result (λ n. (0 < n) × (n ≤ length from.now)) }
        ensures accepts { IfSome result (λ n. Accepts S.takes S.sends C.reads keeps from.now n clock.old clock.new (record { serving = self.old; kept = kept.old }) (record { serving = self.new; kept = kept.new })) }
        ensures nothing { IfNone result (AcceptsNothing S.takes S.sends C.reads keeps from.now clock.old clock.new (record { serving = self.old; kept = kept.old }) (record { serving = self.new; kept = kept.new })) }
    {
        let Some(count) = self.give_or_keep(kept, clock, from, keeps) else {
            kept.clear();
            return None;
        };
        Some(count)
    }

    /// Ends the response, of which nothing is kept that the client has not taken, and drops what has come since. A client of which more may
    /// come is given back: closed at once, it might lose the response before it has read it. Another is closed. It does not wait.
    pub(crate) fn finish<C: Ticks>(mut self, clock: &mut C) -> Option<Finished<S>>
        ensures open { IfSome result (EndsResponse S.ends S.gives C.reads true self.stream clock.old clock.new) }
        ensures closed { IfNone result (IsClosed S.ends S.closes S.gives C.reads self.stream clock.old clock.new) }
    {
        self.stream.end_writing();
        let Some(now) = clock.milliseconds() else {
            self.stream.close();
            return None;
        };
        let mut client = Finished::new(self.stream, now);
        if client.drop_all() {
            return Some(client);
        }
        client.close();
        None
    }

    /// Closes the client.
    pub(crate) fn close(self)
        ensures { S.closes self.stream }
    {
        self.stream.close();
    }
}

/// Closes the client that was served, where one was.
pub(crate) fn close_served<S: ClientStream>(served: Option<Serving<S>>)
    ensures { ClosesServed S.closes served }
{
    if let Some(serving) = served {
        serving.close();
    }
}
