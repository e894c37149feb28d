// A client of whose response some octets are to be sent yet.
ghost use Rattle.std.specs.Prelude.{◌≡◌, IfSome, IfNone};
ghost use Rattle.client_streams.specs.Flushing as spec;
ghost use Rattle.client_streams.specs.Flushing.{EndsAt, FlushFails, Flushes, GoesOut};

use crate::client_stream::ClientStream;
use crate::finished::Finished;
use crate::pace::{STALL_MILLISECONDS, patience};
use crate::send_buffer::SendBuffer;
use crate::taking::Taking;

/// How many milliseconds from one look at a client to the next count at most: it is given nothing while another is served, and else
/// looked at each second.
pub const MAX_STEP_MILLISECONDS: u64 = 2_000;

/// What becomes of a client that was given what it takes now.
#[derive(Clone, Copy, Debug, PartialEq, Eq)]
pub enum Flow {
    /// Some octets are to be sent yet.
    Waits,
    /// It has taken all.
    Sent,
    /// It is late, or its stream failed.
    Lost,
}

/// A client whose response has ended, and of which some octets are to be sent yet. Times are milliseconds; moments are of the monotonic
/// clock.
#[derive(Drop)]
pub struct Unflushed<S: Drop> {
    pub stream: S,
    pub buffer: SendBuffer,
    /// When it was given octets last; at first, when its response ended.
    pub seen: u64,
    /// For how long it was waited for since its response ended, and how many octets it took.
    pub taking: Taking,
    /// For how many milliseconds it was waited for since it took some last.
    pub stalled: u64,
}

impl<S: ClientStream> Unflushed<S> {
    /// A client whose response ends now.
    pub fn new(stream: S, buffer: SendBuffer, now: u64) -> Unflushed<S>
        ensures { result ≡ spec.unflushed now stream buffer }
    {
        Unflushed {
            stream,
            buffer,
            seen: now,
            taking: Taking::new(),
            stalled: 0,
        }
    }

    /// Whether it was waited for too long while it took none, or in all.
    fn is_late(&self) -> bool
        ensures { result ≡ spec.is_late self.now }
    {
        STALL_MILLISECONDS <= self.stalled || patience(self.taking.octets) <= self.taking.waited
    }

    /// Notes that it is given octets now, and takes so many.
    fn note(&mut self, count: usize, now: u64)
        ensures { self.new ≡ spec.noted count now self.old }
    {
        let waited = now.saturating_sub(self.seen).min(MAX_STEP_MILLISECONDS);
        self.seen = now;
        self.taking.add(count, 0, waited);
        self.stalled = self.stalled.saturating_add(waited);
        if count > 0 {
            self.stalled = 0;
        }
    }

    /// Gives the client what it takes now: how many octets. None where the stream failed. It does not wait.
    fn flush(&mut self, now: u64) -> Option<usize>
        ensures some { IfSome result (λ n. Flushes S.takes now n self.old self.new) }
        ensures none { IfNone result (FlushFails S.takes self.old self.new) }
    {
        let count = self.stream.send_now(self.buffer.unsent())?;
        self.buffer.advance(count);
        self.note(count, now);
        Some(count)
    }

    /// Gives the client what it takes now, and says what becomes of it. It does not wait.
    pub fn go_on(&mut self, now: u64) -> Flow
        ensures { GoesOut S.takes now result self.old self.new }
    {
        let Some(count) = self.flush(now) else {
            return Flow::Lost;
        };
        if self.buffer.is_empty() {
            return Flow::Sent;
        }
        if self.is_late() {
            return Flow::Lost;
        }
        Flow::Waits
    }

    /// Ends the response, of which the client has taken all; gives the buffer back.
    pub fn end(mut self, now: u64) -> (Finished<S>, SendBuffer)
        ensures { EndsAt S.ends now self.stream result.0 }
    {
        self.stream.end_writing();
        (Finished::new(self.stream, now), self.buffer)
    }

    /// Closes the client; gives the buffer back.
    pub fn close(self) -> SendBuffer
        ensures { S.closes self.stream }
    {
        self.stream.close();
        self.buffer
    }
}
