// A client whose response has ended: what it still sends is dropped as it comes.
ghost use Rattle.std.specs.Prelude.{◌≡◌, ◌<◌, IfNone, IfSome};
ghost use Rattle.client_streams.specs.Draining as spec;
ghost use Rattle.client_streams.specs.Draining.{DropsAll, DropsPiece, EndsInput};
ghost use Rattle.client_streams.specs.Lingering.{StaysOpen};

use crate::client_stream::ClientStream;

/// How many octets are read and dropped at most after the last of the response.
pub const MAX_DRAIN_OCTETS: usize = 1_048_576;

/// How many milliseconds a client stays open at most after its response.
pub const DRAIN_MILLISECONDS: u64 = 2_000;

/// How many octets one read of that asks for.
const DRAIN_PIECE_OCTETS: usize = 8_192;

/// How many of them one look drops at most: as many as all those octets are.
const MAX_DRAIN_PIECES: usize = 128;

/// A client whose response has ended.
#[derive(Drop)]
pub struct Finished<S: Drop> {
    /// When it is closed at the latest, in milliseconds of the monotonic clock.
    pub due: u64,
    /// How many octets of it were dropped.
    pub dropped: usize,
    pub stream: S,
}

impl<S: ClientStream> Finished<S> {
    /// A client whose response ends now.
    pub fn new(stream: S, now: u64) -> Finished<S>
        ensures { result ≡ spec.finished now stream }
    {
        Finished {
            due: now.saturating_add(DRAIN_MILLISECONDS),
            dropped: 0,
            stream,
        }
    }

    /// Drops one piece of what has come: how many octets, 0 where none has come yet. None where no more comes.
    fn drop_piece(&mut self) -> Option<usize>
        requires { self.old.dropped < MAX_DRAIN_OCTETS }
        ensures some { IfSome result (λ n. DropsPiece S.gives n self.old self.new) }
        ensures none { IfNone result (EndsInput S.gives self.old self.new) }
    {
        let most = DRAIN_PIECE_OCTETS.min(MAX_DRAIN_OCTETS - self.dropped);
        let mut room = [0u8; DRAIN_PIECE_OCTETS];
        let count = self.stream.receive_now(&mut room[..most])?;
        self.dropped += count;
        Some(count)
    }

    /// Drops what has come by now, no more than `MAX_DRAIN_OCTETS` in all and `MAX_DRAIN_PIECES` pieces in one call. Whether more may
    /// come: the client has not ended its input, and the stream has not failed. It does not wait.
    pub fn drop_all(&mut self) -> bool
        ensures { DropsAll S.gives result self.old self.new }
    {
        'pieces: for piece in 0..MAX_DRAIN_PIECES {
            if self.dropped >= MAX_DRAIN_OCTETS {
                return true;
            }
            let Some(count) = self.drop_piece() else {
                return false;
            };
            if count == 0 {
                return true;
            }
        }
        true
    }

    /// Drops what has come by now. Whether the client stays open: more may come of it, and it isn't due. It does not wait.
    pub fn stays_open(&mut self, now: u64) -> bool
        ensures { StaysOpen S.gives now result self.old self.new }
    {
        if !self.drop_all() {
            return false;
        }
        if self.due <= now {
            return false;
        }
        true
    }

    /// Closes the client.
    pub fn close(self)
        ensures { S.closes self.stream }
    {
        self.stream.close();
    }
}
