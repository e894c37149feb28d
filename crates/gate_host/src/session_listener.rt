// A listener whose clients are given before they have sent anything, and the toolchain's sockets under it.
ghost use Rattle.std.specs.Prelude.{ℕ, Option, ◌≡◌, ◌≢◌, ◌<◌, ◌≤◌, ◌+◌, ◌*◌, IfSome, IfNone, IfErr};
ghost use Rattle.std.specs.Duration.{as_nanos};
ghost use Rattle.std.specs.IoError.{error_kind};

use client_front::{DRAIN_MILLISECONDS, MAX_DRAIN_OCTETS, Ticks, read_once};
use std::io;
use std::io::{ErrorKind, Read, Write};
use std::net::{Net, OpenListener, OpenStream, Shutdown, TcpListener, TcpStream};
use std::time::Duration;

/// How many clients that failed before they were given are passed over for the next, in one call; after as many it fails.
const MAX_FAILED_CLIENTS: usize = 64;

/// How many octets one read asks for that drops what still comes.
const DRAIN_PIECE_OCTETS: usize = 8_192;

/// Gives clients, and closes them. What either may come to is a relation that each implementation names, and of which a caller
/// knows nothing else: so a stream that stands in it was given by this listener with these limits.
pub trait SessionListener {
    /// The stream of a client. A read gives 0 where the client has ended its input.
    type Stream: Read + Write + Drop;

    /// The stream that a wait for the next client may give, where each read and each write may wait this many seconds; None
    /// where it fails.
    ghost accepts: { Self → ℕ → ℕ → Option Self.Stream → Type 0 };

    /// What closing this stream comes to.
    ghost closes: { Self → Self.Stream → Type 0 };

    /// Waits for the next client. Its reads wait at most so many seconds, and its writes. None where none can be had.
    fn accept(&self, read_seconds: u64, write_seconds: u64) -> Option<Self::Stream>
        ensures { accepts self.now read_seconds write_seconds result };

    /// Ends what the client is sent, drops what still comes for a short time, and closes the stream.
    fn close(&self, stream: Self::Stream)
        ensures { closes self.now stream };
}

/// A listener over TCP.
#[derive(Drop)]
pub struct TcpSessions<C: Ticks + Copy + Drop> {
    listener: TcpListener,
    clock: C,
}

impl<C: Ticks + Copy + Drop> TcpSessions<C> {
    /// A listener at an address, `host:port`. None where none can be had.
    pub fn bind<N: Net<Listener = TcpListener, Stream = TcpStream>>(
        net: &N,
        clock: C,
        address: &str,
    ) -> Option<TcpSessions<C>> {
        let listener = TcpListener::bind(net, address).ok()?;
        Some(TcpSessions { listener, clock })
    }

    /// The port that it listens at.
    pub fn port(&self) -> Option<u16> {
        Some(self.listener.local_addr().ok()?.port())
    }
}

impl<C: Ticks + Copy + Drop> SessionListener for TcpSessions<C> {
    ghost use Rattle.std.specs.Prelude.{⊤};

    type Stream = TcpStream;

    ghost accepts = { λ _ _ _ _. ⊤ };

    ghost closes = { λ _ _. ⊤ };

    fn accept(&self, read_seconds: u64, write_seconds: u64) -> Option<TcpStream> {
        for _ in 0..MAX_FAILED_CLIENTS {
            if let Ok(stream) = accept_once(&self.listener) {
                if let Some(stream) = limited(stream, read_seconds, write_seconds) {
                    return Some(stream);
                }
            }
        }
        None
    }

    fn close(&self, mut stream: TcpStream) {
        let _ = stream.shutdown(Shutdown::Write);
        let mut clock = self.clock;
        if let Some(now) = clock.milliseconds() {
            let due = now.saturating_add(DRAIN_MILLISECONDS);
            let _ = drain(&mut stream, &mut clock, due);
        }
    }
}

/// Waits once for a client, and again where a signal broke in.
fn accept_once<L: OpenListener>(listener: &L) -> io::Result<L::Stream>
    ensures { IfErr result (λ error. error_kind error ≢ ErrorKind.Interrupted) }
{
    'signals: for _ in 0..u64::MAX {
        match listener.accept() {
            Ok((stream, _)) => return Ok(stream),
            Err(error) => {
                if error.kind() != ErrorKind::Interrupted {
                    return Err(error);
                }
            }
        }
    }
    Err(io::Error::from(ErrorKind::TimedOut))
}

/// The stream with its limits; None where it can't have them.
fn limited<S: OpenStream + Drop>(stream: S, read_seconds: u64, write_seconds: u64) -> Option<S>
    ensures { IfSome result (λ given. given ≡ stream) }
{
    stream
        .set_read_timeout(Some(Duration::from_secs(read_seconds)))
        .ok()?;
    stream
        .set_write_timeout(Some(Duration::from_secs(write_seconds)))
        .ok()?;
    Some(stream)
}

/// Reads and drops what comes until then, in milliseconds of the clock: how many octets.
fn drain<S: Read + OpenStream, C: Ticks>(stream: &mut S, clock: &mut C, due: u64) -> usize
    ensures { result ≤ MAX_DRAIN_OCTETS }
{
    let mut dropped = 0;
    while dropped < MAX_DRAIN_OCTETS {
        let Some(count) = drain_piece(stream, clock, due, MAX_DRAIN_OCTETS - dropped) else {
            break;
        };
        dropped += count;
    }
    dropped
}

/// Reads and drops one piece of at most `most` octets: how many. None where nothing more comes, or not in time.
fn drain_piece<S: Read + OpenStream, C: Ticks>(
    stream: &mut S,
    clock: &mut C,
    due: u64,
    most: usize,
) -> Option<usize>
    ensures { IfSome result (λ n. (0 < n) × (n ≤ most)) }
{
    let limit = time_left(due, clock.milliseconds()?)?;
    stream.set_read_timeout(Some(limit)).ok()?;
    let mut room = [0u8; DRAIN_PIECE_OCTETS];
    let count = read_once(stream, &mut room[..most.min(DRAIN_PIECE_OCTETS)]).ok()?;
    if count == 0 { None } else { Some(count) }
}

/// How long it is until then, in milliseconds of the clock; None where the moment has come.
fn time_left(due: u64, now: u64) -> Option<Duration>
    ensures some { IfSome result (λ left. as_nanos left + now * 1_000_000 ≡ due * 1_000_000) }
    ensures none { IfNone result (due ≤ now) }
{
    if now < due {
        Some(Duration::from_millis(due - now))
    } else {
        None
    }
}
