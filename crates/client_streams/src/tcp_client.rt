// The toolchain's stream of a client.
ghost use Rattle.std.specs.Prelude.{◌≡◌, ◌<◌, ◌≤◌, length, take, IfNone, IfSome};
ghost use Rattle.std.specs.Io.KnownBytes.{Appends, Consumes, IsAtEnd, Keeps};

use crate::client_stream::ClientStream;
use crate::streams::{read_once, write_once};
use std::io::{ErrorKind, Read, Write};
use std::net::{OpenStream, Shutdown, TcpStream};
use std::time::Duration;

/// A client's stream over TCP.
#[derive(Drop)]
pub struct TcpClient {
    stream: TcpStream,
}

impl TcpClient {
    /// A client with this stream.
    pub fn new(stream: TcpStream) -> TcpClient {
        TcpClient { stream }
    }
}

impl ClientStream for TcpClient {
    ghost use Rattle.std.specs.Prelude.{⊤};

    ghost shows = { λ _ _ _. ⊤ };

    ghost receives = { λ _ _ _ _ _. ⊤ };

    ghost sends = { λ _ _ _ _ _. ⊤ };

    ghost gives = { λ _ _ _ _. ⊤ };

    ghost takes = { λ _ _ _ _. ⊤ };

    ghost ends = { λ _ _. ⊤ };

    ghost closes = { λ _. ⊤ };

    fn peek(&self, into: &mut [u8]) -> Option<usize> {
        'signals: for _ in 0..u64::MAX {
            match self.stream.peek(into) {
                Ok(0) => return None,
                Ok(count) => return Some(count),
                Err(error) => match error.kind() {
                    ErrorKind::Interrupted => {}
                    ErrorKind::WouldBlock => return Some(0),
                    _ => return None,
                },
            }
        }
        None
    }

    fn receive(&mut self, into: &mut [u8], limit: u64) -> Option<usize> {
        receive_over(&mut self.stream, into, limit)
    }

    fn receive_now(&mut self, into: &mut [u8]) -> Option<usize> {
        receive_now_over(&mut self.stream, into)
    }

    fn send(&mut self, from: &[u8], limit: u64) -> Option<usize> {
        send_over(&mut self.stream, from, limit)
    }

    fn send_now(&mut self, from: &[u8]) -> Option<usize> {
        send_now_over(&mut self.stream, from)
    }

    fn end_writing(&mut self) {
        let _ = self.stream.shutdown(Shutdown::Write);
    }

    fn close(self) {}
}

/// One read of a stream that waits at most `limit` milliseconds: 0 at its end alone, where there is room.
fn receive_over<S: Read + OpenStream>(stream: &mut S, into: &mut [u8], limit: u64) -> Option<usize>
    ensures bound { IfSome result (λ n. n ≤ length into.new) }
    ensures octets { IfSome result (λ n. Consumes (S.remaining stream.old) (S.remaining stream.new) (take n into.new)
        × (n ≡ 0 → 0 < length into.new → IsAtEnd (S.remaining stream.new))) }
{
    stream.set_nonblocking(false).ok()?;
    stream
        .set_read_timeout(Some(Duration::from_millis(limit)))
        .ok()?;
    match read_once(stream, into) {
        Ok(count) => Some(count),
        Err(_) => None,
    }
}

/// One read of a stream that doesn't wait: 0 where it would. None where the stream ended or failed. Nothing is read at either.
fn receive_now_over<S: Read + OpenStream>(stream: &mut S, into: &mut [u8]) -> Option<usize>
    ensures bound { IfSome result (λ n. n ≤ length into.new) }
    ensures octets { IfSome result (λ n. Consumes (S.remaining stream.old) (S.remaining stream.new) (take n into.new)) }
    ensures none { IfNone result (Keeps (S.remaining stream.old) (S.remaining stream.new)) }
{
    stream.set_nonblocking(true).ok()?;
    match read_once(stream, into) {
        Ok(0) => None,
        Ok(read) => Some(read),
        Err(error) if error.kind() == ErrorKind::WouldBlock => Some(0),
        Err(_) => None,
    }
}

/// One write of a stream that waits at most `limit` milliseconds and takes an octet at least.
fn send_over<S: Write + OpenStream>(stream: &mut S, from: &[u8], limit: u64) -> Option<usize>
    ensures bound { IfSome result (λ n. (0 < n) × (n ≤ length from.now)) }
    ensures octets { IfSome result (λ n. Appends (S.contents stream.old) (S.contents stream.new) (take n from.now)) }
    ensures none { IfNone result (Keeps (S.contents stream.old) (S.contents stream.new)) }
{
    stream.set_nonblocking(false).ok()?;
    stream
        .set_write_timeout(Some(Duration::from_millis(limit)))
        .ok()?;
    match write_once(stream, from) {
        Ok(0) => None,
        Ok(count) => Some(count),
        Err(_) => None,
    }
}

/// One write of a stream that doesn't wait: 0 where it would, and nothing is written then, nor where the stream failed.
fn send_now_over<S: Write + OpenStream>(stream: &mut S, from: &[u8]) -> Option<usize>
    ensures bound { IfSome result (λ n. n ≤ length from.now) }
    ensures octets { IfSome result (λ n. Appends (S.contents stream.old) (S.contents stream.new) (take n from.now)) }
    ensures none { IfNone result (Keeps (S.contents stream.old) (S.contents stream.new)) }
{
    stream.set_nonblocking(true).ok()?;
    match write_once(stream, from) {
        Ok(taken) => Some(taken),
        Err(error) if error.kind() == ErrorKind::WouldBlock => Some(0),
        Err(_) => None,
    }
}
