// A clock, a client, a listener and an input that do as a row says.
use crate::peers::Peers;
use client_front::{ClientListener, ClientStream, Next, Ticks};
use std::cell::Cell;
use std::io;
use std::io::{ErrorKind, Read};
use std::rc::Rc;
use test_rows::{first_number, octets_of};

/// A clock that goes on by a step at each look, this many times, and then is far on.
#[derive(Drop)]
pub(crate) struct SteppingClock {
    step: u64,
    steps: u64,
    looks: u64,
}

impl Ticks for SteppingClock {
    ghost use Rattle.std.specs.Prelude.{⊤};

    ghost reads = { λ _ _ _. ⊤ };

    fn milliseconds(&mut self) -> Option<u64> {
        self.looks = self.looks.saturating_add(1);
        match self.looks <= self.steps {
            true => self.looks.checked_mul(self.step),
            false => Some(1_000_000),
        }
    }
}

/// A client that is seen so often to have sent nothing, then so often to have sent a part of a head, and a whole one from then on. It
/// sends this many octets in pieces of at most so many, and ends then; the first of each piece is an octet of the head, or `.` past it.
/// With pieces of 0 it sends none and does not end. It takes one octet where it is waited for, and else so many every second time that it is
/// given some, and none at the others.
#[derive(Drop)]
pub(crate) struct ScriptedClient {
    silent: u64,
    partly: u64,
    looks: Cell<u64>,
    octets: u64,
    piece: u64,
    head: Vec<u8>,
    given: u64,
    at_once: usize,
    takes: bool,
    open: Rc<u8>,
}

impl ClientStream for ScriptedClient {
    ghost use Rattle.std.specs.Prelude.{⊤};

    ghost shows = { λ _ _ _. ⊤ };

    ghost receives = { λ _ _ _ _ _. ⊤ };

    ghost sends = { λ _ _ _ _ _. ⊤ };

    ghost gives = { λ _ _ _ _. ⊤ };

    ghost takes = { λ _ _ _ _. ⊤ };

    ghost ends = { λ _ _. ⊤ };

    ghost closes = { λ _. ⊤ };

    fn peek(&self, into: &mut [u8]) -> Option<usize> {
        let looks = self.looks.get();
        self.looks.set(looks.saturating_add(1));
        let count = match looks.checked_sub(self.silent) {
            None => 0,
            Some(later) if later < self.partly => 2,
            Some(_) => 3,
        };
        let (octets, _) = into.split_at_mut_checked(count)?;
        octets.copy_from_slice(b"G\n\n".get(..count)?);
        Some(count)
    }

    fn receive(&mut self, into: &mut [u8], _limit: u64) -> Option<usize> {
        *into.first_mut()? = self.head.get(self.given as usize).copied().unwrap_or(b'.');
        let left = self.octets.saturating_sub(self.given);
        let count = left.min(self.piece).min(into.len() as u64);
        self.given = self.given.saturating_add(count);
        Some(count as usize)
    }

    fn receive_now(&mut self, into: &mut [u8]) -> Option<usize> {
        match self.receive(into, 0) {
            Some(0) if self.given >= self.octets => None,
            got => got,
        }
    }

    fn send(&mut self, from: &[u8], _limit: u64) -> Option<usize> {
        from.first().map(|_| 1)
    }

    fn send_now(&mut self, from: &[u8]) -> Option<usize> {
        let takes = self.takes;
        self.takes = !takes;
        match takes {
            true => Some(self.at_once.min(from.len())),
            false => Some(0),
        }
    }

    fn end_writing(&mut self) {}

    fn close(self) {}
}

/// A listener to which one client comes; further ones can't be accepted, or there are none. So many of its waits end for the
/// client, which has the first key; then it fails.
#[derive(Drop)]
pub(crate) struct OneClient {
    client: Option<ScriptedClient>,
    refuses: bool,
    waits: u64,
}

/// The listener of a row, and its clock.
pub(crate) fn scripted_of(peers: &Peers, row: &str) -> io::Result<(OneClient, SteppingClock)> {
    let (step, row) = first_number(row);
    let (steps, row) = first_number(row);
    let (waits, row) = first_number(row);
    let (refuses, row) = first_number(row);
    let (at_once, row) = first_number(row);
    let (silent, row) = first_number(row);
    let (partly, row) = first_number(row);
    let (octets, row) = first_number(row);
    let (piece, head) = first_number(row);
    let client = ScriptedClient {
        silent,
        partly,
        looks: Cell::new(0),
        octets,
        piece,
        head: octets_of(peers.desk.rt.alloc(), head)?,
        given: 0,
        at_once: at_once as usize,
        takes: false,
        open: peers.open.clone()?,
    };
    let listener = OneClient {
        client: Some(client),
        refuses: refuses == 1,
        waits,
    };
    let clock = SteppingClock {
        step,
        steps,
        looks: 0,
    };
    Ok((listener, clock))
}

impl ClientListener for OneClient {
    ghost use Rattle.std.specs.Prelude.{⊤};

    type Stream = ScriptedClient;

    ghost comes = { λ _ _ _ _. ⊤ };

    ghost waits = { λ _ _ _ _ _. ⊤ };

    fn next_client(&mut self, _key: u64) -> Next<ScriptedClient> {
        match self.client.take() {
            Some(client) => Next::Client(client),
            None if self.refuses => Next::Refused,
            None => Next::Nobody,
        }
    }

    fn wait(&mut self, _limit: u64, room: &mut [u64]) -> Option<usize> {
        self.waits = self.waits.checked_sub(1)?;
        *room.first_mut()? = 0;
        Some(1)
    }
}

/// An input of pieces, between `|`: into the read at a `~` a signal breaks, and the one at a `!` fails.
#[derive(Drop)]
pub(crate) struct RoughInput {
    pub(crate) pieces: String,
    pub(crate) given: usize,
}

impl Read for RoughInput {
    fn read(&mut self, into: &mut [u8]) -> io::Result<usize> {
        let rest = self.pieces.get(self.given..).unwrap_or("");
        let (piece, _) = rest.split_once('|').unwrap_or((rest, ""));
        self.given = self.given.saturating_add(piece.len()).saturating_add(1);
        match piece {
            "~" => Err(io::Error::from(ErrorKind::Interrupted)),
            "!" => Err(io::Error::from(ErrorKind::ConnectionReset)),
            _ => piece.as_bytes().read(into),
        }
    }
}
