// An owner whose calls are drawn.
use small_store::StoreMachine;
use std::alloc::{AllocError, Global};

/// What the first call is drawn from.
const SEED: u64 = 20_261_129;

/// Calls are of messages at places below this one.
const PLACES: usize = 32;

/// When each message came, in seconds since 1970-01-01T00:00:00Z.
const DATE: i64 = 1_000_000_000;

/// The longest message that is delivered.
const MAX_MESSAGE_OCTETS: usize = 1_000;

/// What draws calls, and how many there were.
#[derive(Drop)]
pub(crate) struct Owner {
    seed: u64,
    /// How many calls there were.
    pub(crate) calls: u64,
    /// How many changed the mail.
    pub(crate) delivered: u64,
    pub(crate) toggled: u64,
    pub(crate) shifted: u64,
    pub(crate) expunged: u64,
    alloc: Global,
}

/// One more, where it is done.
fn count(times: u64, done: bool) -> u64 {
    times.saturating_add(u64::from(done))
}

/// Delivers the message to the folder; false too where it is longer than `MAX_MESSAGE_OCTETS`.
fn deliver(store: &mut StoreMachine, folder: &[u8], message: &[u8]) -> Result<bool, AllocError> {
    if MAX_MESSAGE_OCTETS < message.len() {
        return Ok(false);
    }
    store.deliver(folder, message, DATE)
}

impl Owner {
    pub(crate) fn new(alloc: Global) -> Owner {
        Owner {
            seed: SEED,
            calls: 0,
            delivered: 0,
            toggled: 0,
            shifted: 0,
            expunged: 0,
            alloc,
        }
    }

    /// A number below 2^31.
    fn next(&mut self) -> usize {
        self.seed = self
            .seed
            .wrapping_mul(6364136223846793005)
            .wrapping_add(1442695040888963407);
        (self.seed >> 33) as usize
    }

    /// Delivers a message with a number of its own to one of the two folders.
    fn deliver(&mut self, store: &mut StoreMachine) -> Result<bool, AllocError> {
        let folder: &[u8] = if self.next() % 2 == 0 {
            b"INBOX"
        } else {
            b"Archive"
        };
        let number = self.calls;
        let message = format!(in self.alloc; "Subject: message {number}\r\n\r\nbody\r\n")?;
        deliver(store, folder, message.as_bytes())
    }

    /// Makes the next call.
    pub(crate) fn call(&mut self, store: &mut StoreMachine) -> Result<(), AllocError> {
        self.calls = self.calls.saturating_add(1);
        let place = self.next() % PLACES;
        match self.next() % 4 {
            0 => self.delivered = count(self.delivered, self.deliver(store)?),
            1 => self.toggled = count(self.toggled, store.toggle_seen(place)?),
            2 => self.shifted = count(self.shifted, store.shift(place)?),
            _ => self.expunged = count(self.expunged, store.expunge(place)?),
        }
        Ok(())
    }
}
