// What a world in memory does, written down beforehand.
ghost use Rattle.std.specs.Prelude.{◌≡◌, ◌++◌, [], ◌∷◌, IfOk, false, true};
ghost use Rattle.scripted_world.specs.Script.{plain};

use octets::{Bytes, Listed};
use std::alloc::{AllocError, Global};

/// A call to the outside that fails. Calls that can fail are numbered from 1.
#[derive(Clone, Copy, Debug, PartialEq, Eq)]
pub struct Fail {
    /// The number of the call; 0 is none.
    pub call: u64,
    /// Whether a failing append keeps its batch.
    pub kept: bool,
}

/// What a world in memory does. A `SteadyWorld` passes over `fails` and `stop_at`.
#[derive(Drop)]
pub struct Script {
    /// What the store gives, a text for each link life.
    pub links: Listed<Bytes>,
    /// What the clients give, a text for each.
    pub clients: Listed<Bytes>,
    /// The batches that are kept already.
    pub batches: Listed<Bytes>,
    /// The clock's moments, in seconds since 1970-01-01T00:00:00Z, the last one again and again; none is 0.
    pub moments: Listed<i64>,
    /// The random words, the last one again and again; none is 0.
    pub words: Listed<u64>,
    /// The calls that fail.
    pub fails: Listed<Fail>,
    /// From this call on every call fails, where it is not 0.
    pub stop_at: u64,
    /// The most octets that a read gives; 0 counts as 1.
    pub piece: usize,
    /// The password of the store.
    pub password: Bytes,
    /// The token of a client.
    pub token: Bytes,
}

impl Script {
    /// A script without links, clients, words and secrets, in which no call fails and a read gives as much as is asked for.
    pub fn new(alloc: Global) -> Result<Script, AllocError>
        ensures { IfOk result (λ script. script ≡ plain) }
    {
        Ok(Script {
            links: Listed::from_vec(Vec::new(alloc)),
            clients: Listed::from_vec(Vec::new(alloc)),
            batches: Listed::from_vec(Vec::new(alloc)),
            moments: Listed::from_vec(Vec::new(alloc)),
            words: Listed::from_vec(Vec::new(alloc)),
            fails: Listed::from_vec(Vec::new(alloc)),
            stop_at: 0,
            piece: usize::MAX,
            password: Bytes::copy_of(alloc, &[])?,
            token: Bytes::copy_of(alloc, &[])?,
        })
    }

    /// One link life more, in which the store gives these octets.
    pub fn with_link(mut self, octets: &[u8]) -> Result<Script, AllocError>
        ensures { IfOk result (λ script. script ≡ record self { links = self.links ++ octets.now ∷ [] }) }
    {
        let text = Bytes::copy_of(self.links.allocator(), octets)?;
        self.links.push(text)?;
        Ok(self)
    }

    /// One client more, which gives these octets.
    pub fn with_client(mut self, octets: &[u8]) -> Result<Script, AllocError>
        ensures { IfOk result (λ script. script ≡ record self { clients = self.clients ++ octets.now ∷ [] }) }
    {
        let text = Bytes::copy_of(self.clients.allocator(), octets)?;
        self.clients.push(text)?;
        Ok(self)
    }

    /// One batch more that is kept already.
    pub fn with_batch(mut self, octets: &[u8]) -> Result<Script, AllocError>
        ensures { IfOk result (λ script. script ≡ record self { batches = self.batches ++ octets.now ∷ [] }) }
    {
        let batch = Bytes::copy_of(self.batches.allocator(), octets)?;
        self.batches.push(batch)?;
        Ok(self)
    }

    /// One moment of the clock more.
    pub fn with_moment(mut self, moment: i64) -> Result<Script, AllocError>
        ensures { IfOk result (λ script. script ≡ record self { moments = self.moments ++ moment ∷ [] }) }
    {
        self.moments.push(moment)?;
        Ok(self)
    }

    /// One random word more.
    pub fn with_word(mut self, word: u64) -> Result<Script, AllocError>
        ensures { IfOk result (λ script. script ≡ record self { words = self.words ++ word ∷ [] }) }
    {
        self.words.push(word)?;
        Ok(self)
    }

    /// These secrets in place of those that it has.
    pub fn with_secrets(mut self, password: &[u8], token: &[u8]) -> Result<Script, AllocError>
        ensures { IfOk result (λ script. script ≡ record self { password = password.now; token = token.now }) }
    {
        self.password = Bytes::copy_of(self.links.allocator(), password)?;
        self.token = Bytes::copy_of(self.links.allocator(), token)?;
        Ok(self)
    }

    /// The most octets that a read gives.
    pub fn in_pieces(mut self, piece: usize) -> Script
        ensures { result ≡ record self { piece = piece } }
    {
        self.piece = piece;
        self
    }

    /// The call of this number fails too; 0 is none.
    pub fn failing(mut self, call: u64) -> Result<Script, AllocError>
        ensures { IfOk result (λ script. script ≡ record self { fails = self.fails ++ record { call = call; kept = false } ∷ [] }) }
    {
        let kept = false;
        self.fails.push(Fail { call, kept })?;
        Ok(self)
    }

    /// The call of this number fails too, and keeps its batch where it is an append; 0 is none.
    pub fn failing_kept(mut self, call: u64) -> Result<Script, AllocError>
        ensures { IfOk result (λ script. script ≡ record self { fails = self.fails ++ record { call = call; kept = true } ∷ [] }) }
    {
        let kept = true;
        self.fails.push(Fail { call, kept })?;
        Ok(self)
    }

    /// From the call of this number on every call fails; 0 is none.
    pub fn stopping_at(mut self, call: u64) -> Script
        ensures { result ≡ record self { stop_at = call } }
    {
        self.stop_at = call;
        self
    }
}
