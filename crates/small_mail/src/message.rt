// Messages, and the UIDs of those that went.
ghost use Rattle.std.specs.Prelude.{◌≡◌, IfOk, length};
ghost use Rattle.honest_store.specs.MessageChanges.{with_flags_at};

use octets::{Bytes, Names};
use std::alloc::{AllocError, Global};
use std::marker::Model;

/// A message that is held.
#[derive(Debug, Drop)]
pub struct StoredMessage {
    uid: u32,
    flags: Names,
    modseq: u64,
    date: i64,
    size: u64,
    octets: Bytes,
}

impl Model for StoredMessage {
    ghost use Rattle.honest_store.specs.StoreMail.{StoreMessage};

    ghost Value = { StoreMessage };

    ghost view = { λ m. record { uid = m.uid; flags = m.flags; modseq = m.modseq; date = m.date; size = m.size; octets = m.octets } };
}

impl StoredMessage {
    /// A message that comes at this UID and mod-sequence; its flags are in kept form.
    pub(crate) fn new(
        uid: u32,
        flags: Names,
        modseq: u64,
        date: i64,
        octets: Bytes,
    ) -> StoredMessage
        ensures { result ≡ record { uid = uid; flags = flags; modseq = modseq; date = date; size = length octets; octets = octets } }
    {
        let size = octets.as_slice().len() as u64;
        StoredMessage {
            uid,
            flags,
            modseq,
            date,
            size,
            octets,
        }
    }

    /// Its UID in its folder.
    pub fn uid(&self) -> u32
        ensures { result ≡ self.now.uid }
    {
        self.uid
    }

    /// Its flags in kept form.
    pub fn flags(&self) -> &Names
        ensures { result.now ≡ self.now.flags }
    {
        &self.flags
    }

    /// The mod-sequence of its last change.
    pub fn modseq(&self) -> u64
        ensures { result ≡ self.now.modseq }
    {
        self.modseq
    }

    /// When it came, in seconds since 1970-01-01T00:00:00Z.
    pub fn date(&self) -> i64
        ensures { result ≡ self.now.date }
    {
        self.date
    }

    /// Octets of the whole message.
    pub fn size(&self) -> u64
        ensures { result ≡ self.now.size }
    {
        self.size
    }

    /// The whole message.
    pub fn octets(&self) -> &[u8]
        ensures { result.now ≡ self.now.octets }
    {
        self.octets.as_slice()
    }

    /// Gives it these flags, at this mod-sequence.
    pub(crate) fn set_flags(&mut self, flags: Names, modseq: u64)
        ensures { self.new ≡ with_flags_at self.old flags modseq }
    {
        self.flags = flags;
        self.modseq = modseq;
    }

    /// The same message at another UID and mod-sequence. Its octets are shared and not copied.
    pub(crate) fn share_as(
        &self,
        alloc: Global,
        uid: u32,
        modseq: u64,
    ) -> Result<StoredMessage, AllocError>
        ensures { IfOk result (λ m. m ≡ record self.now { uid = uid; modseq = modseq }) }
    {
        let flags = self.flags.share(alloc)?;
        let octets = self.octets.share()?;
        Ok(StoredMessage {
            uid,
            flags,
            modseq,
            date: self.date,
            size: self.size,
            octets,
        })
    }
}

/// The UID of a message that went, and the mod-sequence at which it did.
#[derive(Debug, Drop)]
pub struct StoredUid {
    uid: u32,
    modseq: u64,
}

impl Model for StoredUid {
    ghost use Rattle.honest_store.specs.StoreMail.{ExpungedUid};

    ghost Value = { ExpungedUid };

    ghost view = { λ e. record { uid = e.uid; modseq = e.modseq } };
}

impl StoredUid {
    /// The UID of a message that goes at this mod-sequence.
    pub(crate) fn new(uid: u32, modseq: u64) -> StoredUid
        ensures { result ≡ record { uid = uid; modseq = modseq } }
    {
        StoredUid { uid, modseq }
    }

    /// The message's UID.
    pub fn uid(&self) -> u32
        ensures { result ≡ self.now.uid }
    {
        self.uid
    }

    /// When it went.
    pub fn modseq(&self) -> u64
        ensures { result ≡ self.now.modseq }
    {
        self.modseq
    }
}
