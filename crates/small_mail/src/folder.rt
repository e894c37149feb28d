// Folders.
ghost use Rattle.std.specs.Prelude.{◌≡◌, ◌<◌, ◌+◌, ◌++◌, ◌∷◌, [], ℕ, List, MatchOption, None, Some, OnErr, OnOk, false, length, max, remove};
ghost use Rattle.honest_store.specs.StoreMail.{message_numbered, StoreMessage};
ghost use Rattle.honest_store.specs.WellFormed.{AscendByUid};
ghost use Rattle.honest_store.specs.MessageChanges.{folder_with, folder_flagged};
ghost use Rattle.small_answers.specs.Changes.{empty_folder, hierarchy_delimiter, next_modseq};
ghost use Rattle.small_answers.specs.Limits as limits;
ghost use Rattle.small_mail.specs.Places.{IsMessageAt};

use crate::message::{StoredMessage, StoredUid};
use octets::{Bytes, Names};
use std::alloc::{AllocError, Global};
use std::marker::Model;

/// The last mod-sequence that can be told.
const LAST_MODSEQ: u64 = 9_223_372_036_854_775_807;

/// A folder, whose number is its UIDVALIDITY.
#[derive(Debug, Drop)]
pub struct StoredFolder {
    name: Bytes,
    attributes: Names,
    validity: u32,
    highest: u64,
    uid_next: u32,
    messages: Vec<StoredMessage>,
    expunged: Vec<StoredUid>,
}

impl Model for StoredFolder {
    ghost use Rattle.std.specs.Prelude.{Some, true};
    ghost use Rattle.honest_store.specs.StoreMail.{StoreFolder};
    ghost use Rattle.small_answers.specs.Changes.{hierarchy_delimiter};

    ghost Value = { StoreFolder };

    ghost view = { λ f. record {
      number = f.validity;
      name = f.name;
      delimiter = Some hierarchy_delimiter;
      attributes = f.attributes;
      validity = f.validity;
      has_modseqs = true;
      highest = f.highest;
      uid_next = f.uid_next;
      messages = f.messages.items;
      expunged = f.expunged.items;
    } };
}

impl StoredFolder {
    /// A folder without messages.
    pub(crate) fn new(alloc: Global, name: Bytes, validity: u32) -> StoredFolder
        ensures { result ≡ empty_folder name validity }
    {
        StoredFolder {
            name,
            attributes: Names::new(alloc),
            validity,
            highest: 1,
            uid_next: 1,
            messages: Vec::new(alloc),
            expunged: Vec::new(alloc),
        }
    }

    /// Its name as it is told.
    pub fn name(&self) -> &Bytes
        ensures name { result.now ≡ self.now.name }
        ensures delimiter { self.now.delimiter ≡ Some hierarchy_delimiter }
    {
        &self.name
    }

    /// Its attributes in kept form.
    pub fn attributes(&self) -> &Names
        ensures { result.now ≡ self.now.attributes }
    {
        &self.attributes
    }

    /// Its UIDVALIDITY, which is its number too.
    pub fn validity(&self) -> u32
        ensures validity { result ≡ self.now.validity }
        ensures number { result ≡ self.now.number }
    {
        self.validity
    }

    /// The greatest mod-sequence that was taken, at least 1.
    pub fn highest(&self) -> u64
        ensures { result ≡ self.now.highest }
    {
        self.highest
    }

    /// The UID that the next message gets.
    pub fn uid_next(&self) -> u32
        ensures { result ≡ self.now.uid_next }
    {
        self.uid_next
    }

    /// Its messages by ascending UID.
    pub fn messages(&self) -> &[StoredMessage]
        ensures { result.now ≡ self.now.messages }
    {
        &self.messages
    }

    /// The UIDs of messages that went, in the order in which they did.
    pub fn expunged(&self) -> &[StoredUid]
        ensures { result.now ≡ self.now.expunged }
    {
        &self.expunged
    }

    /// The place of the message of this UID.
    pub fn place_of(&self, uid: u32) -> Option<usize>
        ensures { MatchOption result (message_numbered self.now.messages uid ≡ None)
            (λ at. (m : StoreMessage) × IsMessageAt self.now at m × (message_numbered self.now.messages uid ≡ Some m)) }
    {
        for (at, message) in self.messages.iter().enumerate() {
            if message.uid() == uid {
                return Some(at);
            }
        }
        None
    }

    /// The message of this UID.
    pub fn message(&self, uid: u32) -> Option<&StoredMessage>
        ensures { MatchOption result (message_numbered self.now.messages uid ≡ None) (λ m. message_numbered self.now.messages uid ≡ Some m.now) }
    {
        match self.place_of(uid) {
            Some(at) => self.messages.get(at),
            None => None,
        }
    }

    /// Whether its mod-sequences are at their end.
    pub fn is_last_change(&self) -> bool
        ensures { result ≡ limits.is_last_change self.now }
    {
        LAST_MODSEQ <= self.highest
    }

    /// Whether its mod-sequences or its UIDs are at their end.
    pub fn is_last_message(&self) -> bool
        ensures { result ≡ limits.is_last_message self.now }
    {
        self.is_last_change() || u32::MAX <= self.uid_next
    }

    // ---- changes, which the mail makes

    /// Gives it another name.
    pub(crate) fn set_name(&mut self, name: Bytes)
        ensures { self.new ≡ record self.old { name = name } }
    {
        self.name = name;
    }

    /// Gives it other attributes.
    pub(crate) fn set_attributes(&mut self, attributes: Names)
        ensures { self.new ≡ record self.old { attributes = attributes } }
    {
        self.attributes = attributes;
    }

    /// Gives the message at the place these flags, at the next mod-sequence.
    pub(crate) fn set_flags(&mut self, at: usize, flags: Names)
        requires place { at < length self.old.messages }
        requires order { AscendByUid 0 self.old.messages }
        requires room { limits.is_last_change self.old ≡ false }
        ensures { (m : StoreMessage) → IsMessageAt self.old at m → self.new ≡ folder_flagged self.old m.uid flags (next_modseq self.old) }
    {
        let modseq = self.highest + 1;
        self.highest = modseq;
        self.messages[at].set_flags(flags, modseq);
    }

    /// Puts a message at the end, at the UIDNEXT or above it. Where memory is wanting nothing changes.
    pub(crate) fn put_message(&mut self, message: StoredMessage) -> Result<(), AllocError>
        requires { message.uid < 4294967295 }
        ensures ok { OnOk result (self.new ≡ folder_with self.old message (message.uid + 1)) }
        ensures err { OnErr result (self.new ≡ self.old) }
    {
        let next = message.uid() + 1;
        let modseq = message.modseq();
        self.messages.push(message)?;
        self.uid_next = next;
        self.highest = modseq;
        Ok(())
    }

    /// Takes the message back that was put last, so that the UIDNEXT and the highest mod-sequence are these again.
    pub(crate) fn take_back(&mut self, uid_next: u32, highest: u64)
        requires { 0 < length self.old.messages }
        ensures { (ms : List StoreMessage) (m : StoreMessage) → self.old.messages ≡ ms ++ m ∷ []
            → self.new ≡ record self.old { highest = highest; uid_next = uid_next; messages = ms } }
    {
        let _message = self.messages.pop();
        self.uid_next = uid_next;
        self.highest = highest;
    }

    /// Ends the message at the place, at this mod-sequence. Where memory is wanting nothing changes.
    pub(crate) fn end_message(&mut self, at: usize, modseq: u64) -> Result<(), AllocError>
        requires { at < length self.old.messages }
        ensures ok { OnOk result ((m : StoreMessage) → IsMessageAt self.old at m → self.new ≡ record self.old {
          highest = max self.old.highest modseq;
          messages = remove self.old.messages at;
          expunged = self.old.expunged ++ record { uid = m.uid; modseq = modseq } ∷ [];
        }) }
        ensures err { OnErr result (self.new ≡ self.old) }
    {
        let uid = self.messages[at].uid();
        self.expunged.push(StoredUid::new(uid, modseq))?;
        let _message = self.messages.remove(at);
        self.highest = self.highest.max(modseq);
        Ok(())
    }
}
