// Folders of the mail: by name, by number, those that come and go, and their messages.
ghost use Rattle.std.specs.Prelude.{◌≡◌, ◌<◌, ◌≤◌, ◌+◌, ◌^◌, MatchOption, None, Some, OnErr, OnOk, IfOk, false, length, ◌==◌, if◌then◌else◌};
ghost use Rattle.imap_types.specs.Folders.{folder_name};
ghost use Rattle.honest_store.specs.StoreMail.{folder_called, folder_numbered, IsFolder, IsFolderNamed, StoreFolder, StoreMessage};
ghost use Rattle.honest_store.specs.WellFormed.{IsStoreMail};
ghost use Rattle.small_answers.specs.Changes as changes;
ghost use Rattle.small_answers.specs.Limits as limits;
ghost use Rattle.small_mail.specs.Places.{IsFolderAt, IsMessageAt};

use crate::flags::subscribed;
use crate::folder::StoredFolder;
use crate::message::StoredMessage;
use crate::names::told_name;
use crate::renames::{new_names, set_names};
use crate::uses::StoredUse;
use octets::{Bytes, Names};
use std::alloc::{AllocError, Global};
use std::marker::Model;

/// All of the mail. Of its changes those that may fail for want of memory change nothing then.
#[derive(Debug, Drop)]
pub struct StoredMail {
    folders: Vec<StoredFolder>,
    uses: Vec<StoredUse>,
}

impl Model for StoredMail {
    ghost use Rattle.std.specs.Prelude.{[]};
    ghost use Rattle.honest_store.specs.StoreMail.{StoreMail};

    ghost Value = { StoreMail };

    ghost view = { λ m. record { folders = m.folders.items; unselectable = []; uses = m.uses.items } };
}

impl StoredMail {
    /// INBOX and Archive, both empty, with the UIDVALIDITIES 1 and 2.
    pub fn new(alloc: Global) -> Result<StoredMail, AllocError>
        ensures { IfOk result (λ m. m ≡ changes.first_mail) }
    {
        let mut mail = StoredMail {
            folders: Vec::new(alloc),
            uses: Vec::new(alloc),
        };
        mail.create(alloc, b"INBOX", 1)?;
        mail.create(alloc, b"Archive", 2)?;
        Ok(mail)
    }

    /// The folders, the oldest first.
    pub fn folders(&self) -> &[StoredFolder]
        ensures { result.now ≡ self.now.folders }
    {
        &self.folders
    }

    /// The place of the folder of this name, INBOX in letters of any case.
    pub fn place_named(&self, name: &[u8]) -> Option<usize>
        ensures { MatchOption result (folder_called self.now.folders name.now ≡ None)
            (λ place. (f : StoreFolder) × IsFolderAt self.now place f × IsFolderNamed self.now name.now f) }
    {
        let name = told_name(name);
        for (place, folder) in self.folders.iter().enumerate() {
            if folder.name().as_slice() == name {
                return Some(place);
            }
        }
        None
    }

    /// The place of the folder of this number.
    pub fn place_numbered(&self, number: u32) -> Option<usize>
        ensures { MatchOption result (folder_numbered self.now.folders number ≡ None)
            (λ place. (f : StoreFolder) × IsFolderAt self.now place f × IsFolder self.now number f) }
    {
        for (place, folder) in self.folders.iter().enumerate() {
            if folder.validity() == number {
                return Some(place);
            }
        }
        None
    }

    /// The folder of this name.
    pub fn named(&self, name: &[u8]) -> Option<&StoredFolder>
        ensures { MatchOption result (folder_called self.now.folders name.now ≡ None) (λ f. IsFolderNamed self.now name.now f.now) }
    {
        match self.place_named(name) {
            Some(place) => self.folders.get(place),
            None => None,
        }
    }

    /// The folder of this number.
    pub fn numbered(&self, number: u32) -> Option<&StoredFolder>
        ensures { MatchOption result (folder_numbered self.now.folders number ≡ None) (λ f. IsFolder self.now number f.now) }
    {
        match self.place_numbered(number) {
            Some(place) => self.folders.get(place),
            None => None,
        }
    }

    /// A UIDVALIDITY that no folder had; none where 2^32 - 1 was given.
    pub fn next_validity(&self) -> Option<u32>
        ensures { MatchOption result (2 ^ 32 ≤ changes.next_validity self.now) (λ validity. validity ≡ changes.next_validity self.now) }
    {
        let mut greatest: u32 = 0;
        for one in &self.uses {
            greatest = greatest.max(one.validity());
        }
        greatest.checked_add(1)
    }

    // ---- folders

    /// Makes a folder without messages.
    pub fn create(&mut self, alloc: Global, name: &[u8], validity: u32) -> Result<(), AllocError>
        ensures ok { OnOk result (self.new ≡ changes.mail_created self.old (changes.empty_folder name.now validity)) }
        ensures err { OnErr result (self.new ≡ self.old) }
    {
        let name = Bytes::copy_of(alloc, name)?;
        let used = StoredUse::new(name.share()?, validity);
        self.uses.push(used)?;
        match self.folders.push(StoredFolder::new(alloc, name, validity)) {
            Ok(()) => Ok(()),
            Err(_) => {
                let _used = self.uses.pop();
                Err(AllocError)
            }
        }
    }

    /// Ends the folder at the place.
    pub fn delete(&mut self, place: usize)
        requires folder { place < length self.old.folders }
        requires whole { IsStoreMail self.old }
        ensures { (f : StoreFolder) → IsFolderAt self.old place f → self.new ≡ changes.mail_deleted self.old f.name }
    {
        let _folder = self.folders.remove(place);
    }

    /// Renames a folder and those below it. The names are as they are told.
    pub fn rename(&mut self, alloc: Global, from: &[u8], to: &[u8]) -> Result<(), AllocError>
        ensures ok { OnOk result (self.new ≡ changes.mail_renamed self.old from.now to.now) }
        ensures err { OnErr result (self.new ≡ self.old) }
    {
        let mut new = new_names(alloc, &self.folders, from, to)?;
        self.uses.append(&mut new.uses)?;
        set_names(&mut self.folders, new.names);
        Ok(())
    }

    /// Subscribes the folder of the name, where it is there, or no longer.
    pub fn subscribe(&mut self, alloc: Global, name: &[u8], on: bool) -> Result<(), AllocError>
        requires { IsStoreMail self.old }
        ensures ok { OnOk result (self.new ≡ changes.mail_subscribed self.old (folder_name name.now) on) }
        ensures err { OnErr result (self.new ≡ self.old) }
    {
        let Some(place) = self.place_named(name) else {
            return Ok(());
        };
        let folder = &mut self.folders[place];
        let attributes = subscribed(alloc, on, folder.attributes().as_slice())?;
        folder.set_attributes(attributes);
        Ok(())
    }

    // ---- messages

    /// Gives the message at the place in its folder these flags, in kept form.
    pub fn set_flags(&mut self, place: usize, at: usize, flags: Names)
        requires folder { place < length self.old.folders }
        requires message { (f : StoreFolder) → IsFolderAt self.old place f → at < length f.messages }
        requires room { (f : StoreFolder) → IsFolderAt self.old place f → limits.is_last_change f ≡ false }
        requires whole { IsStoreMail self.old }
        ensures { (f : StoreFolder) (m : StoreMessage) → IsFolderAt self.old place f → IsMessageAt f at m
            → self.new ≡ changes.mail_flagged self.old (Some f) m.uid flags }
    {
        self.folders[place].set_flags(at, flags);
    }

    /// Puts a message from outside into the folder, and gives its UID. The flags are in kept form, the date is in seconds
    /// since 1970-01-01T00:00:00Z.
    pub fn put_message(
        &mut self,
        place: usize,
        flags: Names,
        date: i64,
        octets: Bytes,
    ) -> Result<u32, AllocError>
        requires folder { place < length self.old.folders }
        requires room { (f : StoreFolder) → IsFolderAt self.old place f → limits.is_last_message f ≡ false }
        requires whole { IsStoreMail self.old }
        ensures ok { IfOk result (λ uid. (f : StoreFolder) → IsFolderAt self.old place f
            → (uid ≡ f.uid_next) × (self.new ≡ changes.mail_with self.old (Some f) (changes.message_of flags date octets))) }
        ensures err { OnErr result (self.new ≡ self.old) }
    {
        let folder = &mut self.folders[place];
        let uid = folder.uid_next();
        let message = StoredMessage::new(uid, flags, folder.highest() + 1, date, octets);
        folder.put_message(message)?;
        Ok(uid)
    }

    /// Ends the message at the place in its folder.
    pub fn end_message(&mut self, place: usize, at: usize) -> Result<(), AllocError>
        requires folder { place < length self.old.folders }
        requires message { (f : StoreFolder) → IsFolderAt self.old place f → at < length f.messages }
        requires room { (f : StoreFolder) → IsFolderAt self.old place f → limits.is_last_change f ≡ false }
        requires whole { IsStoreMail self.old }
        ensures ok { OnOk result ((f : StoreFolder) (m : StoreMessage) → IsFolderAt self.old place f → IsMessageAt f at m
            → self.new ≡ changes.mail_without self.old (Some f) m.uid) }
        ensures err { OnErr result (self.new ≡ self.old) }
    {
        let folder = &mut self.folders[place];
        let modseq = folder.highest() + 1;
        folder.end_message(at, modseq)
    }

    /// The message at the place in its folder, as it comes to the other folder. Within one folder its end takes a
    /// mod-sequence first.
    fn copy_for(
        &self,
        alloc: Global,
        source: usize,
        at: usize,
        target: usize,
    ) -> Result<StoredMessage, AllocError>
        requires source { source < length self.now.folders }
        requires target { target < length self.now.folders }
        requires message { (f : StoreFolder) → IsFolderAt self.now source f → at < length f.messages }
        requires room { (t : StoreFolder) → IsFolderAt self.now target t → t.highest < 9223372036854775807 }
        ensures { IfOk result (λ copy. (f t : StoreFolder) (m : StoreMessage) → IsFolderAt self.now source f → IsFolderAt self.now target t
            → IsMessageAt f at m → copy ≡ record m { uid = t.uid_next; modseq = if source == target then t.highest + 2 else t.highest + 1 }) }
    {
        let folder = &self.folders[target];
        let uid = folder.uid_next();
        let modseq = if source == target {
            folder.highest() + 2
        } else {
            folder.highest() + 1
        };
        self.folders[source].messages()[at].share_as(alloc, uid, modseq)
    }

    /// Ends the message at the place in its folder, and puts it into the other.
    pub fn move_message(
        &mut self,
        alloc: Global,
        source: usize,
        at: usize,
        target: usize,
    ) -> Result<(), AllocError>
        requires source { source < length self.old.folders }
        requires target { target < length self.old.folders }
        requires message { (f : StoreFolder) → IsFolderAt self.old source f → at < length f.messages }
        requires room { (f : StoreFolder) → IsFolderAt self.old source f → limits.is_last_change f ≡ false }
        requires room_there { (f t : StoreFolder) (m : StoreMessage) → IsFolderAt self.old source f → IsMessageAt f at m
            → IsFolderAt (changes.mail_without self.old (Some f) m.uid) target t → limits.is_last_message t ≡ false }
        requires whole { IsStoreMail self.old }
        ensures ok { OnOk result ((f t : StoreFolder) (m : StoreMessage) → IsFolderAt self.old source f → IsMessageAt f at m
            → IsFolderAt (changes.mail_without self.old (Some f) m.uid) target t
            → self.new ≡ changes.mail_with (changes.mail_without self.old (Some f) m.uid) (Some t) m) }
        ensures err { OnErr result (self.new ≡ self.old) }
    {
        let copy = self.copy_for(alloc, source, at, target)?;
        let modseq = self.folders[source].highest() + 1;
        let uid_next = self.folders[target].uid_next();
        let highest = self.folders[target].highest();
        self.folders[target].put_message(copy)?;
        match self.folders[source].end_message(at, modseq) {
            Ok(()) => Ok(()),
            Err(error) => {
                self.folders[target].take_back(uid_next, highest);
                Err(error)
            }
        }
    }
}
