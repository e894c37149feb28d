// What the store's owner does to its mail, beside the clients. Where a number would pass its end, or memory is wanting, nothing changes.
ghost use Rattle.std.specs.Prelude.{◌≡◌, ◌<◌, ◌^◌, ◌∷◌, [], length, IfOk, OnErr, MatchOption, Some, None, slice_get};
ghost use Rattle.honest_store.specs.StoreMail.{StoreFolder, StoreMessage};
ghost use Rattle.honest_store.specs.WellFormed.{nearest_date};
ghost use Rattle.small_mail.specs.Places.{IsFolderAt, IsMessageAt};
ghost use Rattle.small_answers.specs.OwnersCalls as calls;
ghost use Rattle.small_responses.specs.Tellable.{IsTellableMail};

use crate::machine::StoredMachine;
use crate::messages::is_full_for_move;
use octets::{Bytes, Names};
use small_mail::StoredMail;
use small_mail::flags::{SEEN, flags_after, has_name};
use std::alloc::{AllocError, Global};

/// The places of the folder and of the message in it, of the message at this place among all, in the order of folders.
fn place_among_all(mail: &StoredMail, at: usize) -> Option<(usize, usize)>
    ensures { MatchOption result (calls.message_at_place mail.now at ≡ None) (λ p. (f : StoreFolder) × (m : StoreMessage)
        × IsFolderAt mail.now p.0 f × IsMessageAt f p.1 m × (calls.message_at_place mail.now at ≡ Some (f, m))) }
{
    let mut left = at;
    for (place, folder) in mail.folders().iter().enumerate() {
        let len = folder.messages().len();
        if left < len {
            return Some((place, left));
        }
        left -= len;
    }
    None
}

/// The other of INBOX and Archive.
fn other_folder(name: &[u8]) -> &'static [u8]
    ensures { result.now ≡ calls.other_folder name.now }
{
    if name == b"INBOX".as_slice() {
        b"Archive"
    } else {
        b"INBOX"
    }
}

/// `\Seen` alone.
fn seen_flag(alloc: Global) -> Result<Names, AllocError>
    ensures { IfOk result (λ names. names ≡ calls.seen_flag ∷ []) }
{
    let mut names = Names::new(alloc);
    names.push(Bytes::copy_of(alloc, SEEN)?)?;
    Ok(names)
}

impl StoredMachine {
    /// Delivers a message to the folder. False where no such folder is there, or a number would pass its end. The date is in
    /// seconds since 1970-01-01T00:00:00Z, within the years 0 to 9999.
    pub(crate) fn deliver(
        &mut self,
        folder: &[u8],
        message: &[u8],
        date: i64,
    ) -> Result<bool, AllocError>
        requires tellable { IsTellableMail self.old.mail }
        requires date { nearest_date date ≡ date }
        requires fits { length message.now < 2 ^ 63 }
        ensures ok { IfOk result (λ done. calls.CallGives self.old.mail (calls.delivered self.old.mail folder.now message.now date) done self.new.mail) }
        ensures selected { self.new.selected ≡ self.old.selected }
        ensures tellable { IsTellableMail self.new.mail }
        ensures err { OnErr result (self.new ≡ self.old) }
    {
        let Some(place) = self.mail.place_named(folder) else {
            return Ok(false);
        };
        if self.mail.folders()[place].is_last_message() {
            return Ok(false);
        }
        let octets = Bytes::copy_of(self.alloc, message)?;
        let flags = Names::new(self.alloc);
        let _uid = self.mail.put_message(place, flags, date, octets)?;
        Ok(true)
    }

    /// Sets `\Seen` of the message at the place among all, from 0 on, or takes it. False where none is there, or a number would
    /// pass its end.
    pub(crate) fn toggle_seen(&mut self, at: usize) -> Result<bool, AllocError>
        requires tellable { IsTellableMail self.old.mail }
        ensures ok { IfOk result (λ done. calls.CallGives self.old.mail (calls.seen_toggled self.old.mail (calls.message_at_place self.old.mail at)) done self.new.mail) }
        ensures selected { self.new.selected ≡ self.old.selected }
        ensures tellable { IsTellableMail self.new.mail }
        ensures err { OnErr result (self.new ≡ self.old) }
    {
        let Some((place, at)) = place_among_all(&self.mail, at) else {
            return Ok(false);
        };
        let folder = &self.mail.folders()[place];
        if folder.is_last_change() {
            return Ok(false);
        }
        let was = folder.messages()[at].flags();
        let seen = seen_flag(self.alloc)?;
        let add = !has_name(was.as_slice(), SEEN);
        let flags = flags_after(self.alloc, add, seen.as_slice(), was.as_slice())?;
        self.mail.set_flags(place, at, flags);
        Ok(true)
    }

    /// Moves the message at the place to the other of INBOX and Archive. False as in `toggle_seen`, and where that folder isn't
    /// there.
    pub(crate) fn shift(&mut self, at: usize) -> Result<bool, AllocError>
        requires tellable { IsTellableMail self.old.mail }
        ensures ok { IfOk result (λ done. calls.CallGives self.old.mail (calls.shifted self.old.mail (calls.message_at_place self.old.mail at)) done self.new.mail) }
        ensures selected { self.new.selected ≡ self.old.selected }
        ensures tellable { IsTellableMail self.new.mail }
        ensures err { OnErr result (self.new ≡ self.old) }
    {
        let Some((source, at)) = place_among_all(&self.mail, at) else {
            return Ok(false);
        };
        let folder = &self.mail.folders()[source];
        let other = other_folder(folder.name().as_slice());
        let Some(target) = self.mail.place_named(other) else {
            return Ok(false);
        };
        if folder.is_last_change() || is_full_for_move(&self.mail, source, target) {
            return Ok(false);
        }
        self.mail.move_message(self.alloc, source, at, target)?;
        Ok(true)
    }

    /// Ends the message at the place. False as in `toggle_seen`.
    pub(crate) fn expunge(&mut self, at: usize) -> Result<bool, AllocError>
        requires tellable { IsTellableMail self.old.mail }
        ensures ok { IfOk result (λ done. calls.CallGives self.old.mail (calls.message_expunged self.old.mail (calls.message_at_place self.old.mail at)) done self.new.mail) }
        ensures selected { self.new.selected ≡ self.old.selected }
        ensures tellable { IsTellableMail self.new.mail }
        ensures err { OnErr result (self.new ≡ self.old) }
    {
        let Some((place, at)) = place_among_all(&self.mail, at) else {
            return Ok(false);
        };
        if self.mail.folders()[place].is_last_change() {
            return Ok(false);
        }
        self.mail.end_message(place, at)?;
        Ok(true)
    }
}
