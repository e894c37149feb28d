// Folders and messages that are put into a mirror and cut out of it.
ghost use Rattle.std.specs.Prelude.{◌≡◌, ◌≢◌, ℕ, ◌+◌, ◌^◌, ◌<◌, ◌≤◌, max, None, Some, length, IsSome, OnOk, OnErr, IfSome, OnSome, IfNone, take, drop, ◌++◌};
ghost use Rattle.told_folder.specs.Folders.{folder_number, folder_in, held_in, message_in, mark_in};
ghost use Rattle.told_folder.specs.Places.{IsHeldAt, IsFreeAt};
ghost use Rattle.told_folder.specs.declared.telling.TheConstants.{MAX_MARK};
ghost use Rattle.told_mail.specs.declared.mirror.listing.TheConstants.{MAX_FOLDER_NUMBER};
ghost use Rattle.told_mail.specs.Mail.{with_folder, with_message, without_folder, Cuts, NameIsFree, IsKept};
ghost use Rattle.told_mail.specs.Told.{counted_up};

use super::Mirror;
use crate::names::{change_name, cut_name, put_name};
use crate::{Folder, Message, NumberedFolder};
use octets::Listed;
use std::alloc::AllocError;
use told_folder::keyed::index_of;
use told_folder::puts::{cut_at, one_more, put_in};
use told_folder::telling::clear_marks;
use told_folder::uids::AllUids;

/// The next mark, once this one is given.
fn next_after(next: u64, mark: u64) -> u64
    requires { MAX_MARK < mark → mark < next }
    ensures { result ≡ max next (mark + 1) }
{
    if mark < next { next } else { mark + 1 }
}

impl Mirror {
    /// Puts a message into a folder: one of a mark up to the last one, or of a mark that was given before. A refusal changes
    /// nothing.
    pub fn put_message(&mut self, folder: u64, message: Message) -> Result<(), AllocError>
        requires there { IsSome (held_in self.old.mail.folders folder) }
        requires new_uid { message_in self.old.mail.folders folder message.uid ≡ None }
        requires new_mark { (p : ℕ × ℕ) → mark_in self.old.mail.folders p ≢ Some message.mark }
        requires mark { MAX_MARK < message.mark → message.mark < self.old.mail.next_mark }
        ensures ok { OnOk result (self.new.mail ≡ with_message self.old.mail folder message) }
        ensures counted { OnOk result (self.new.changes ≡ counted_up self.old.changes) }
        ensures err { OnErr result (self.new ≡ self.old) }
    {
        let mark = message.mark;
        let uid = message.uid;
        let Ok(at) = index_of(self.folders.as_slice(), folder) else {
            unreachable!()
        };
        self.marks.insert(mark, (folder, uid))?;
        let held = &mut self.folders[at];
        match put_in(self.alloc, held, message) {
            Ok(()) => {
                self.next_mark = next_after(self.next_mark, mark);
                self.changes = one_more(self.changes);
                Ok(())
            }
            Err(e) => {
                self.marks.remove(&mark);
                Err(e)
            }
        }
    }

    /// Takes out the folder at a place, with its messages.
    fn cut_at_place(&mut self, at: usize)
        requires { at < length self.old.mail.folders }
        ensures mail { self.new.mail ≡ record self.old.mail { folders = take at self.old.mail.folders ++ drop (at + 1) self.old.mail.folders } }
        ensures counted { self.new.changes ≡ counted_up self.old.changes }
    {
        let held = self.folders.remove(at);
        clear_marks(held.messages.as_slice(), &AllUids, &mut self.marks);
        cut_name(&mut self.numbers, held.folder.name.as_slice());
        self.changes = one_more(self.changes);
    }

    /// Takes a folder out, with its messages; nothing where there is none. It takes no memory.
    pub fn cut_folder(&mut self, number: u64)
        ensures mail { self.new.mail ≡ without_folder self.old.mail number }
        ensures none { folder_in self.old.mail.folders number ≡ None → self.new ≡ self.old }
        ensures counted { IsSome (folder_in self.old.mail.folders number) → self.new.changes ≡ counted_up self.old.changes }
    {
        match index_of(self.folders.as_slice(), number) {
            Ok(at) => self.cut_at_place(at),
            Err(_) => {}
        }
    }

    /// Takes these fields for the folder at a place, which keeps its messages. A refusal changes nothing.
    fn set_folder_at(&mut self, at: usize, folder: Folder) -> Result<(), AllocError>
        requires held { IsHeldAt folder_number folder.number self.old.mail.folders at }
        requires name { NameIsFree self.old.mail.folders folder }
        ensures ok { OnOk result (self.new.mail ≡ with_folder self.old.mail folder) }
        ensures counted { OnOk result (self.new.changes ≡ counted_up self.old.changes) }
        ensures err { OnErr result (self.new ≡ self.old) }
    {
        let held = &mut self.folders[at];
        change_name(
            self.alloc,
            &mut self.numbers,
            held.folder.name.as_slice(),
            folder.name.as_slice(),
            folder.number,
        )?;
        held.folder = folder;
        self.changes = one_more(self.changes);
        Ok(())
    }

    /// Puts a folder of a new number at its place, without messages. A refusal changes nothing.
    fn put_folder_at(&mut self, place: usize, folder: Folder) -> Result<(), AllocError>
        requires free { IsFreeAt folder_number folder.number self.old.mail.folders place }
        requires number { folder.number ≤ MAX_FOLDER_NUMBER }
        requires name { NameIsFree self.old.mail.folders folder }
        ensures ok { OnOk result (self.new.mail ≡ with_folder self.old.mail folder) }
        ensures counted { OnOk result (self.new.changes ≡ counted_up self.old.changes) }
        ensures err { OnErr result (self.new ≡ self.old) }
    {
        let number = folder.number;
        self.folders.reserve(1)?;
        put_name(
            self.alloc,
            &mut self.numbers,
            folder.name.as_slice(),
            number,
        )?;
        let messages = Listed::from_vec(Vec::new(self.alloc));
        let Ok(()) = self
            .folders
            .insert(place, NumberedFolder { folder, messages })
        else {
            unreachable!()
        };
        self.next_folder = self.next_folder.max(number + 1);
        self.changes = one_more(self.changes);
        Ok(())
    }

    /// Puts a folder, or takes these fields for the one of its number, which keeps its messages.
    /// A refusal changes nothing.
    pub fn put_folder(&mut self, folder: Folder) -> Result<(), AllocError>
        requires positive { 0 < folder.number }
        requires number { folder.number ≤ MAX_FOLDER_NUMBER }
        requires name { NameIsFree self.old.mail.folders folder }
        requires delimiter { folder.delimiter ≢ Some 0 }
        requires next { 0 < folder.next }
        requires last { folder.next ≤ 2 ^ 32 }
        requires attributes { IsKept folder.attributes }
        ensures ok { OnOk result (self.new.mail ≡ with_folder self.old.mail folder) }
        ensures counted { OnOk result (self.new.changes ≡ counted_up self.old.changes) }
        ensures err { OnErr result (self.new ≡ self.old) }
    {
        match index_of(self.folders.as_slice(), folder.number) {
            Ok(at) => self.set_folder_at(at, folder),
            Err(place) => self.put_folder_at(place, folder),
        }
    }

    /// Takes the message of a mark out. It takes no memory.
    pub fn cut_message(&mut self, mark: u64) -> Option<Message>
        ensures cut { IfSome result (Cuts self.old.mail self.new.mail mark) }
        ensures none { IfNone result ((p : ℕ × ℕ) → mark_in self.old.mail.folders p ≢ Some mark) }
        ensures same { IfNone result (self.new ≡ self.old) }
        ensures counted { OnSome result (self.new.changes ≡ counted_up self.old.changes) }
    {
        let Some((folder, uid)) = self.marks.remove(&mark) else {
            return None;
        };
        let Ok(at) = index_of(self.folders.as_slice(), folder) else {
            unreachable!()
        };
        let held = &mut self.folders[at];
        let Ok(place) = index_of(held.messages.as_slice(), u64::from(uid)) else {
            unreachable!()
        };
        let message = cut_at(self.alloc, held, uid, place);
        self.changes = one_more(self.changes);
        Some(message)
    }
}
