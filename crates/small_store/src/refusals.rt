// When a command is refused (RFC 9051 section 7.1.2).
ghost use Rattle.std.specs.Prelude.{◌≡◌, ◌≢◌, ℕ, ℤ, List, Some, None, IfOk, MatchBool, MatchOption};
ghost use Rattle.std.specs.List.{list_any};
ghost use Rattle.imap_types.specs.declared.command.Command.TheVariants as commands;
ghost use Rattle.small_answers.specs.Changes as changes;
ghost use Rattle.small_answers.specs.Causes.{NeedsSelected, RefusalCause};
ghost use Rattle.small_answers.specs.SmallMail.{IsSmallMail};
ghost use Rattle.small_store.specs.reading.Names as names;

use crate::machine::StoredMachine;
use crate::messages::is_full_for_move;
use imap_types::Command;
use octets::Names;
use small_mail::flags::{DELETED, MAX_TEXT_OCTETS, flags_after, has_name, kept, total_len};
use small_mail::names::{child_name, child_part, told_name};
use small_mail::{StoredFolder, StoredMail};
use std::alloc::{AllocError, Global};

/// Whether a folder of this name can't be made: there is one, or the name is too long.
fn is_name_refused(mail: &StoredMail, name: &[u8]) -> bool
    ensures { result ≡ names.is_name_refused mail.now name.now }
{
    if MAX_TEXT_OCTETS < name.len() {
        return true;
    }
    mail.named(name).is_some()
}

/// Whether a folder stands below the name.
fn has_children(folders: &[StoredFolder], name: &[u8]) -> bool
    ensures { result ≡ list_any (names.is_below name.now) folders.now }
{
    for folder in folders {
        if child_part(name, folder.name().as_slice()).is_some() {
            return true;
        }
    }
    false
}

/// Whether the folder, which stands below the one that is renamed, would get a name that can't be made.
fn refuses_child(
    alloc: Global,
    mail: &StoredMail,
    from: &[u8],
    to: &[u8],
    folder: &StoredFolder,
) -> Result<bool, AllocError>
    ensures { IfOk result (λ refused. refused ≡ names.is_child_refused mail.now from.now to.now folder.now) }
{
    let Some(rest) = child_part(from, folder.name().as_slice()) else {
        return Ok(false);
    };
    let name = child_name(alloc, to, rest)?;
    Ok(is_name_refused(mail, &name))
}

/// Whether a folder below the one that is renamed would get a name that can't be made.
fn refuses_children(
    alloc: Global,
    mail: &StoredMail,
    from: &[u8],
    to: &[u8],
) -> Result<bool, AllocError>
    ensures { IfOk result (λ refused. refused ≡ list_any (names.is_child_refused mail.now from.now to.now) mail.now.folders) }
{
    for folder in mail.folders() {
        if refuses_child(alloc, mail, from, to, folder)? {
            return Ok(true);
        }
    }
    Ok(false)
}

/// Whether the command needs a folder that is selected.
fn needs_selected(command: &Command) -> bool
    ensures { MatchBool result (NeedsSelected command.now) (NeedsSelected command.now → ⊥) }
{
    match command {
        Command::Unselect => true,
        Command::FetchFlags => true,
        Command::FetchSlice { .. } => true,
        Command::FetchNew { .. } => true,
        Command::FetchBody { .. } => true,
        Command::Store { .. } => true,
        Command::Move { .. } => true,
        Command::Expunge { .. } => true,
        _ => false,
    }
}

impl StoredMachine {
    /// Whether there is a cause to refuse the command.
    pub(crate) fn refuses(&self, command: &Command) -> Result<bool, AllocError>
        requires { IsSmallMail self.now.mail }
        ensures { IfOk result (λ refused. MatchBool refused (RefusalCause self.now command.now) (RefusalCause self.now command.now → ⊥)) }
    {
        if needs_selected(command) && self.selected.is_none() {
            return Ok(true);
        }
        match command {
            Command::Select { name, .. } => Ok(self.mail.named(name.as_slice()).is_none()),
            Command::Append { name, flags, .. } => self.refuses_append(name.as_slice(), flags),
            Command::Create { name } => Ok(self.refuses_create(name.as_slice())),
            Command::Delete { name } => Ok(self.refuses_delete(name.as_slice())),
            Command::Rename { from, to } => self.refuses_rename(from.as_slice(), to.as_slice()),
            Command::Subscribe { name, .. } => Ok(self.mail.named(name.as_slice()).is_none()),
            Command::Store { uid, add, flags } => self.refuses_store(*uid, *add, flags),
            Command::Move { uid, name } => Ok(self.refuses_move(*uid, name.as_slice())),
            Command::Expunge { uid } => Ok(self.refuses_expunge(*uid)),
            _ => Ok(false),
        }
    }

    /// CREATE (section 6.3.4).
    fn refuses_create(&self, name: &[u8]) -> bool
        ensures { MatchBool result (RefusalCause self.now (commands.Create name.now)) (RefusalCause self.now (commands.Create name.now) → ⊥) }
    {
        if is_name_refused(&self.mail, told_name(name)) {
            return true;
        }
        match self.mail.next_validity() {
            Some(_validity) => false,
            None => true,
        }
    }

    /// DELETE (section 6.3.5).
    fn refuses_delete(&self, name: &[u8]) -> bool
        ensures { MatchBool result (RefusalCause self.now (commands.Delete name.now)) (RefusalCause self.now (commands.Delete name.now) → ⊥) }
    {
        let told = told_name(name);
        if told == b"INBOX".as_slice() {
            return true;
        }
        let Some(_folder) = self.mail.named(name) else {
            return true;
        };
        has_children(self.mail.folders(), told)
    }

    /// RENAME (section 6.3.6).
    fn refuses_rename(&self, from: &[u8], to: &[u8]) -> Result<bool, AllocError>
        requires { IsSmallMail self.now.mail }
        ensures { IfOk result (λ refused. MatchBool refused (RefusalCause self.now (commands.Rename from.now to.now))
            (RefusalCause self.now (commands.Rename from.now to.now) → ⊥)) }
    {
        let told_from = told_name(from);
        let to = told_name(to);
        if told_from == b"INBOX".as_slice() {
            return Ok(true);
        }
        let Some(_folder) = self.mail.named(from) else {
            return Ok(true);
        };
        if is_name_refused(&self.mail, to) {
            return Ok(true);
        }
        refuses_children(self.alloc, &self.mail, told_from, to)
    }

    /// The folder that is selected, where it is there.
    fn selected_folder(&self) -> Option<&StoredFolder>
        ensures { MatchOption result (changes.selected_folder self.now ≡ None) (λ f. changes.selected_folder self.now ≡ Some f.now) }
    {
        match self.selected {
            Some(number) => self.mail.numbered(number),
            None => None,
        }
    }

    /// STORE while a folder is selected (section 6.4.6).
    fn refuses_store(&self, uid: u32, add: bool, flags: &Names) -> Result<bool, AllocError>
        requires { self.now.selected ≢ None }
        ensures { IfOk result (λ refused. MatchBool refused (RefusalCause self.now (commands.Store uid add flags.now))
            (RefusalCause self.now (commands.Store uid add flags.now) → ⊥)) }
    {
        let Some(folder) = self.selected_folder() else {
            return Ok(false);
        };
        let Some(message) = folder.message(uid) else {
            return Ok(false);
        };
        let flags = flags_after(
            self.alloc,
            add,
            flags.as_slice(),
            message.flags().as_slice(),
        )?;
        if MAX_TEXT_OCTETS < total_len(flags.as_slice()) {
            return Ok(true);
        }
        if !folder.is_last_change() {
            return Ok(false);
        }
        Ok(flags != *message.flags())
    }

    /// EXPUNGE while a folder is selected (section 6.4.9).
    fn refuses_expunge(&self, uid: u32) -> bool
        requires { self.now.selected ≢ None }
        ensures { MatchBool result (RefusalCause self.now (commands.Expunge uid)) (RefusalCause self.now (commands.Expunge uid) → ⊥) }
    {
        let Some(folder) = self.selected_folder() else {
            return false;
        };
        let Some(message) = folder.message(uid) else {
            return false;
        };
        if !folder.is_last_change() {
            return false;
        }
        has_name(message.flags().as_slice(), DELETED)
    }

    /// MOVE while a folder is selected (section 6.4.8).
    fn refuses_move(&self, uid: u32, name: &[u8]) -> bool
        requires selected { self.now.selected ≢ None }
        requires small { IsSmallMail self.now.mail }
        ensures { MatchBool result (RefusalCause self.now (commands.Move uid name.now)) (RefusalCause self.now (commands.Move uid name.now) → ⊥) }
    {
        let Some(source) = self.selected_place() else {
            return true;
        };
        let Some(target) = self.mail.place_named(name) else {
            return true;
        };
        let folder = &self.mail.folders()[source];
        let Some(_at) = folder.place_of(uid) else {
            return true;
        };
        if folder.is_last_change() {
            return true;
        }
        is_full_for_move(&self.mail, source, target)
    }

    /// APPEND (section 6.3.12).
    fn refuses_append(&self, name: &[u8], flags: &Names) -> Result<bool, AllocError>
        ensures { IfOk result (λ refused. (date : ℤ) (message : List ℕ)
            → MatchBool refused (RefusalCause self.now (commands.Append name.now flags.now date message))
            (RefusalCause self.now (commands.Append name.now flags.now date message) → ⊥)) }
    {
        let Some(folder) = self.mail.named(name) else {
            return Ok(true);
        };
        if folder.is_last_message() {
            return Ok(true);
        }
        let flags = kept(self.alloc, flags.as_slice(), &[])?;
        Ok(MAX_TEXT_OCTETS < total_len(flags.as_slice()))
    }
}
