//! Mail stays well formed, and what is told leads to mail that can follow, as clauses of functions that do nothing.
ghost use Rattle.told_mail.specs.Exchanges.{tell};
ghost use Rattle.std.specs.Prelude.{◌≢◌, ℕ, List, Some, fold};
ghost use Rattle.told_folder.specs.Folders.{mark_in};
ghost use Rattle.told_mail.specs.Mail.{Mail, with_folder, with_message, without_folder, without_message, IsWellFormed, IsWellFormedFolder, IsWellFormedMessage};
ghost use Rattle.told_mail.specs.Mail.{no_mail, IsMail, IsNextMail, IsHeldOrNew, NameIsFree};
ghost use Rattle.told_mail.specs.Mail.{with_attributes, with_flags, IsKept};
ghost use Rattle.told_mail.specs.Renames.{with_renamed};
ghost use Rattle.told_mail.specs.Spelled.{AllSpelled, FitsSlice};

use crate::{Exchange, Folder, Message};
use imap_types::Command;

/// The type of a slice says that it ends at a UID.
fn fits_slice(command: &Command)
    ensures { FitsSlice command.now }
{
    match command {
        Command::FetchSlice { to, .. } => {
            // (reading it says that it fits its type)
            let _to = *to;
        }
        _ => {}
    }
}

/// Telling keeps mail well formed, where each response is the value of a spelling.
pub fn telling_keeps_well_formed(exchange: &Exchange)
    ensures { (m : Mail) → AllSpelled exchange.now.responses → IsWellFormed m → IsWellFormed (tell m exchange.now) }
{
    fits_slice(&exchange.command);
}

/// Mail stays well formed where such a folder is put.
pub fn putting_keeps_folders(folder: &Folder)
    ensures { (m : Mail) → IsWellFormedFolder folder.now → IsWellFormed m → IsWellFormed (with_folder m folder.now) }
{}

/// Mail stays well formed where such a message is put.
pub fn putting_keeps_messages(message: &Message)
    ensures { (m : Mail) (number : ℕ) → IsWellFormedMessage message.now → IsWellFormed m → IsWellFormed (with_message m number message.now) }
{}

/// Mail stays well formed where a folder or a message is taken out.
pub fn cutting_keeps_well_formed()
    ensures folders { (m : Mail) (number : ℕ) → IsWellFormed m → IsWellFormed (without_folder m number) }
    ensures messages { (m : Mail) (place : ℕ × ℕ) → IsWellFormed m → IsWellFormed (without_message m place) }
{}

/// The mail after an exchange can follow the mail before it, and so can the mail after any number of exchanges.
pub fn telling_goes_on()
    ensures one { (m : Mail) (x : Exchange) → IsMail m → IsNextMail m (tell m x) }
    ensures all { (m : Mail) (xs : List Exchange) → IsMail m → IsNextMail m (fold tell m xs) }
{}

/// Mail with a folder can follow where the folder's number is held or new, and mail with a message where its mark is new.
pub fn putting_goes_on()
    ensures folders { (m : Mail) (f : Folder) → IsMail m → NameIsFree m.folders f → IsHeldOrNew m f.number → IsNextMail m (with_folder m f) }
    ensures messages { (m : Mail) (number : ℕ) (x : Message) → IsMail m → ((p : ℕ × ℕ) → mark_in m.folders p ≢ Some x.mark) → IsNextMail m (with_message m number x) }
{}

/// Mail without a folder or a message can follow.
pub fn cutting_goes_on()
    ensures folders { (m : Mail) (number : ℕ) → IsMail m → IsNextMail m (without_folder m number) }
    ensures messages { (m : Mail) (place : ℕ × ℕ) → IsMail m → IsNextMail m (without_message m place) }
{}

/// What can follow mail that can follow other mail can follow that, too.
pub fn next_mail_joins()
    ensures { (a b c : Mail) → IsNextMail a b → IsNextMail b c → IsNextMail a c }
{}

/// Well-formed mail can follow where there was none.
pub fn mail_begins()
    ensures { (m : Mail) → IsMail m → IsWellFormed m → IsNextMail no_mail m }
{}

/// Mail with other flags of a message, with other attributes of a folder or after a RENAME can follow.
pub fn setting_goes_on()
    ensures flags { (m : Mail) → IsMail m → (n uid : ℕ) (flags : List (List ℕ)) → IsNextMail m (with_flags m n uid flags) }
    ensures attributes { (m : Mail) → IsMail m → (n : ℕ) (attributes : List (List ℕ)) → IsNextMail m (with_attributes m n attributes) }
    ensures renames { (m : Mail) (from to : List ℕ) → IsMail m → IsNextMail m (with_renamed m from to) }
{}

/// Mail stays well formed where a message gets flags in kept form, or a folder attributes, and where folders are renamed.
pub fn setting_keeps_well_formed()
    ensures flags { (m : Mail) (n uid : ℕ) (flags : List (List ℕ)) → IsKept flags → IsWellFormed m → IsWellFormed (with_flags m n uid flags) }
    ensures attributes { (m : Mail) (n : ℕ) (attributes : List (List ℕ)) → IsKept attributes → IsWellFormed m → IsWellFormed (with_attributes m n attributes) }
    ensures renames { (m : Mail) (from to : List ℕ) → IsWellFormed m → IsWellFormed (with_renamed m from to) }
{}
