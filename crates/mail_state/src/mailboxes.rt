// Mailboxes as Emails and folders change.
ghost use Rattle.std.specs.Prelude.{◌≡◌, IfOk};
ghost use Rattle.mail_state.specs.reading.Boxes.{BoxesStay, StepsMailboxes, stripped_folders};

use crate::kept_folders::{are_kept, strip};
use crate::recount::recount;
use change_list::Entry;
use mail_maps::{EmailRow, MailboxRow, mailboxes_of};
use served_maps::steps::steps_between;
use std::alloc::{AllocError, Global};
use std::collections::BTreeMap;
use told_folder::Folder;
use told_mail::Mirror;

/// The Mailboxes of the folders and Emails, with the touches that lead to them, and the folders that they were made of. They
/// are made anew where a Mailbox would show a folder otherwise. Else only their counts are, where an Email was touched, and
/// where none was they stay as they are, and no memory is taken.
pub fn follow_mailboxes(
    alloc: Global,
    kept: Vec<Folder>,
    old: BTreeMap<u64, MailboxRow>,
    mirror: &Mirror,
    emails: &BTreeMap<u64, EmailRow>,
    touches: &[Entry],
) -> Result<(BTreeMap<u64, MailboxRow>, Vec<Entry>, Vec<Folder>), AllocError>
    ensures steps { IfOk result (λ r. BoxesStay old.entries kept.items emails.now.entries touches.now
        → StepsMailboxes old.entries mirror.now.mail.folders emails.now.entries r.0.entries r.1.items) }
    ensures folders { IfOk result (λ r. r.2.items ≡ stripped_folders mirror.now.mail.folders) }
{
    let folders = mirror.folders();
    // (the length says that its keys ascend)
    let _count = old.len();
    if !are_kept(kept.as_slice(), folders) {
        let mailboxes = mailboxes_of(alloc, mirror, emails)?;
        let steps = steps_between(alloc, &old, &mailboxes)?;
        let stripped = strip(alloc, folders)?;
        return Ok((mailboxes, steps, stripped));
    }
    if touches.is_empty() {
        return Ok((old, Vec::new(alloc), kept));
    }
    let (recounted, steps) = recount(alloc, old, emails)?;
    Ok((recounted, steps, kept))
}
