// Mailboxes: one for each folder.
ghost use Rattle.std.specs.Prelude.{◌≡◌, IfOk};
ghost use Rattle.std.specs.Option.{option_copied, option_map};
ghost use Rattle.told_folder.specs.Keyed.{Ascends};
ghost use Rattle.told_folder.specs.Folders.{folder_number};
ghost use Rattle.mail_maps.specs.Mailboxes as mailboxes;
ghost use Rattle.mail_maps.specs.Mailboxes.{folders_of, row_as};
ghost use Rattle.mail_maps.specs.reading.Fronts.{AreLengths};

use crate::hierarchy::{name_lengths, own_name, parent_in};
use crate::rights::rights_of;
use crate::roles::{has, take_role};
use crate::tally::{FolderCounts, count_emails, counts_of};
use crate::{EmailRow, MailboxRow, Role};
use std::alloc::{AllocError, Global};
use std::collections::{BTreeMap, BTreeSet};
use told_folder::{Folder, NumberedFolder};
use told_mail::Mirror;

fn number_of(folder: Option<&Folder>) -> Option<u64>
    ensures { result ≡ option_map (λ f. f.number) (option_copied folder.entry) }
{
    match folder {
        Some(folder) => Some(folder.number),
        None => None,
    }
}

/// The Mailbox of a folder, with its role and its counts.
fn row_of(
    alloc: Global,
    mirror: &Mirror,
    lengths: &BTreeSet<usize>,
    folder: &Folder,
    role: Option<Role>,
    counts: FolderCounts,
) -> Result<MailboxRow, AllocError>
    requires { AreLengths lengths.now mirror.now.mail.folders }
    ensures { IfOk result (λ row. row ≡ row_as (folders_of mirror.now.mail.folders) folder.now role counts) }
{
    let parent = parent_in(mirror, lengths, folder);
    let name = own_name(alloc, parent, folder)?;
    let full_name = folder.name.share()?;
    Ok(MailboxRow {
        number: folder.number,
        name,
        full_name,
        parent: number_of(parent),
        role,
        subscribed: has(b"\\subscribed", folder),
        rights: rights_of(folder),
        total_emails: counts.total_emails,
        unread_emails: counts.unread_emails,
        total_threads: counts.total_threads,
        unread_threads: counts.unread_threads,
    })
}

/// Each of the mirror's folders as a Mailbox.
fn rows_for(
    alloc: Global,
    mirror: &Mirror,
    folders: &[NumberedFolder],
    emails: &BTreeMap<u64, EmailRow>,
) -> Result<BTreeMap<u64, MailboxRow>, AllocError>
    requires folders { folders.now ≡ mirror.now.mail.folders }
    requires ascend { Ascends folder_number folders.now }
    ensures { IfOk result (λ rows. rows.entries ≡ mailboxes.mailboxes_of folders.now emails.now.entries) }
{
    let counted = count_emails(alloc, emails)?;
    let lengths = name_lengths(alloc, folders)?;
    let mut taken = BTreeSet::new(alloc);
    let mut rows = BTreeMap::new(alloc);
    for held in folders {
        let folder = &held.folder;
        let counts = counts_of(&counted, folder.number);
        let role = take_role(&mut taken, folder)?;
        let row = row_of(alloc, mirror, &lengths, folder, role, counts)?;
        rows.insert(folder.number, row)?;
    }
    Ok(rows)
}

/// Each folder as a Mailbox. Emails are counted and roles are given in one pass each, and parents are looked up by their names.
pub fn mailboxes_of(
    alloc: Global,
    mirror: &Mirror,
    emails: &BTreeMap<u64, EmailRow>,
) -> Result<BTreeMap<u64, MailboxRow>, AllocError>
    ensures { IfOk result (λ rows. rows.entries ≡ mailboxes.mailboxes_of mirror.now.mail.folders emails.now.entries) }
{
    mirror.each_is_mail();
    rows_for(alloc, mirror, mirror.folders(), emails)
}
