// What may be told of a check: no flag, no header, no body, and no text of the store's but names of folders, and how octets begin that can't
// be read, up to a quoted string or a literal.
ghost use Rattle.std.specs.Prelude.{◌≡◌, IfOk, map, length, fold};
ghost use Rattle.mail_maps.specs.Mailboxes.{mailboxes_of as mailboxes_told};
ghost use Rattle.check_report.specs.Findings as findings;

use imap_client::is_selectable;
use mail_maps::{MailboxRow, Role, mailboxes_of};
use octets::Bytes;
use std::alloc::{AllocError, Global};
use std::collections::BTreeMap;
use store_causes::{Checked, StoreCause};
use told_mail::{Message, Mirror, NumberedFolder};

/// What may be told of a folder.
#[derive(Debug, Drop)]
pub struct FolderFinding {
    /// As the store told it.
    pub name: Bytes,
    /// Whether it can be selected.
    pub selectable: bool,
    /// 0 where none is told.
    pub validity: u32,
    /// 0 where it has no mod-sequences.
    pub modseq: u64,
    /// How many messages it has.
    pub messages: u64,
    /// The octets of their headers, up to 2^64 - 1.
    pub header_octets: u64,
    /// What it is served as.
    pub role: Option<Role>,
}

/// What may be told of a check.
#[derive(Debug, Drop)]
pub struct Finding {
    /// Whether the greeting was PREAUTH; none where no greeting let the client in.
    pub preauth: Option<bool>,
    /// Whether the user is let in.
    pub let_in: bool,
    /// Whether special uses are told.
    pub special_use: bool,
    /// The folders, by number.
    pub folders: Vec<FolderFinding>,
    /// None where the store can be used.
    pub cause: Option<StoreCause>,
    /// Whether a first round was done, so that the cause comes of the second.
    pub again: bool,
    /// How octets begin that can't be read.
    pub beginning: Option<Bytes>,
}

fn role_at(rows: &BTreeMap<u64, MailboxRow>, number: u64) -> Option<Role>
    ensures { result ≡ findings.role_at rows.now.entries number }
{
    match rows.get(&number) {
        Some(row) => row.role,
        None => None,
    }
}

fn header_octets(messages: &[Message]) -> u64
    ensures { result ≡ findings.header_octets messages.now }
{
    let mut octets: u64 = 0;
    for message in messages {
        octets = octets.saturating_add(message.header.as_slice().len() as u64);
    }
    octets
}

fn folder_finding(held: &NumberedFolder, role: Option<Role>) -> Result<FolderFinding, AllocError>
    ensures { IfOk result (λ found. found ≡ findings.folder_finding held.now role) }
{
    let messages = held.messages.as_slice();
    Ok(FolderFinding {
        name: held.folder.name.share()?,
        selectable: is_selectable(held),
        validity: held.folder.validity,
        modseq: held.folder.modseq,
        messages: messages.len() as u64,
        header_octets: header_octets(messages),
        role,
    })
}

fn folder_findings(alloc: Global, mirror: &Mirror) -> Result<Vec<FolderFinding>, AllocError>
    ensures { IfOk result (λ found. found.items ≡ findings.folder_findings mirror.now.mail.folders) }
{
    let emails = BTreeMap::new(alloc);
    let rows = mailboxes_of(alloc, mirror, &emails)?;
    let mut found = Vec::new(alloc);
    for held in mirror.folders() {
        found.push(folder_finding(held, role_at(&rows, held.folder.number))?)?;
    }
    Ok(found)
}

/// What may be told of the check.
pub fn finding_of(alloc: Global, checked: Checked) -> Result<Finding, AllocError>
    ensures { IfOk result (λ finding. findings.IsFindingOf checked finding) }
{
    let folders = folder_findings(alloc, &checked.mirror)?;
    let Checked {
        preauth,
        let_in,
        special_use,
        cause,
        again,
        beginning,
        ..
    } = checked;
    Ok(Finding {
        preauth,
        let_in,
        special_use,
        folders,
        cause,
        again,
        beginning,
    })
}
