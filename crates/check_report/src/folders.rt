// Lines on folders.
ghost use Rattle.std.specs.Prelude.{◌≡◌, ◌++◌, OnOk};
ghost use Rattle.std.specs.List.{flat_map};
ghost use Rattle.check_report.specs.Lines as lines;

use crate::finding::FolderFinding;
use crate::pieces::{digits, put};
use crate::shown::shown;
use mail_maps::Role;
use std::alloc::{AllocError, Global};

/// Before a folder's validity.
pub const UIDVALIDITY: &str = "UIDVALIDITY ";
/// Before the number of a folder's messages.
pub const MESSAGES: &str = "messages ";
/// Before the octets of headers.
pub const HEADERS: &str = ", octets of headers ";
/// Before the number of messages that a first round takes.
pub const ROUND: &str = "what a first round takes: messages ";
/// Before the number of its folders.
pub const FOLDERS: &str = ", folders ";

fn role_name(role: Role) -> &'static [u8]
    ensures { result.now ≡ lines.role_name role }
{
    match role {
        Role::Inbox => b"inbox",
        Role::All => b"all",
        Role::Archive => b"archive",
        Role::Drafts => b"drafts",
        Role::Flagged => b"flagged",
        Role::Junk => b"junk",
        Role::Sent => b"sent",
        Role::Trash => b"trash",
    }
}

fn put_role(out: &mut Vec<u8>, role: Option<Role>) -> Result<(), AllocError>
    ensures { OnOk result (out.new.items ≡ out.old.items ++ lines.role_piece role) }
{
    match role {
        Some(role) => {
            put(out, b", role ")?;
            put(out, role_name(role))?;
            Ok(())
        }
        None => Ok(()),
    }
}

fn put_modseq(alloc: Global, out: &mut Vec<u8>, modseq: u64) -> Result<(), AllocError>
    ensures { OnOk result (out.new.items ≡ out.old.items ++ lines.modseq_piece modseq) }
{
    if modseq == 0 {
        return put(out, b"no mod-sequences (all flags are asked each time), ");
    }
    let modseq = digits(alloc, modseq)?;
    put(out, b"HIGHESTMODSEQ ")?;
    put(out, modseq.as_bytes())?;
    put(out, b", ")?;
    Ok(())
}

fn put_counts(alloc: Global, out: &mut Vec<u8>, found: &FolderFinding) -> Result<(), AllocError>
    ensures { OnOk result (out.new.items ≡ out.old.items ++ lines.counts_piece found.now) }
{
    let messages = digits(alloc, found.messages)?;
    let octets = digits(alloc, found.header_octets)?;
    put(out, MESSAGES.as_bytes())?;
    put(out, messages.as_bytes())?;
    put(out, HEADERS.as_bytes())?;
    put(out, octets.as_bytes())?;
    put_role(out, found.role)?;
    Ok(())
}

// What a SELECT told of the folder, and what is fetched in it.
fn put_selected(alloc: Global, out: &mut Vec<u8>, found: &FolderFinding) -> Result<(), AllocError>
    ensures { OnOk result (out.new.items ≡ out.old.items ++ lines.selected_piece found.now) }
{
    let validity = digits(alloc, u64::from(found.validity))?;
    put(out, UIDVALIDITY.as_bytes())?;
    put(out, validity.as_bytes())?;
    put(out, b", ")?;
    put_modseq(alloc, out, found.modseq)?;
    put_counts(alloc, out, found)?;
    Ok(())
}

fn put_told(alloc: Global, out: &mut Vec<u8>, found: &FolderFinding) -> Result<(), AllocError>
    ensures { OnOk result (out.new.items ≡ out.old.items ++ lines.told_piece found.now) }
{
    if !found.selectable {
        return put(out, b"can't be selected, and is passed over");
    }
    if found.validity == 0 {
        return put(out, b"not selected yet");
    }
    put_selected(alloc, out, found)
}

fn put_folder(alloc: Global, out: &mut Vec<u8>, found: &FolderFinding) -> Result<(), AllocError>
    ensures { OnOk result (out.new.items ≡ out.old.items ++ lines.folder_line found.now) }
{
    let name = shown(alloc, found.name.as_slice())?;
    put(out, name.as_slice())?;
    put(out, b": ")?;
    put_told(alloc, out, found)?;
    put(out, b"\n")?;
    Ok(())
}

/// A line on each folder.
pub fn put_folders(
    alloc: Global,
    out: &mut Vec<u8>,
    found: &[FolderFinding],
) -> Result<(), AllocError>
    ensures { OnOk result (out.new.items ≡ out.old.items ++ flat_map lines.folder_line found.now) }
{
    for folder in found {
        put_folder(alloc, out, folder)?;
    }
    Ok(())
}

fn messages_of(found: &[FolderFinding]) -> u64
    ensures { result ≡ lines.messages_of found.now }
{
    let mut messages: u64 = 0;
    for folder in found {
        messages = messages.saturating_add(folder.messages);
    }
    messages
}

fn octets_of(found: &[FolderFinding]) -> u64
    ensures { result ≡ lines.octets_of found.now }
{
    let mut octets: u64 = 0;
    for folder in found {
        octets = octets.saturating_add(folder.header_octets);
    }
    octets
}

fn folders_of(found: &[FolderFinding]) -> usize
    ensures { result ≡ lines.folders_of found.now }
{
    found.iter().filter(|folder| folder.selectable).count()
}

fn put_taken(alloc: Global, out: &mut Vec<u8>, found: &[FolderFinding]) -> Result<(), AllocError>
    ensures { OnOk result (out.new.items ≡ out.old.items ++ lines.taken_piece found.now) }
{
    let folders = digits(alloc, folders_of(found) as u64)?;
    let octets = digits(alloc, octets_of(found))?;
    put(out, FOLDERS.as_bytes())?;
    put(out, folders.as_bytes())?;
    put(out, HEADERS.as_bytes())?;
    put(out, octets.as_bytes())?;
    put(out, b"\n")?;
    Ok(())
}

/// What the first round takes.
pub fn put_round(
    alloc: Global,
    out: &mut Vec<u8>,
    found: &[FolderFinding],
) -> Result<(), AllocError>
    ensures { OnOk result (out.new.items ≡ out.old.items ++ lines.round_line found.now) }
{
    let messages = digits(alloc, messages_of(found))?;
    put(out, ROUND.as_bytes())?;
    put(out, messages.as_bytes())?;
    put_taken(alloc, out, found)?;
    Ok(())
}
