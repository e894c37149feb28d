// The folders that Mailboxes were made of, without what no Mailbox shows of them.
ghost use Rattle.std.specs.Prelude.{◌≡◌, IfOk};
ghost use Rattle.mail_state.specs.reading.Boxes.{are_stripped, is_stripped, stripped, stripped_folders};

use std::alloc::{AllocError, Global};
use told_folder::{Folder, NumberedFolder};

/// A folder without what no Mailbox shows of it. Its octets are shared.
fn stripped_of(alloc: Global, folder: &Folder) -> Result<Folder, AllocError>
    ensures { IfOk result (λ f. f ≡ stripped folder.now) }
{
    let name = folder.name.share()?;
    let attributes = folder.attributes.share(alloc)?;
    Ok(Folder {
        number: folder.number,
        name,
        delimiter: folder.delimiter,
        attributes,
        validity: 0,
        modseq: 0,
        next: 0,
    })
}

/// The folders without what no Mailbox shows of them.
pub fn strip(alloc: Global, folders: &[NumberedFolder]) -> Result<Vec<Folder>, AllocError>
    ensures { IfOk result (λ v. v.items ≡ stripped_folders folders.now) }
{
    let mut stripped = Vec::new(alloc);
    for held in folders {
        let folder = stripped_of(alloc, &held.folder)?;
        stripped.push(folder)?;
    }
    Ok(stripped)
}

/// Whether this is the folder without what no Mailbox shows of it.
fn is_stripped(kept: &Folder, folder: &Folder) -> bool
    ensures { result ≡ is_stripped kept.now folder.now }
{
    kept.number == folder.number
        && kept.name == folder.name
        && kept.delimiter == folder.delimiter
        && kept.attributes == folder.attributes
        && kept.validity == 0
        && kept.modseq == 0
        && kept.next == 0
}

/// Whether these are the folders without what no Mailbox shows of them. It takes no memory.
pub fn are_kept(kept: &[Folder], folders: &[NumberedFolder]) -> bool
    ensures { result ≡ are_stripped kept.now folders.now }
{
    let mut left = kept;
    for held in folders {
        let [first, rest @ ..] = left else {
            return false;
        };
        if !is_stripped(first, &held.folder) {
            return false;
        }
        left = rest;
    }
    left.is_empty()
}
