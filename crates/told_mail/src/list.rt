// A folder as a LIST tells it (RFC 9051 section 6.3.9).
ghost use Rattle.std.specs.Option.{option_map};
ghost use Rattle.std.specs.Prelude.{◌≡◌, IfOk};
ghost use Rattle.told_mail.specs.Lists as lists;
ghost use Rattle.told_mail.specs.reading.Lines.{value_of, IsLined};

use crate::Folder;
use imap_types::Response;
use octets::{Bytes, Names};
use std::alloc::{AllocError, Global};
use told_folder::telling::are_same;

const CR: u8 = b'\r';

const LF: u8 = b'\n';

/// A folder as a LIST tells it.
#[derive(Clone, Copy, Drop)]
pub struct Line<'a> {
    /// As it was told, but `INBOX` whatever the case of its letters. No octet is 0, LF or CR.
    pub name: &'a Bytes,
    /// None where folders have no hierarchy.
    pub delimiter: Option<u8>,
    /// In kept form.
    pub attributes: &'a Names,
}

/// Whether a folder can have the name.
fn is_name(name: &[u8]) -> bool
    ensures { result ≡ lists.is_name name.now }
{
    name.iter()
        .all(|octet| *octet != 0 && *octet != LF && *octet != CR)
}

/// The folder that a response tells.
pub fn line_of(response: &Response) -> Option<Line<'_>>
    ensures { option_map value_of result ≡ lists.line_of response.now }
{
    match response {
        Response::List {
            attributes,
            delimiter,
            name,
        } => {
            if is_name(name.as_slice()) {
                Some(Line {
                    name,
                    delimiter: *delimiter,
                    attributes,
                })
            } else {
                None
            }
        }
        _ => None,
    }
}

/// What a line tells of its folder. The answer says whether it is new.
pub fn set_line(alloc: Global, folder: &mut Folder, line: Line<'_>) -> Result<bool, AllocError>
    ensures { IsLined folder.old folder.new (value_of line.entry) result }
{
    if folder.delimiter == line.delimiter && are_same(&folder.attributes, line.attributes) {
        return Ok(false);
    }
    folder.attributes = line.attributes.share(alloc)?;
    folder.delimiter = line.delimiter;
    Ok(true)
}

/// A folder of which no more than its line is known.
pub fn new_folder(alloc: Global, number: u64, line: Line<'_>) -> Result<Folder, AllocError>
    ensures { IfOk result (λ f. f ≡ (lists.new_folder number (value_of line.entry)).folder) }
{
    let name = line.name.share()?;
    let attributes = line.attributes.share(alloc)?;
    Ok(Folder {
        number,
        name,
        delimiter: line.delimiter,
        attributes,
        validity: 0,
        modseq: 0,
        next: 1,
    })
}
