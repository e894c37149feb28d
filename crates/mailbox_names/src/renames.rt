// What a RENAME would give (RFC 9051 section 6.3.6).
ghost use Rattle.std.specs.Prelude.{◌≡◌, ◌++◌, ℕ, List, IfOk, MatchOption, None, Some};
ghost use Rattle.std.specs.Option.{option_copied};
ghost use Rattle.told_mail.specs.Renames.{renamed_name};
ghost use Rattle.mailbox_names.specs.Renames as renames;
ghost use Rattle.mailbox_names.specs.reading.Stays as given;

use std::alloc::{AllocError, Global};
use told_mail::{Folder, Mirror};

/// Whether the name is below another one by the delimiter.
fn is_under(delimiter: Option<u8>, name: &[u8], above: &[u8]) -> bool
    ensures { result ≡ renames.is_under delimiter name.now above.now }
{
    let Some(delimiter) = delimiter else {
        return false;
    };
    match name.strip_prefix(above) {
        Some([first, _, ..]) => *first == delimiter,
        _ => false,
    }
}

/// What follows the old name in that of a folder that is renamed with it.
fn rest_renamed<'a>(from: &[u8], folder: &'a Folder) -> Option<&'a [u8]>
    ensures { MatchOption result ((to : List ℕ) → renamed_name from.now to folder.now ≡ None)
        (λ rest. (to : List ℕ) → renamed_name from.now to folder.now ≡ Some (to ++ rest.now)) }
{
    let rest = folder.name.as_slice().strip_prefix(from)?;
    match rest {
        [] => Some(rest),
        [first, ..] if folder.delimiter == Some(*first) => Some(rest),
        _ => None,
    }
}

/// Whether the parent is the folder itself or one that is renamed with it, or is below it by its delimiter.
pub fn is_within(folder: &Folder, parent: Option<&Folder>) -> bool
    ensures { result ≡ renames.is_within folder.now (option_copied parent.entry) }
{
    let Some(parent) = parent else {
        return false;
    };
    match rest_renamed(folder.name.as_slice(), parent) {
        Some(_) => true,
        None => is_under(
            folder.delimiter,
            parent.name.as_slice(),
            folder.name.as_slice(),
        ),
    }
}

/// Whether a folder has this name and isn't renamed.
fn stays(mirror: &Mirror, from: &[u8], to: &[u8], name: &[u8]) -> bool
    ensures { result ≡ given.stays from.now to.now mirror.now.mail.folders name.now }
{
    match mirror.named(name) {
        Some(folder) => rest_renamed(from, folder).is_none(),
        None => false,
    }
}

/// Whether the name that the folder gets is that of one that isn't renamed.
fn gives_clash(
    alloc: Global,
    mirror: &Mirror,
    from: &[u8],
    to: &[u8],
    folder: &Folder,
) -> Result<bool, AllocError>
    ensures { IfOk result (λ clash. clash ≡ given.gives_clash from.now to.now mirror.now.mail.folders folder.now) }
{
    let Some(rest) = rest_renamed(from, folder) else {
        return Ok(false);
    };
    let mut name = to.to_vec(alloc)?;
    name.extend_from_slice(rest)?;
    Ok(stays(mirror, from, to, name.as_slice()))
}

/// Whether the RENAME gives a name that a folder has which isn't renamed. It costs a look-up for each folder that is.
pub fn clashes(alloc: Global, mirror: &Mirror, from: &[u8], to: &[u8]) -> Result<bool, AllocError>
    ensures { IfOk result (λ clash. clash ≡ renames.clashes from.now to.now mirror.now.mail.folders) }
{
    mirror.each_is_mail();
    mirror.one_named();
    for held in mirror.folders() {
        if gives_clash(alloc, mirror, from, to, &held.folder)? {
            return Ok(true);
        }
    }
    Ok(false)
}
