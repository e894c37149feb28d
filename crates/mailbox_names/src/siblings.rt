// Mailboxes that are under one parent, and the names by which they are served (RFC 8621 section 2).
ghost use Rattle.std.specs.Prelude.{◌≡◌, IfOk, Some};
ghost use Rattle.std.specs.Option.{option_copied, option_map};
ghost use Rattle.mail_maps.specs.Mailboxes.{folders_of};
ghost use Rattle.mail_maps.specs.reading.Fronts.{AreLengths};
ghost use Rattle.mailbox_names.specs.Siblings as siblings;
ghost use Rattle.mailbox_names.specs.reading.Rests as rests;

use mail_maps::hierarchy::parent_in;
use std::alloc::{AllocError, Global};
use std::collections::BTreeSet;
use std::str::from_utf8;
use told_mail::{Folder, Mirror};

/// Whether both are one folder, or both the top level: no two folders have one name.
pub fn same_folder(one: Option<&Folder>, other: Option<&Folder>) -> bool
    ensures { result ≡ siblings.same_folder (option_copied one.entry) (option_copied other.entry) }
{
    match (one, other) {
        (None, None) => true,
        (Some(one), Some(other)) => one.name == other.name,
        _ => false,
    }
}

/// Whether the octets are served as the text.
pub fn is_served_as(alloc: Global, octets: &[u8], text: &str) -> Result<bool, AllocError>
    ensures { IfOk result (λ same. same ≡ siblings.is_served_as octets.now text.now) }
{
    match from_utf8(octets) {
        Ok(served) => Ok(served == text),
        Err(_) => Ok(String::from_utf8_lossy(alloc, octets)?.as_str() == text),
    }
}

/// What follows the delimiter, where that comes first.
fn after_delimiter(delimiter: Option<u8>, octets: &[u8]) -> Option<&[u8]>
    ensures { option_map (λ rest. rest.now) result ≡ rests.after_delimiter delimiter octets.now }
{
    let (first, rest) = octets.split_first()?;
    if delimiter == Some(*first) {
        Some(rest)
    } else {
        None
    }
}

/// What follows the parent's name and the folder's delimiter; the whole name at the top level.
fn rest_under<'a>(parent: Option<&Folder>, folder: &'a Folder) -> Option<&'a [u8]>
    ensures { option_map (λ rest. rest.now) result ≡ rests.rest_under (option_copied parent.entry) folder.now }
{
    let name = folder.name.as_slice();
    let Some(parent) = parent else {
        return Some(name);
    };
    match name.strip_prefix(parent.name.as_slice()) {
        Some(rest) => after_delimiter(folder.delimiter, rest),
        None => None,
    }
}

/// Whether the folder is under the parent. These are the lengths of all names.
fn is_child_of(
    mirror: &Mirror,
    lengths: &BTreeSet<usize>,
    parent: Option<&Folder>,
    folder: &Folder,
) -> bool
    requires { AreLengths lengths.now mirror.now.mail.folders }
    ensures { result ≡ siblings.is_child_of (folders_of mirror.now.mail.folders) (option_copied parent.entry) folder.now }
{
    same_folder(parent_in(mirror, lengths, folder), parent)
}

/// Whether the folder is under the parent and is served by the name. Its parent is looked up only where its name may be that.
fn is_named_child(
    alloc: Global,
    mirror: &Mirror,
    lengths: &BTreeSet<usize>,
    parent: Option<&Folder>,
    name: &str,
    folder: &Folder,
) -> Result<bool, AllocError>
    requires { AreLengths lengths.now mirror.now.mail.folders }
    ensures { IfOk result (λ is. is ≡ siblings.is_named_child (folders_of mirror.now.mail.folders) (option_copied parent.entry) name.now folder.now) }
{
    let Some(rest) = rest_under(parent, folder) else {
        return Ok(false);
    };
    if !is_served_as(alloc, rest, name)? {
        return Ok(false);
    }
    Ok(is_child_of(mirror, lengths, parent, folder))
}

/// The same, where the folder is another than this one.
fn is_other_child(
    alloc: Global,
    mirror: &Mirror,
    lengths: &BTreeSet<usize>,
    this: Option<&Folder>,
    parent: Option<&Folder>,
    name: &str,
    folder: &Folder,
) -> Result<bool, AllocError>
    requires { AreLengths lengths.now mirror.now.mail.folders }
    ensures { IfOk result (λ is. is ≡ siblings.is_other_child (folders_of mirror.now.mail.folders) (option_copied this.entry) (option_copied parent.entry) name.now folder.now) }
{
    if same_folder(this, Some(folder)) {
        return Ok(false);
    }
    is_named_child(alloc, mirror, lengths, parent, name, folder)
}

/// Whether another folder than this one is under the parent and is served as these octets would be. It is one pass over the folders.
pub fn has_sibling(
    alloc: Global,
    mirror: &Mirror,
    lengths: &BTreeSet<usize>,
    this: Option<&Folder>,
    parent: Option<&Folder>,
    name: &[u8],
) -> Result<bool, AllocError>
    requires { AreLengths lengths.now mirror.now.mail.folders }
    ensures { IfOk result (λ has. has ≡ siblings.has_sibling (folders_of mirror.now.mail.folders) (option_copied this.entry) (option_copied parent.entry) name.now) }
{
    let served = String::from_utf8_lossy(alloc, name)?;
    for held in mirror.folders() {
        let (name, folder) = (served.as_str(), &held.folder);
        if is_other_child(alloc, mirror, lengths, this, parent, name, folder)? {
            return Ok(true);
        }
    }
    Ok(false)
}

/// Whether the other folder is under this one. Its parent is looked up only where its name may be below.
fn is_child(mirror: &Mirror, lengths: &BTreeSet<usize>, folder: &Folder, other: &Folder) -> bool
    requires { AreLengths lengths.now mirror.now.mail.folders }
    ensures { result ≡ siblings.is_child_of (folders_of mirror.now.mail.folders) (Some folder.now) other.now }
{
    match rest_under(Some(folder), other) {
        Some(_) => is_child_of(mirror, lengths, Some(folder), other),
        None => false,
    }
}

/// Whether a folder is under this one. It is one pass over the folders.
pub fn has_child(mirror: &Mirror, lengths: &BTreeSet<usize>, folder: &Folder) -> bool
    requires { AreLengths lengths.now mirror.now.mail.folders }
    ensures { result ≡ siblings.has_child (folders_of mirror.now.mail.folders) folder.now }
{
    for held in mirror.folders() {
        if is_child(mirror, lengths, folder, &held.folder) {
            return true;
        }
    }
    false
}
