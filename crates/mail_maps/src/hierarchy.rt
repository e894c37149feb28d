// Parents of folders, and the names that are left of them.
ghost use Rattle.std.specs.Prelude.{◌≡◌, ◌<◌, ◌||◌, ℕ, drop, length, IfOk, OnOk};
ghost use Rattle.std.specs.BTreeSet.{contains};
ghost use Rattle.std.specs.Option.{option_copied};
ghost use Rattle.std.specs.Ordering.{nat_cmp};
ghost use Rattle.std.specs.Str.Lossy.{utf8_lossy};
ghost use Rattle.mail_maps.specs.Hierarchy as hierarchy;
ghost use Rattle.mail_maps.specs.Mailboxes.{folders_of};
ghost use Rattle.mail_maps.specs.reading.Fronts as fronts;
ghost use Rattle.mail_maps.specs.reading.Fronts.{AreLengths, has_length};

use octets::Text;
use std::alloc::{AllocError, Global};
use std::collections::BTreeSet;
use told_folder::{Folder, NumberedFolder};
use told_mail::Mirror;

fn note_length(lengths: &mut BTreeSet<usize>, held: &NumberedFolder) -> Result<(), AllocError>
    ensures { OnOk result ((q : ℕ) → contains nat_cmp lengths.new q ≡ (contains nat_cmp lengths.old q || has_length q held.now)) }
{
    lengths.insert(held.folder.name.as_slice().len())?;
    Ok(())
}

/// How long the names of folders are.
pub fn name_lengths(
    alloc: Global,
    folders: &[NumberedFolder],
) -> Result<BTreeSet<usize>, AllocError>
    ensures { IfOk result (λ lengths. AreLengths lengths folders.now) }
{
    let mut lengths = BTreeSet::new(alloc);
    for held in folders {
        note_length(&mut lengths, held)?;
    }
    Ok(lengths)
}

/// Whether the delimiter comes, and more follows it.
fn goes_on(delimiter: u8, rest: &[u8]) -> bool
    ensures { result ≡ hierarchy.goes_on delimiter rest.now }
{
    match rest {
        [first, _, ..] => *first == delimiter,
        _ => false,
    }
}

/// The folder whose name is so much of this one, where the delimiter and more follow. It is looked up only where a folder has
/// a name of this length, so a long name costs no more look-ups than there are lengths.
fn front_at<'a>(
    mirror: &'a Mirror,
    lengths: &BTreeSet<usize>,
    name: &[u8],
    delimiter: u8,
    len: usize,
) -> Option<&'a Folder>
    requires within { len < length name.now }
    requires lengths { AreLengths lengths.now mirror.now.mail.folders }
    ensures { option_copied result ≡ fronts.front_at mirror.now.mail.folders name.now delimiter len }
{
    let (front, rest) = name.split_at(len);
    if !goes_on(delimiter, rest) {
        return None;
    }
    if !lengths.contains(&len) {
        return None;
    }
    mirror.named(front)
}

/// The folder of the longest front of the name before a delimiter, where one has it as its name.
fn parent_below<'a>(
    mirror: &'a Mirror,
    lengths: &BTreeSet<usize>,
    name: &[u8],
    delimiter: u8,
) -> Option<&'a Folder>
    requires { AreLengths lengths.now mirror.now.mail.folders }
    ensures { option_copied result ≡ fronts.front_below mirror.now.mail.folders name.now delimiter (length name.now) }
{
    let mut len = name.len();
    while 0 < len {
        len -= 1;
        match front_at(mirror, lengths, name, delimiter, len) {
            Some(folder) => return Some(folder),
            None => {}
        }
    }
    None
}

/// The folder with the longest name that is above this one. These are the lengths of all names.
pub fn parent_in<'a>(
    mirror: &'a Mirror,
    lengths: &BTreeSet<usize>,
    child: &Folder,
) -> Option<&'a Folder>
    requires { AreLengths lengths.now mirror.now.mail.folders }
    ensures { option_copied result ≡ hierarchy.parent_in (folders_of mirror.now.mail.folders) child.now }
{
    mirror.each_is_mail();
    match child.delimiter {
        Some(delimiter) => parent_below(mirror, lengths, child.name.as_slice(), delimiter),
        None => None,
    }
}

/// How much of a name is its parent's, with the delimiter.
pub fn parent_len(parent: Option<&Folder>) -> usize
    ensures { result ≡ hierarchy.parent_len (option_copied parent.entry) }
{
    match parent {
        Some(parent) => parent.name.as_slice().len() + 1,
        None => 0,
    }
}

/// What follows this many octets.
pub fn after(name: &[u8], len: usize) -> &[u8]
    ensures { result.now ≡ drop len name.now }
{
    if len <= name.len() {
        return name.split_at(len).1;
    }
    &[]
}

/// The name that follows that of the parent, in UTF-8.
pub fn own_name(alloc: Global, parent: Option<&Folder>, child: &Folder) -> Result<Text, AllocError>
    ensures { IfOk result (λ name. name ≡ utf8_lossy (drop (hierarchy.parent_len (option_copied parent.entry)) child.now.name)) }
{
    let rest = after(child.name.as_slice(), parent_len(parent));
    let text = String::from_utf8_lossy(alloc, rest)?;
    Ok(Text::from_string(text))
}
