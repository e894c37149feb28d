// What a RENAME makes of folders (RFC 9051 section 6.3.6).
ghost use Rattle.std.specs.Prelude.{◌≡◌, ℕ, ◌+◌, ◌<◌, ◌≤◌, ◌++◌, [], ◌∷◌, List, Option, None, Some, IfOk, OnOk, MatchOption, if◌then◌else◌, bytes_eq, length, map, true, vec_capacity, vec_len};
ghost use Rattle.std.specs.BTreeMap.{get};
ghost use Rattle.std.specs.Ordering.{nat_cmp};
ghost use Rattle.std.specs.VecDeque.{deque_len};
ghost use Rattle.told_folder.specs.FolderTelling.{cleared};
ghost use Rattle.std.specs.List.{list_any, cons_option};
ghost use Rattle.std.specs.Option.{option_map};
ghost use Rattle.told_folder.specs.Index.{IsIndexed};
ghost use Rattle.told_mail.specs.Mail.{is_same, IsMail};
ghost use Rattle.told_mail.specs.Renames as renames;
ghost use Rattle.told_mail.specs.Renames.{names_given, renamed_folders};
ghost use Rattle.told_mail.specs.reading.Index.{AreNumbers};
ghost use Rattle.told_mail.specs.reading.Names.{place_in};
ghost use Rattle.told_mail.specs.reading.Renaming.{HasNames, name_of, named_by};

use crate::names::put_name;
use crate::{Folder, NumberedFolder};
use octets::Bytes;
use std::alloc::{AllocError, Global};
use std::collections::{BTreeMap, BTreeSet, VecDeque};
use told_folder::telling::clear_marks;
use told_folder::uids::AllUids;

/// What follows the other text.
fn rest_after<'a>(front: &[u8], text: &'a [u8]) -> Option<&'a [u8]>
    ensures { MatchOption result (renames.rest_after front.now text.now ≡ None)
        (λ rest. renames.rest_after front.now text.now ≡ Some rest.now) }
{
    text.strip_prefix(front)
}

/// Of a name below another one, the delimiter and what follows it.
fn child_part<'a>(parent: &[u8], delimiter: Option<u8>, name: &'a [u8]) -> Option<&'a [u8]>
    ensures { MatchOption result (renames.child_part parent.now delimiter name.now ≡ None)
        (λ rest. renames.child_part parent.now delimiter name.now ≡ Some rest.now) }
{
    let Some(delimiter) = delimiter else {
        return None;
    };
    let Some(rest) = rest_after(parent, name) else {
        return None;
    };
    match rest {
        [first, ..] if *first == delimiter => Some(rest),
        _ => None,
    }
}

/// The name and what a child adds to it.
fn child_name(alloc: Global, parent: &[u8], rest: &[u8]) -> Result<Vec<u8>, AllocError>
    ensures { IfOk result (λ name. name.items ≡ parent.now ++ rest.now) }
{
    let mut name = parent.to_vec(alloc)?;
    name.extend_from_slice(rest)?;
    Ok(name)
}

/// The name that the folder gets where `from` becomes `to`; none where it isn't renamed.
fn renamed_name(
    alloc: Global,
    from: &[u8],
    to: &[u8],
    folder: &Folder,
) -> Result<Option<Vec<u8>>, AllocError>
    ensures { IfOk result (λ name. option_map (λ v. v.items) name ≡ renames.renamed_name from.now to.now folder.now) }
{
    let name = folder.name.as_slice();
    if name == from {
        return Ok(Some(to.to_vec(alloc)?));
    }
    match child_part(from, folder.delimiter, name) {
        Some(rest) => Ok(Some(child_name(alloc, to, rest)?)),
        None => Ok(None),
    }
}

/// Adds the name, where there is one.
fn add_given(set: &mut BTreeSet<Vec<u8>>, name: Option<Vec<u8>>) -> Result<(), AllocError>
    ensures { OnOk result (HasNames set.new (cons_option (option_map (λ v. v.items) name) (map (λ v. v.items) set.old.keys))) }
{
    if let Some(name) = name {
        set.insert(name)?;
    }
    Ok(())
}

/// The names that folders get.
pub fn given_names(
    alloc: Global,
    folders: &[NumberedFolder],
    from: &[u8],
    to: &[u8],
) -> Result<BTreeSet<Vec<u8>>, AllocError>
    ensures { IfOk result (λ set. HasNames set (names_given from.now to.now folders.now)) }
{
    let mut given = BTreeSet::new(alloc);
    for held in folders {
        let name = renamed_name(alloc, from, to, &held.folder)?;
        add_given(&mut given, name)?;
    }
    Ok(given)
}

/// Whether the name is in the set.
fn is_given(given: &BTreeSet<Vec<u8>>, name: &[u8]) -> bool
    ensures { result ≡ list_any (bytes_eq name.now) (map (λ v. v.items) given.now.keys) }
{
    given.contains(name)
}

/// The name that the folder has after the RENAME; none where it ends.
fn name_after(
    alloc: Global,
    from: &[u8],
    to: &[u8],
    given: &BTreeSet<Vec<u8>>,
    folder: &Folder,
) -> Result<Option<Bytes>, AllocError>
    ensures { (names : List (List ℕ)) → HasNames given.now names
        → IfOk result (λ name. name ≡ renames.name_after names (renames.renamed_name from.now to.now folder.now) folder.now) }
{
    if let Some(name) = renamed_name(alloc, from, to, folder)? {
        return Ok(Some(Bytes::from_vec(name)?));
    }
    if is_given(given, folder.name.as_slice()) {
        return Ok(None);
    }
    Ok(Some(folder.name.share()?))
}

/// Gives the name this number, where there is one.
fn put_number(
    alloc: Global,
    numbers: &mut BTreeMap<Vec<u8>, u64>,
    name: &Option<Bytes>,
    number: u64,
) -> Result<(), AllocError>
    ensures some { (n : List ℕ) → name.now ≡ Some n
        → OnOk result ((q : List ℕ) → place_in numbers.new q ≡ (if is_same n q then Some number else place_in numbers.old q)) }
    ensures none { name.now ≡ None → OnOk result ((q : List ℕ) → place_in numbers.new q ≡ place_in numbers.old q) }
{
    match name {
        Some(name) => put_name(alloc, numbers, name.as_slice(), number),
        None => Ok(()),
    }
}

/// What a RENAME makes of folders.
#[derive(Drop)]
pub struct AfterRename {
    /// The name of each, in order; none where it ends.
    pub names: VecDeque<Option<Bytes>>,
    /// The folder's number of each name.
    pub numbers: BTreeMap<Vec<u8>, u64>,
}

/// What the RENAME of `from` to `to` makes of the folders, of which these names are given.
pub fn renamed(
    alloc: Global,
    folders: &[NumberedFolder],
    from: &[u8],
    to: &[u8],
    given: &BTreeSet<Vec<u8>>,
) -> Result<AfterRename, AllocError>
    requires { HasNames given.now (names_given from.now to.now folders.now) }
    ensures names { IfOk result (λ r. r.names.items ≡ map (name_of from.now to.now folders.now) folders.now) }
    ensures len { IfOk result (λ r. deque_len r.names ≡ length folders.now) }
    ensures numbers { IfOk result (λ r. (next_mark next_folder : ℕ) → IsMail (record { folders = folders.now; next_mark = next_mark; next_folder = next_folder })
        → AreNumbers (renamed_folders from.now to.now folders.now) r.numbers) }
{
    let mut names = VecDeque::new(alloc);
    let mut numbers = BTreeMap::new(alloc);
    for held in folders {
        let name = name_after(alloc, from, to, given, &held.folder)?;
        put_number(alloc, &mut numbers, &name, held.folder.number)?;
        names.push_back(name)?;
    }
    Ok(AfterRename { names, numbers })
}

/// Adds the folder, under this name, at the end, where there is room.
fn push_named(left: &mut Vec<NumberedFolder>, held: NumberedFolder, name: Bytes)
    requires { vec_len left.old < vec_capacity left.old }
    ensures items { left.new.items ≡ left.old.items ++ renames.with_name name held ∷ [] }
    ensures len { vec_len left.new ≡ vec_len left.old + 1 }
    ensures room { vec_capacity left.old ≤ vec_capacity left.new }
{
    let NumberedFolder { folder, messages } = held;
    let Folder {
        number,
        name: _,
        delimiter,
        attributes,
        validity,
        modseq,
        next,
    } = folder;
    let folder = Folder {
        number,
        name,
        delimiter,
        attributes,
        validity,
        modseq,
        next,
    };
    let Ok(()) = left.push(NumberedFolder { folder, messages }) else {
        unreachable!()
    };
}

/// Adds the folder under its name; where it has none, its marks are taken out.
fn take_name(
    left: &mut Vec<NumberedFolder>,
    marks: &mut BTreeMap<u64, (u64, u32)>,
    held: NumberedFolder,
    name: Option<Bytes>,
)
    requires { vec_len left.old < vec_capacity left.old }
    ensures some { (n : List ℕ) → name ≡ Some n → (left.new.items ≡ left.old.items ++ renames.with_name n held ∷ []) × (marks.new ≡ marks.old) }
    ensures none { name ≡ None → (left.new.items ≡ left.old.items) × ((q : ℕ) → get nat_cmp marks.new q ≡ cleared (λ u. true) held.messages q (get nat_cmp marks.old q)) }
    ensures len { vec_len left.new ≤ vec_len left.old + 1 }
    ensures room { vec_capacity left.old ≤ vec_capacity left.new }
{
    match name {
        Some(name) => push_named(left, held, name),
        None => clear_marks(held.messages.as_slice(), &AllUids, marks),
    }
}

/// The folders, each under its name. Those that have none end, with their marks. It takes no memory: `left` has room.
pub fn take_names(
    folders: Vec<NumberedFolder>,
    names: VecDeque<Option<Bytes>>,
    left: Vec<NumberedFolder>,
    marks: &mut BTreeMap<u64, (u64, u32)>,
) -> Vec<NumberedFolder>
    requires empty { left.items ≡ [] }
    requires room { vec_len left + vec_len folders ≤ vec_capacity left }
    requires same { deque_len names ≡ vec_len folders }
    ensures names { (name : NumberedFolder → Option (List ℕ)) → names.items ≡ map name folders.items → result.items ≡ named_by name folders.items }
    ensures marks { (name : NumberedFolder → Option (List ℕ)) → names.items ≡ map name folders.items
        → (next_mark : ℕ) → IsIndexed folders.items marks.old next_mark → IsIndexed (named_by name folders.items) marks.new next_mark }
{
    let mut folders = VecDeque::from_vec(folders);
    let mut names = names;
    let mut left = left;
    while let Some(held) = folders.pop_front() {
        let Some(name) = names.pop_front() else {
            unreachable!()
        };
        take_name(&mut left, marks, held, name);
    }
    left
}
