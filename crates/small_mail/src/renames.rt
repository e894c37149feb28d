// Names that folders get where one is renamed (RFC 9051 section 6.3.6).
ghost use Rattle.std.specs.Prelude.{◌≡◌, ◌++◌, ℕ, List, IfOk, OnOk, map};
ghost use Rattle.std.specs.List.{flat_map};
ghost use Rattle.honest_store.specs.StoreMail.{StoreFolder};
ghost use Rattle.honest_store.specs.FolderChanges.{name_after_rename, new_use};

use crate::folder::StoredFolder;
use crate::names::{child_name, child_part};
use crate::uses::StoredUse;
use octets::Bytes;
use std::alloc::{AllocError, Global};
use std::collections::VecDeque;

/// The folder's name once `from` is `to`: of the folder itself, of one below it, of any other.
fn name_after(
    alloc: Global,
    from: &[u8],
    to: &[u8],
    folder: &StoredFolder,
) -> Result<Bytes, AllocError>
    ensures { IfOk result (λ name. name ≡ name_after_rename from.now to.now folder.now) }
{
    let name = folder.name();
    if name.as_slice() == from {
        return Bytes::copy_of(alloc, to);
    }
    match child_part(from, name.as_slice()) {
        Some(rest) => Bytes::from_vec(child_name(alloc, to, rest)?),
        None => name.share(),
    }
}

/// Adds the use of the folder's new name, where it has another.
fn push_use(
    uses: &mut Vec<StoredUse>,
    folder: &StoredFolder,
    name: &Bytes,
) -> Result<(), AllocError>
    ensures { OnOk result ((from to : List ℕ) → name.now ≡ name_after_rename from to folder.now
        → uses.new.items ≡ uses.old.items ++ new_use from to folder.now) }
{
    if name.as_slice() != folder.name().as_slice() {
        uses.push(StoredUse::new(name.share()?, folder.validity()))?;
    }
    Ok(())
}

/// What a RENAME gives: the name of each folder, and the uses of names that are new.
#[derive(Drop)]
pub(crate) struct NewNames {
    pub names: VecDeque<Bytes>,
    pub uses: Vec<StoredUse>,
}

/// What the RENAME of `from` to `to` gives.
pub(crate) fn new_names(
    alloc: Global,
    folders: &[StoredFolder],
    from: &[u8],
    to: &[u8],
) -> Result<NewNames, AllocError>
    ensures names { IfOk result (λ r. r.names.items ≡ map (name_after_rename from.now to.now) folders.now) }
    ensures uses { IfOk result (λ r. r.uses.items ≡ flat_map (new_use from.now to.now) folders.now) }
{
    let mut names = VecDeque::new(alloc);
    let mut uses = Vec::new(alloc);
    for folder in folders {
        let name = name_after(alloc, from, to, folder)?;
        push_use(&mut uses, folder, &name)?;
        names.push_back(name)?;
    }
    Ok(NewNames { names, uses })
}

/// Gives each folder the name at its place.
pub(crate) fn set_names(folders: &mut [StoredFolder], names: VecDeque<Bytes>)
    ensures { (name_of : StoreFolder → List ℕ) → names.items ≡ map name_of folders.old
        → folders.new ≡ map (λ (f : StoreFolder). record f { name = name_of f }) folders.old }
{
    let mut names = names;
    for folder in folders.iter_mut() {
        if let Some(name) = names.pop_front() {
            folder.set_name(name);
        }
    }
}
