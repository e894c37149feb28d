// The folders that an update of an Email asks.
ghost use Rattle.std.specs.Prelude.{◌≡◌, ◌∷◌, [], IfOk, OnOk, map};
ghost use Rattle.std.specs.Option.{option_copied};
ghost use Rattle.serde_json.specs.View.{view, members_view};
ghost use Rattle.set_given.specs.Given.{Given as GivenFacts, folder_named as folder_in_facts};
ghost use Rattle.set_given.specs.reading.Givens.{IsGiven};
ghost use Rattle.set_patches.specs.Patches.{is_null, member_keys};
ghost use Rattle.set_patches.specs.reading.Parts.{part_data};
ghost use Rattle.email_checks.specs.Asked as spec;
ghost use Rattle.email_checks.specs.Emails as emails;

use crate::email_test::is_null;
use octets::{Listed, Text};
use serde_json::{Map, Value};
use set_given::{Given, folder_named};
use set_jobs::SetError;
use set_patches::{Part, Pointer};
use std::alloc::{AllocError, Global};
use std::collections::BTreeSet;
use told_mail::Folder;

fn put_number(folders: &mut BTreeSet<u64>, folder: Option<&Folder>) -> Result<(), AllocError>
    ensures { OnOk result (folders.new.keys ≡ spec.with_number (option_copied folder.entry) folders.old.keys) }
{
    match folder {
        None => Ok(()),
        Some(folder) => {
            folders.insert(folder.number)?;
            Ok(())
        }
    }
}

fn take_number(folders: &mut BTreeSet<u64>, folder: Option<&Folder>)
    ensures { folders.new.keys ≡ spec.without_number (option_copied folder.entry) folders.old.keys }
{
    match folder {
        None => {}
        Some(folder) => {
            folders.remove(&folder.number);
        }
    }
}

/// The numbers of the folders that members name.
fn folders_in(
    alloc: Global,
    given: &Given<'_, '_>,
    members: &Map<String, Value>,
) -> Result<BTreeSet<u64>, AllocError>
    ensures { (g : GivenFacts) → IsGiven given.now g → IfOk result (λ set. set.keys ≡ spec.with_named g (member_keys (members_view members.now.entries)) []) }
{
    let mut folders = BTreeSet::new(alloc);
    for (key, _value) in members.iter() {
        put_number(&mut folders, folder_named(given, key.as_str()))?;
    }
    Ok(folders)
}

/// The numbers of the folders that an object names; none where it is null.
fn folders_given(
    alloc: Global,
    given: &Given<'_, '_>,
    value: &Value,
) -> Result<BTreeSet<u64>, AllocError>
    ensures { (g : GivenFacts) → IsGiven given.now g → IfOk result (λ set. set.keys ≡ spec.with_named g (spec.keys_of (view value.now)) []) }
{
    match value.as_object() {
        None => Ok(BTreeSet::new(alloc)),
        Some(members) => Ok(folders_in(alloc, given, members)?),
    }
}

/// With the folder that a text names, or without it where null stands there.
fn patch_folder(
    given: &Given<'_, '_>,
    folders: &mut BTreeSet<u64>,
    text: &str,
    value: &Value,
) -> Result<(), AllocError>
    ensures { (g : GivenFacts) → IsGiven given.now g
        → OnOk result (folders.new.keys ≡ spec.patched_number (folder_in_facts g text.now) (is_null (view value.now)) folders.old.keys) }
{
    let folder = folder_named(given, text);
    if is_null(value) {
        take_number(folders, folder);
        return Ok(());
    }
    put_number(folders, folder)
}

/// The folders after a part, where these were asked before it.
fn folders_after(
    alloc: Global,
    given: &Given<'_, '_>,
    part: &Part<'_>,
    mut before: BTreeSet<u64>,
) -> Result<BTreeSet<u64>, AllocError>
    ensures { (g : GivenFacts) → IsGiven given.now g
        → IfOk result (λ set. set.keys ≡ spec.folders_after g part.now.pointer (view part.now.value.now) before.keys) }
{
    match &part.pointer {
        Pointer::Whole(property) => {
            if property.as_str() == "mailboxIds" {
                Ok(folders_given(alloc, given, part.value)?)
            } else {
                Ok(before)
            }
        }
        Pointer::Within(property, key) => {
            if property.as_str() == "mailboxIds" {
                patch_folder(given, &mut before, key.as_str(), part.value)?;
            }
            Ok(before)
        }
        Pointer::Deeper(_) => Ok(before),
    }
}

fn only_number(alloc: Global, number: u64) -> Result<BTreeSet<u64>, AllocError>
    ensures { IfOk result (λ set. set.keys ≡ number ∷ []) }
{
    let mut folders = BTreeSet::new(alloc);
    folders.insert(number)?;
    Ok(folders)
}

/// The numbers of the folders that a patch asks for an Email that is in this one.
pub(crate) fn asked_folders(
    alloc: Global,
    given: &Given<'_, '_>,
    parts: &Vec<Part<'_>>,
    now: u64,
) -> Result<BTreeSet<u64>, AllocError>
    ensures { (g : GivenFacts) → IsGiven given.now g → IfOk result (λ set. set.keys ≡ spec.asked_folders g (map part_data parts.now.items) (now ∷ [])) }
{
    let mut folders = only_number(alloc, now)?;
    for part in parts {
        folders = folders_after(alloc, given, part, folders)?;
    }
    Ok(folders)
}

fn no_folder(alloc: Global) -> Result<SetError, AllocError>
    ensures { IfOk result (λ error. error ≡ emails.no_folder) }
{
    let mut properties = Listed::from_vec(Vec::new(alloc));
    properties.push(Text::copy_of(alloc, "mailboxIds")?)?;
    Ok(SetError::InvalidProperties { properties })
}

/// The one folder that is asked, or the refusal of none or of several.
pub(crate) fn one_folder(
    alloc: Global,
    asked: &BTreeSet<u64>,
) -> Result<Result<u64, SetError>, AllocError>
    ensures { IfOk result (λ r. r ≡ emails.one_folder asked.now.keys) }
{
    if asked.len() > 1 {
        return Ok(Err(SetError::TooManyMailboxes));
    }
    match asked.first() {
        Some(number) => Ok(Ok(*number)),
        None => Ok(Err(no_folder(alloc)?)),
    }
}
