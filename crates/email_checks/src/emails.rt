// The items of Email/set: their checks in order, and what each is to do (RFC 8621 section 4.6).
ghost use Rattle.std.specs.Prelude.{◌≡◌, IfOk, map, option_map};
ghost use Rattle.std.specs.Option.{option_copied};
ghost use Rattle.serde_json.specs.View.{members_view};
ghost use Rattle.set_given.specs.Given.{Given as GivenFacts};
ghost use Rattle.set_given.specs.reading.Givens.{IsGiven, found_data};
ghost use Rattle.set_patches.specs.reading.Parts.{part_data};
ghost use Rattle.email_checks.specs.Emails as spec;
ghost use Rattle.email_checks.specs.reading.Sets.{set_keywords};
ghost use Rattle.email_checks.specs.reading.Updates.{update_data};

use crate::email_test::EmailTest;
use crate::email_update::{EmailUpdate, is_forbidden, put_select, update_job};
use crate::folders_asked::{asked_folders, one_folder};
use crate::keywords::{flags_missing, names_of};
use crate::keywords_asked::{asked_keywords, is_invalid};
use mail_maps::keywords::keyword_set;
use mail_maps::rights::rights_of;
use octets::{Listed, Names};
use serde_json::{Map, Value};
use set_given::{EmailFound, Given, email_named};
use set_jobs::{Done, Job, SetError, Step};
use set_patches::{Part, patch_of, wrong_properties};
use std::alloc::{AllocError, Global};
use std::collections::BTreeSet;
use told_mail::Folder;

/// An update that patches no keywords.
fn update_of_place<'g>(
    alloc: Global,
    found: &EmailFound<'g>,
    folder: &'g Folder,
    target: Option<&'g Folder>,
) -> EmailUpdate<'g>
    ensures { update_data result ≡ spec.update_with (found_data found.now) folder.now (spec.held_keywords (found_data found.now)) None (option_copied target.entry) }
{
    EmailUpdate {
        email: found.email,
        mark: found.mark,
        uid: found.message.uid,
        folder,
        sets: Names::new(alloc),
        takes: Names::new(alloc),
        asked: None,
        target,
    }
}

/// An update to these keywords, which are set against those held.
fn update_to<'g>(
    alloc: Global,
    found: &EmailFound<'g>,
    folder: &'g Folder,
    after: &BTreeSet<Vec<u8>>,
    target: Option<&'g Folder>,
) -> Result<EmailUpdate<'g>, AllocError>
    ensures { IfOk result (λ u. update_data u ≡ spec.update_with (found_data found.now) folder.now (spec.held_keywords (found_data found.now))
        (Some (set_keywords after.now)) (option_copied target.entry)) }
{
    let before = keyword_set(alloc, found.message.flags.as_slice())?;
    let sets = flags_missing(alloc, after, &before)?;
    let takes = flags_missing(alloc, &before, after)?;
    let asked = Some(names_of(alloc, after)?);
    Ok(EmailUpdate {
        email: found.email,
        mark: found.mark,
        uid: found.message.uid,
        folder,
        sets,
        takes,
        asked,
        target,
    })
}

/// The update by these parts, into this folder.
fn update_of<'g>(
    alloc: Global,
    parts: &Vec<Part<'_>>,
    found: &EmailFound<'g>,
    folder: &'g Folder,
    target: Option<&'g Folder>,
) -> Result<EmailUpdate<'g>, AllocError>
    ensures { IfOk result (λ u. update_data u ≡ spec.update_of (found_data found.now) folder.now (map part_data parts.now.items) (option_copied target.entry)) }
{
    match asked_keywords(alloc, parts, &found.message.flags)? {
        None => Ok(update_of_place(alloc, found, folder, target)),
        Some(after) => Ok(update_to(alloc, found, folder, &after, target)?),
    }
}

fn unless_forbidden(
    alloc: Global,
    selected: Option<&[u8]>,
    update: EmailUpdate<'_>,
) -> Result<Result<Job, SetError>, AllocError>
    ensures { IfOk result (λ r. r ≡ spec.unless_forbidden (option_copied selected.entry) (update_data update.entry)) }
{
    if is_forbidden(&update) {
        return Ok(Err(SetError::Forbidden));
    }
    Ok(Ok(update_job(alloc, selected, update)?))
}

/// An update by parts that are right.
fn update_right<'g>(
    alloc: Global,
    given: &Given<'g, '_>,
    parts: &Vec<Part<'_>>,
    found: &EmailFound<'g>,
    folder: &'g Folder,
) -> Result<Result<Job, SetError>, AllocError>
    ensures { (g : GivenFacts) → IsGiven given.now g → IfOk result (λ r. r ≡ spec.update_right g (found_data found.now) folder.now (map part_data parts.now.items)) }
{
    let asked = asked_folders(alloc, given, parts, folder.number)?;
    match one_folder(alloc, &asked)? {
        Err(refusal) => Ok(Err(refusal)),
        Ok(number) => {
            let target = given.mirror.folder(number);
            let update = update_of(alloc, parts, found, folder, target)?;
            Ok(unless_forbidden(alloc, given.selected, update)?)
        }
    }
}

/// An update by a patch that is valid, whose values are looked at first.
fn update_valid<'g>(
    alloc: Global,
    given: &Given<'g, '_>,
    parts: &Vec<Part<'_>>,
    found: &EmailFound<'g>,
    folder: &'g Folder,
) -> Result<Result<Job, SetError>, AllocError>
    ensures { (g : GivenFacts) → IsGiven given.now g → IfOk result (λ r. r ≡ spec.update_valid g (found_data found.now) folder.now (map part_data parts.now.items)) }
{
    let properties = wrong_properties(alloc, &EmailTest { given: *given }, parts)?;
    if !properties.is_empty() {
        return Ok(Err(SetError::InvalidProperties { properties }));
    }
    Ok(update_right(alloc, given, parts, found, folder)?)
}

fn update_found<'g>(
    alloc: Global,
    given: &Given<'g, '_>,
    patch: &Map<String, Value>,
    found: &EmailFound<'g>,
    folder: &'g Folder,
) -> Result<Result<Job, SetError>, AllocError>
    ensures { (g : GivenFacts) → IsGiven given.now g → IfOk result (λ r. r ≡ spec.update_in g (members_view patch.now.entries) (found_data found.now) folder.now) }
{
    let parts = patch_of(alloc, patch)?;
    if is_invalid(alloc, patch, &parts)? {
        return Ok(Err(SetError::InvalidPatch));
    }
    Ok(update_valid(alloc, given, &parts, found, folder)?)
}

/// What an update of the Email that this text names is to do (RFC 8621 section 4.6). A refusal is, in this order, `NotFound`,
/// `InvalidPatch`, `InvalidProperties`, `TooManyMailboxes`, `Forbidden`.
pub fn update_email(
    alloc: Global,
    given: &Given<'_, '_>,
    text: &str,
    patch: &Map<String, Value>,
) -> Result<Result<Job, SetError>, AllocError>
    ensures { (g : GivenFacts) → IsGiven given.now g → IfOk result (λ r. r ≡ spec.update_email g text.now (members_view patch.now.entries)) }
{
    match email_named(given, text) {
        None => Ok(Err(SetError::NotFound)),
        Some(found) => match given.mirror.folder(found.folder) {
            None => Ok(Err(SetError::NotFound)),
            Some(folder) => Ok(update_found(alloc, given, patch, &found, folder)?),
        },
    }
}

fn destroy_job(
    alloc: Global,
    selected: Option<&[u8]>,
    found: &EmailFound<'_>,
    folder: &Folder,
) -> Result<Job, AllocError>
    ensures { IfOk result (λ job. job ≡ spec.destroy_job (option_copied selected.entry) (found_data found.now) folder.now) }
{
    let uid = found.message.uid;
    let mut steps = Listed::from_vec(Vec::new(alloc));
    put_select(selected, &mut steps, folder, found.mark)?;
    steps.push(Step::Delete { uid })?;
    steps.push(Step::Expunge { uid })?;
    Ok(Job {
        steps,
        done: Done::Gone {
            number: found.email,
        },
    })
}

fn destroy_found(
    alloc: Global,
    selected: Option<&[u8]>,
    found: &EmailFound<'_>,
    folder: &Folder,
) -> Result<Result<Job, SetError>, AllocError>
    ensures { IfOk result (λ r. r ≡ spec.destroy_in (option_copied selected.entry) (found_data found.now) folder.now) }
{
    if !rights_of(folder).may_remove_items {
        return Ok(Err(SetError::Forbidden));
    }
    Ok(Ok(destroy_job(alloc, selected, found, folder)?))
}

/// What a destroy of the Email that this text names is to do (RFC 8621 section 4.6). A refusal is `NotFound`, then `Forbidden`.
pub fn destroy_email(
    alloc: Global,
    given: &Given<'_, '_>,
    text: &str,
) -> Result<Result<Job, SetError>, AllocError>
    ensures { (g : GivenFacts) → IsGiven given.now g → IfOk result (λ r. r ≡ spec.destroy_email g text.now) }
{
    match email_named(given, text) {
        None => Ok(Err(SetError::NotFound)),
        Some(found) => match given.mirror.folder(found.folder) {
            None => Ok(Err(SetError::NotFound)),
            Some(folder) => Ok(destroy_found(alloc, given.selected, &found, folder)?),
        },
    }
}
