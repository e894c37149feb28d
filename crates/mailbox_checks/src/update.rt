// The updates of Mailbox/set: their checks in order, and their steps (RFC 8621 section 2.5, RFC 9051 sections 6.3.6 to 6.3.8).
ghost use Rattle.std.specs.Prelude.{◌≡◌, IfOk};
ghost use Rattle.std.specs.Option.{option_copied, option_map};
ghost use Rattle.mail_maps.specs.Mailboxes.{folders_of};
ghost use Rattle.mail_maps.specs.reading.Fronts.{AreLengths};
ghost use Rattle.serde_json.specs.View.{view, members_view};
ghost use Rattle.set_given.specs.Given.{Given as Facts};
ghost use Rattle.set_given.specs.reading.Givens.{IsGiven};
ghost use Rattle.mailbox_checks.specs.Update as spec;
ghost use Rattle.mailbox_checks.specs.reading.Places.{asked_parent, place_data};

use crate::create::{is_name_wrong, lacks_child_right};
use crate::properties::{
    ChangeTest, MAILBOX_OBJECTS, ParentAsked, member, name_in, parent_as, served_value,
    subscription_in, wrong_name, wrong_parent,
};
use crate::steps::{put_subscribe, put_subscribe_anew, renames};
use mail_maps::hierarchy::{after, name_lengths, parent_in, parent_len};
use mail_maps::keywords::has_name;
use mail_maps::rights::rights_of;
use mailbox_names::{clashes, full_name, is_served_as, is_within, same_folder};
use octets::{Bytes, Listed};
use serde_json::{Map, Value};
use set_given::{Given, folder_named};
use set_jobs::{Done, Job, SetError, Step};
use set_patches::{is_invalid_patch, patch_of, wrong_properties};
use std::alloc::{AllocError, Global};
use std::collections::BTreeSet;
use told_mail::{Folder, Mirror};

// ---- where a folder is to be

/// Where a folder is, or is to be: under this parent, by this name in it.
#[derive(Clone, Copy)]
pub(crate) struct Place<'a> {
    pub(crate) parent: Option<&'a Folder>,
    pub(crate) name: &'a [u8],
}

/// Where the folder is, with the octets of its name that the parent's leaves.
fn place_now<'a>(mirror: &'a Mirror, lengths: &BTreeSet<usize>, folder: &'a Folder) -> Place<'a>
    requires { AreLengths lengths.now mirror.now.mail.folders }
    ensures { place_data result ≡ spec.place_now (folders_of mirror.now.mail.folders) folder.now }
{
    let parent = parent_in(mirror, lengths, folder);
    let name = after(folder.name.as_slice(), parent_len(parent));
    Place { parent, name }
}

/// The name that is asked, or this one where none is; a name by which it is served is no other one.
fn name_or<'a>(alloc: Global, now: &'a [u8], asked: Option<&'a str>) -> Result<&'a [u8], AllocError>
    ensures { IfOk result (λ name. name.now ≡ spec.name_or now.now (option_copied asked.entry)) }
{
    let Some(text) = asked else {
        return Ok(now);
    };
    if is_served_as(alloc, now, text)? {
        return Ok(now);
    }
    Ok(text.as_bytes())
}

fn is_moved(now: &Place<'_>, asked: &Place<'_>) -> bool
    ensures { result ≡ spec.is_moved (place_data now.now) (place_data asked.now) }
{
    !same_folder(now.parent, asked.parent)
}

/// Whether another name, or another parent, is asked.
fn is_renamed(now: &Place<'_>, asked: &Place<'_>) -> bool
    ensures { result ≡ spec.is_renamed (place_data now.now) (place_data asked.now) }
{
    is_moved(now, asked) || now.name != asked.name
}

// ---- what is sent

fn is_subscribed(folder: &Folder) -> bool
    ensures { result ≡ spec.is_subscribed folder.now }
{
    has_name(b"\\subscribed", &folder.attributes)
}

fn update_job(folder: &Folder, steps: Listed<Step>) -> Job
    ensures { result ≡ spec.update_job folder.now steps }
{
    Job {
        steps,
        done: Done::Changed {
            number: folder.number,
            asked: None,
        },
    }
}

/// The folder has this name then, and the subscription that is asked, or else the one that it had.
fn rename_job(
    alloc: Global,
    selected: Option<&[u8]>,
    folder: &Folder,
    patch: &Map<String, Value>,
    to: Bytes,
) -> Result<Job, AllocError>
    ensures { IfOk result (λ job. job ≡ spec.rename_job (option_copied selected.entry) folder.now (members_view patch.now.entries) to) }
{
    let mut steps = renames(alloc, selected, folder.name.share()?, to.share()?)?;
    let was = is_subscribed(folder);
    put_subscribe_anew(&mut steps, to, was, subscription_in(patch, was))?;
    Ok(update_job(folder, steps))
}

/// The folder's name stays.
fn subscription_job(
    alloc: Global,
    folder: &Folder,
    patch: &Map<String, Value>,
) -> Result<Job, AllocError>
    ensures { IfOk result (λ job. job ≡ spec.subscription_job folder.now (members_view patch.now.entries)) }
{
    let mut steps = Listed::from_vec(Vec::new(alloc));
    let was = is_subscribed(folder);
    let name = folder.name.share()?;
    put_subscribe(&mut steps, name, was, subscription_in(patch, was))?;
    Ok(update_job(folder, steps))
}

// ---- checks

fn lacks_rename_right(folder: &Folder, now: &Place<'_>, asked: &Place<'_>) -> bool
    ensures { result ≡ spec.lacks_rename_right folder.now (place_data now.now) (place_data asked.now) }
{
    !rights_of(folder).may_rename || (is_moved(now, asked) && lacks_child_right(asked.parent))
}

/// Whether a name that is given is wrong, or that of a folder that stays.
fn cannot_be_renamed(
    alloc: Global,
    given: &Given<'_, '_>,
    lengths: &BTreeSet<usize>,
    folder: &Folder,
    asked: &Place<'_>,
    to: &[u8],
) -> Result<bool, AllocError>
    requires lengths { AreLengths lengths.now given.now.mirror.now.mail.folders }
    requires to { to.now ≡ spec.name_at (place_data asked.now) }
    ensures { (g : Facts) → IsGiven given.now g → IfOk result (λ wrong. wrong ≡ spec.cannot_be_renamed g folder.now (place_data asked.now)) }
{
    let (this, parent) = (Some(folder), asked.parent);
    if is_name_wrong(alloc, given.mirror, lengths, this, parent, asked.name)? {
        return Ok(true);
    }
    clashes(alloc, given.mirror, folder.name.as_slice(), to)
}

fn rename_to(
    alloc: Global,
    given: &Given<'_, '_>,
    lengths: &BTreeSet<usize>,
    patch: &Map<String, Value>,
    folder: &Folder,
    now: &Place<'_>,
    asked: &Place<'_>,
) -> Result<Result<Job, SetError>, AllocError>
    requires { AreLengths lengths.now given.now.mirror.now.mail.folders }
    ensures { (g : Facts) → IsGiven given.now g → IfOk result (λ r. r ≡ spec.rename_to g (members_view patch.now.entries) folder.now (place_data now.now) (place_data asked.now)) }
{
    if is_within(folder, asked.parent) {
        return Ok(Err(wrong_parent(alloc)?));
    }
    let to = full_name(alloc, asked.parent, asked.name)?;
    if cannot_be_renamed(alloc, given, lengths, folder, asked, to.as_slice())? {
        return Ok(Err(wrong_name(alloc)?));
    }
    if lacks_rename_right(folder, now, asked) {
        return Ok(Err(SetError::Forbidden));
    }
    Ok(Ok(rename_job(alloc, given.selected, folder, patch, to)?))
}

/// Where name and parent are as they are nothing is renamed, and no right is asked.
fn update_under(
    alloc: Global,
    given: &Given<'_, '_>,
    lengths: &BTreeSet<usize>,
    patch: &Map<String, Value>,
    folder: &Folder,
    now: &Place<'_>,
    parent: Option<&Folder>,
) -> Result<Result<Job, SetError>, AllocError>
    requires { AreLengths lengths.now given.now.mirror.now.mail.folders }
    ensures { (g : Facts) → IsGiven given.now g → IfOk result (λ r. r ≡ spec.update_under g (members_view patch.now.entries) folder.now (place_data now.now) (option_copied parent.entry)) }
{
    let name = name_or(alloc, now.name, name_in(patch))?;
    let asked = Place { parent, name };
    if is_renamed(now, &asked) {
        return rename_to(alloc, given, lengths, patch, folder, now, &asked);
    }
    Ok(Ok(subscription_job(alloc, folder, patch)?))
}

/// The parent that is asked, or this one where none is.
fn parent_or<'g>(
    given: &Given<'g, '_>,
    now: Option<&'g Folder>,
    value: Option<&Value>,
) -> ParentAsked<'g>
    ensures { (g : Facts) → IsGiven given.now g → asked_parent result ≡ spec.parent_or g (option_copied now.entry) (option_map view (option_copied value.entry)) }
{
    if value.is_some() {
        return parent_as(given, value);
    }
    match now {
        None => ParentAsked::Top,
        Some(parent) => ParentAsked::Under(parent),
    }
}

fn update_right(
    alloc: Global,
    given: &Given<'_, '_>,
    patch: &Map<String, Value>,
    folder: &Folder,
) -> Result<Result<Job, SetError>, AllocError>
    ensures { (g : Facts) → IsGiven given.now g → IfOk result (λ r. r ≡ spec.update_right g (members_view patch.now.entries) folder.now) }
{
    let lengths = name_lengths(alloc, given.mirror.folders())?;
    let now = place_now(given.mirror, &lengths, folder);
    match parent_or(given, now.parent, member(patch, "parentId")) {
        ParentAsked::Top => update_under(alloc, given, &lengths, patch, folder, &now, None),
        ParentAsked::Under(parent) => {
            update_under(alloc, given, &lengths, patch, folder, &now, Some(parent))
        }
        ParentAsked::Nowhere => Ok(Err(wrong_parent(alloc)?)),
    }
}

fn update_found<'g>(
    alloc: Global,
    given: &Given<'g, '_>,
    patch: &Map<String, Value>,
    folder: &'g Folder,
) -> Result<Result<Job, SetError>, AllocError>
    ensures { (g : Facts) → IsGiven given.now g → IfOk result (λ r. r ≡ spec.update_found g (members_view patch.now.entries) folder.now) }
{
    let parts = patch_of(alloc, patch)?;
    if is_invalid_patch(&MAILBOX_OBJECTS, patch, &parts) {
        return Ok(Err(SetError::InvalidPatch));
    }
    let test = ChangeTest {
        given: *given,
        folder,
        served: served_value(alloc, given, folder.number)?,
    };
    let properties = wrong_properties(alloc, &test, &parts)?;
    if !properties.is_empty() {
        return Ok(Err(SetError::InvalidProperties { properties }));
    }
    update_right(alloc, given, patch, folder)
}

/// What an update of the Mailbox that this text names asks of the store (RFC 8621 section 2.5). A refusal is, in this order, `NotFound`,
/// `InvalidPatch`, `InvalidProperties`, `Forbidden`.
pub fn update_mailbox(
    alloc: Global,
    given: &Given<'_, '_>,
    text: &str,
    patch: &Map<String, Value>,
) -> Result<Result<Job, SetError>, AllocError>
    ensures { (g : Facts) → IsGiven given.now g → IfOk result (λ r. r ≡ spec.update_mailbox g text.now (members_view patch.now.entries)) }
{
    match folder_named(given, text) {
        None => Ok(Err(SetError::NotFound)),
        Some(folder) => update_found(alloc, given, patch, folder),
    }
}
