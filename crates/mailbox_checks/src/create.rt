// The creations of Mailbox/set: their checks in order, and their steps (RFC 8621 section 2.5, RFC 9051 section 6.3.4).
ghost use Rattle.std.specs.Prelude.{◌≡◌, IfOk, None};
ghost use Rattle.std.specs.Option.{option_copied};
ghost use Rattle.mail_maps.specs.Mailboxes.{folders_of};
ghost use Rattle.mail_maps.specs.reading.Fronts.{AreLengths};
ghost use Rattle.serde_json.specs.View.{members_view};
ghost use Rattle.set_given.specs.Given.{Given as Facts};
ghost use Rattle.set_given.specs.reading.Givens.{IsGiven};
ghost use Rattle.mailbox_checks.specs.Create as spec;
ghost use Rattle.mailbox_checks.specs.reading.Places.{asked_parent};

use crate::properties::{
    NewTest, ParentAsked, member, name_in, parent_as, subscription_in, wrong_name, wrong_parent,
};
use crate::steps::creates;
use mail_maps::hierarchy::name_lengths;
use mail_maps::rights::rights_of;
use mailbox_names::{can_be_named, full_name, has_sibling};
use serde_json::{Map, Value};
use set_given::Given;
use set_jobs::{Done, Job, SetError};
use set_patches::{properties_of, wrong_properties};
use std::alloc::{AllocError, Global};
use std::collections::BTreeSet;
use told_mail::{Folder, Mirror};

/// Whether this folder, or a new one, can't have the name under the parent. The folders are walked only where the name by itself can be had.
pub(crate) fn is_name_wrong(
    alloc: Global,
    mirror: &Mirror,
    lengths: &BTreeSet<usize>,
    this: Option<&Folder>,
    parent: Option<&Folder>,
    name: &[u8],
) -> Result<bool, AllocError>
    requires { AreLengths lengths.now mirror.now.mail.folders }
    ensures { IfOk result (λ wrong. wrong ≡ spec.is_name_wrong (folders_of mirror.now.mail.folders) (option_copied this.entry) (option_copied parent.entry) name.now) }
{
    if !can_be_named(mirror, parent, name) {
        return Ok(true);
    }
    has_sibling(alloc, mirror, lengths, this, parent, name)
}

/// The same of a new folder.
fn is_new_name_wrong(
    alloc: Global,
    mirror: &Mirror,
    parent: Option<&Folder>,
    name: &[u8],
) -> Result<bool, AllocError>
    ensures { IfOk result (λ wrong. wrong ≡ spec.is_name_wrong (folders_of mirror.now.mail.folders) None (option_copied parent.entry) name.now) }
{
    if !can_be_named(mirror, parent, name) {
        return Ok(true);
    }
    let lengths = name_lengths(alloc, mirror.folders())?;
    has_sibling(alloc, mirror, &lengths, None, parent, name)
}

/// Whether no child may be made in the parent.
pub(crate) fn lacks_child_right(parent: Option<&Folder>) -> bool
    ensures { result ≡ spec.lacks_child_right (option_copied parent.entry) }
{
    match parent {
        None => false,
        Some(parent) => !rights_of(parent).may_create_child,
    }
}

/// The name that is asked: the empty one, which no Mailbox can have, where none is.
fn name_or_empty(properties: &Map<String, Value>) -> &[u8]
    ensures { result.now ≡ spec.name_or_empty (members_view properties.now.entries) }
{
    match name_in(properties) {
        Some(name) => name.as_bytes(),
        None => &[],
    }
}

fn creation_of(
    alloc: Global,
    given: &Given<'_, '_>,
    properties: &Map<String, Value>,
    parent: Option<&Folder>,
) -> Result<Job, AllocError>
    ensures { (g : Facts) → IsGiven given.now g → IfOk result (λ job. job ≡ spec.creation_of g (members_view properties.now.entries) (option_copied parent.entry)) }
{
    let name = full_name(alloc, parent, name_or_empty(properties))?;
    let subscribed = subscription_in(properties, false);
    Ok(Job {
        steps: creates(alloc, name, subscribed, given.special_use)?,
        done: Done::MadeMailbox { number: 0 },
    })
}

fn create_under(
    alloc: Global,
    given: &Given<'_, '_>,
    properties: &Map<String, Value>,
    parent: Option<&Folder>,
) -> Result<Result<Job, SetError>, AllocError>
    ensures { (g : Facts) → IsGiven given.now g → IfOk result (λ r. r ≡ spec.create_under g (members_view properties.now.entries) (option_copied parent.entry)) }
{
    if is_new_name_wrong(alloc, given.mirror, parent, name_or_empty(properties))? {
        return Ok(Err(wrong_name(alloc)?));
    }
    if lacks_child_right(parent) {
        return Ok(Err(SetError::Forbidden));
    }
    Ok(Ok(creation_of(alloc, given, properties, parent)?))
}

fn create_at(
    alloc: Global,
    given: &Given<'_, '_>,
    properties: &Map<String, Value>,
    parent: ParentAsked<'_>,
) -> Result<Result<Job, SetError>, AllocError>
    ensures { (g : Facts) → IsGiven given.now g → IfOk result (λ r. r ≡ spec.create_at g (members_view properties.now.entries) (asked_parent parent.entry)) }
{
    match parent {
        ParentAsked::Top => create_under(alloc, given, properties, None),
        ParentAsked::Under(folder) => create_under(alloc, given, properties, Some(folder)),
        ParentAsked::Nowhere => Ok(Err(wrong_parent(alloc)?)),
    }
}

/// What the creation of a Mailbox with these properties asks of the store (RFC 8621 section 2.5). A refusal is, in this order,
/// `InvalidProperties`, `Forbidden`.
pub fn create_mailbox(
    alloc: Global,
    given: &Given<'_, '_>,
    properties: &Map<String, Value>,
) -> Result<Result<Job, SetError>, AllocError>
    ensures { (g : Facts) → IsGiven given.now g → IfOk result (λ r. r ≡ spec.create_mailbox g (members_view properties.now.entries)) }
{
    let parts = properties_of(alloc, properties)?;
    let wrong = wrong_properties(alloc, &NewTest { given: *given }, &parts)?;
    if !wrong.is_empty() {
        return Ok(Err(SetError::InvalidProperties { properties: wrong }));
    }
    let parent = parent_as(given, member(properties, "parentId"));
    create_at(alloc, given, properties, parent)
}
