// The destroys of Mailbox/set: their checks in order, and their steps (RFC 8621 section 2.5, RFC 9051 section 6.3.5).
ghost use Rattle.std.specs.Prelude.{◌≡◌, Bool, IfOk};
ghost use Rattle.set_given.specs.Given.{Given as Facts};
ghost use Rattle.set_given.specs.reading.Givens.{IsGiven};
ghost use Rattle.mailbox_checks.specs.Destroy as spec;

use crate::steps::deletes;
use mail_maps::hierarchy::name_lengths;
use mail_maps::rights::rights_of;
use mail_maps::visible::is_served;
use mailbox_names::has_child;
use set_given::{Given, folder_to_destroy};
use set_jobs::{Done, Job, SetError};
use std::alloc::{AllocError, Global};
use told_mail::{Folder, Mirror};

/// Whether an Email is in the folder of the number.
fn has_email(mirror: &Mirror, number: u64) -> bool
    ensures { result ≡ spec.has_email mirror.now.mail.folders number }
{
    mirror.each_is_mail();
    for message in mirror.messages(number) {
        if is_served(message) {
            return true;
        }
    }
    false
}

fn destroy_found(
    alloc: Global,
    given: &Given<'_, '_>,
    removes: bool,
    folder: &Folder,
) -> Result<Result<Job, SetError>, AllocError>
    ensures { (g : Facts) → IsGiven given.now g → IfOk result (λ r. r ≡ spec.destroy_found g removes folder.now) }
{
    if !rights_of(folder).may_delete {
        return Ok(Err(SetError::Forbidden));
    }
    let lengths = name_lengths(alloc, given.mirror.folders())?;
    if has_child(given.mirror, &lengths, folder) {
        return Ok(Err(SetError::MailboxHasChild));
    }
    if !removes && has_email(given.mirror, folder.number) {
        return Ok(Err(SetError::MailboxHasEmail));
    }
    Ok(Ok(Job {
        steps: deletes(alloc, given.selected, folder.name.share()?)?,
        done: Done::Gone {
            number: folder.number,
        },
    }))
}

/// What a destroy of the Mailbox that this text names asks of the store, also with its Emails where that is asked (RFC 8621 section 2.5).
/// A refusal is, in this order, `NotFound`, `Forbidden`, `MailboxHasChild`, `MailboxHasEmail`.
pub fn destroy_mailbox(
    alloc: Global,
    given: &Given<'_, '_>,
    removes: bool,
    text: &str,
) -> Result<Result<Job, SetError>, AllocError>
    ensures { (g : Facts) → IsGiven given.now g → IfOk result (λ r. r ≡ spec.destroy_mailbox g removes text.now) }
{
    match folder_to_destroy(given, text) {
        None => Ok(Err(SetError::NotFound)),
        Some(folder) => destroy_found(alloc, given, removes, folder),
    }
}
