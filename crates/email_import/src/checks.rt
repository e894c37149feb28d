// The checks of an import, in order, before its octets are sought (RFC 8621 section 4.8).
ghost use Rattle.std.specs.Prelude.{◌≡◌, ◌∷◌, [], IfOk, Some, option_map};
ghost use Rattle.serde_json.specs.View.{members_view};
ghost use Rattle.set_jobs.specs.declared.done.SetError.TheVariants as why;
ghost use Rattle.set_given.specs.Given.{Given as GivenFacts};
ghost use Rattle.set_given.specs.reading.Givens.{IsGiven};
ghost use Rattle.email_import.specs.Imports.{ChecksImport, import_of};
ghost use Rattle.email_import.specs.reading.Checked as checked;

use crate::members::{blob_asked, wrong_member};
use crate::ready::ReadyImport;
use email_checks::can_be_moved_into;
use email_creation::{MailboxAsked, date_asked, flags_asked, mailbox_asked};
use octets::{Listed, Text};
use serde_json::{Map, Value};
use set_given::Given;
use set_jobs::SetError;
use std::alloc::{AllocError, Global};
use std::cmp::Ordering;
use told_folder::Folder;

/// The property is wrong.
fn wrong_property(alloc: Global, property: &str) -> Result<SetError, AllocError>
    ensures { IfOk result (λ error. error ≡ why.InvalidProperties (property.now ∷ [])) }
{
    let mut properties = Listed::from_vec(Vec::new(alloc));
    properties.push(Text::copy_of(alloc, property)?)?;
    Ok(SetError::InvalidProperties { properties })
}

/// The lesser of a property and of the first member that is wrong, where there is one.
fn first_of<'a>(member: Option<&'a str>, property: &'a str) -> &'a str
    ensures { result.now ≡ checked.first_of (option_map (λ t. t.now) member.entry) property.now }
{
    match member {
        None => property,
        Some(key) => match key.cmp(property) {
            Ordering::Less => key,
            _ => property,
        },
    }
}

/// What is kept of an import of the blob into the folder.
fn import_of(
    alloc: Global,
    properties: &Map<String, Value>,
    blob: &str,
    folder: &Folder,
) -> Result<ReadyImport, AllocError>
    ensures { IfOk result (λ ready. ready ≡ import_of (members_view properties.now.entries) blob.now folder.now) }
{
    Ok(ReadyImport {
        blob: Text::copy_of(alloc, blob)?,
        name: folder.name.share()?,
        takes: can_be_moved_into(folder),
        flags: flags_asked(alloc, properties)?,
        date: date_asked(properties),
    })
}

/// An import whose members are right.
fn into_mailbox(
    alloc: Global,
    properties: &Map<String, Value>,
    blob: &str,
    asked: MailboxAsked<'_>,
) -> Result<Result<ReadyImport, SetError>, AllocError>
    ensures { IfOk result (λ came. came ≡ checked.into_mailbox (members_view properties.now.entries) blob.now asked.entry) }
{
    match asked {
        MailboxAsked::One(folder) => Ok(Ok(import_of(alloc, properties, blob, folder)?)),
        MailboxAsked::Nowhere => Ok(Err(wrong_property(alloc, "mailboxIds")?)),
        MailboxAsked::Several => Ok(Err(SetError::TooManyMailboxes)),
    }
}

/// The first property that is wrong, where this is the first member that is.
fn first_wrong<'a>(key: &'a str, asked: MailboxAsked<'_>) -> &'a str
    ensures { result.now ≡ checked.first_wrong key.now asked.entry }
{
    match asked {
        MailboxAsked::Nowhere => first_of(Some(key), "mailboxIds"),
        MailboxAsked::One(_) | MailboxAsked::Several => key,
    }
}

/// What these properties of an EmailImport come to before its octets are sought: an import, or, in this order, `InvalidProperties` with
/// the first property that is wrong, `TooManyMailboxes`.
pub fn check_import(
    alloc: Global,
    given: &Given<'_, '_>,
    properties: &Map<String, Value>,
) -> Result<Result<ReadyImport, SetError>, AllocError>
    ensures { (g : GivenFacts) → IsGiven given.now g → IfOk result (ChecksImport g (members_view properties.now.entries)) }
{
    let asked = mailbox_asked(given, properties);
    let member = wrong_member(given, properties);
    match blob_asked(properties) {
        None => Ok(Err(wrong_property(alloc, first_of(member, "blobId"))?)),
        Some(blob) => match member {
            None => into_mailbox(alloc, properties, blob, asked),
            Some(key) => Ok(Err(wrong_property(alloc, first_wrong(key, asked))?)),
        },
    }
}
