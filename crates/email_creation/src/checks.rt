// The checks of an Email that is to be created, in order (RFC 8621 section 4.6).
ghost use Rattle.std.specs.Prelude.{◌≡◌, ◌∷◌, [], IfOk};
ghost use Rattle.serde_json.specs.View.{members_view};
ghost use Rattle.set_jobs.specs.declared.done.SetError.TheVariants as why;
ghost use Rattle.set_given.specs.Given.{Given as GivenFacts};
ghost use Rattle.set_given.specs.reading.Givens.{IsGiven};
ghost use Rattle.email_checks.specs.Emails.{no_folder as no_folder_error};
ghost use Rattle.email_creation.specs.Asked as asks;
ghost use Rattle.email_creation.specs.Creations.{ChecksCreation, creation_of};
ghost use Rattle.email_creation.specs.reading.Checked as checked;

use crate::flags::flags_asked;
use crate::mailboxes::{MailboxAsked, mailbox_asked};
use crate::members::member;
use crate::ready::ReadyCreation;
use blob_store::BlobStore;
use draft_reading::read_draft;
use email_checks::can_be_moved_into;
use jmap_values::utc_seconds;
use mail_drafts::{BuildError, Draft};
use octets::{Listed, Text};
use serde_json::{Map, Value};
use set_given::Given;
use set_jobs::SetError;
use std::alloc::{AllocError, Global};
use std::cmp::Ordering;
use told_folder::Folder;

// ---- refusals

/// The property is wrong.
fn wrong_property(alloc: Global, property: Text) -> Result<SetError, AllocError>
    ensures { IfOk result (λ error. error ≡ why.InvalidProperties (property ∷ [])) }
{
    let mut properties = Listed::from_vec(Vec::new(alloc));
    properties.push(property)?;
    Ok(SetError::InvalidProperties { properties })
}

/// No Mailbox is named.
fn no_folder(alloc: Global) -> Result<SetError, AllocError>
    ensures { IfOk result (λ error. error ≡ no_folder_error) }
{
    wrong_property(alloc, Text::copy_of(alloc, "mailboxIds")?)
}

/// Whether mailboxIds is wrong, and stands before the property.
fn is_wrong_before(asked: MailboxAsked<'_>, property: &str) -> bool
    ensures { result ≡ checked.is_wrong_before asked.entry property.now }
{
    match asked {
        MailboxAsked::Nowhere => "mailboxIds".cmp(property) == Ordering::Less,
        MailboxAsked::One(_) | MailboxAsked::Several => false,
    }
}

/// The first property that is wrong, where this is the first that a draft can't have.
fn first_wrong(
    alloc: Global,
    asked: MailboxAsked<'_>,
    property: Text,
) -> Result<SetError, AllocError>
    ensures { IfOk result (λ error. error ≡ checked.first_wrong asked.entry property) }
{
    if is_wrong_before(asked, property.as_str()) {
        return no_folder(alloc);
    }
    wrong_property(alloc, property)
}

/// The refusal where these uploads aren't kept.
fn without_uploads(
    alloc: Global,
    asked: MailboxAsked<'_>,
    ids: Listed<Text>,
) -> Result<SetError, AllocError>
    ensures { IfOk result (λ error. error ≡ checked.without_uploads asked.entry ids) }
{
    match asked {
        MailboxAsked::One(_) => Ok(SetError::BlobNotFound { ids }),
        MailboxAsked::Nowhere => no_folder(alloc),
        MailboxAsked::Several => Ok(SetError::TooManyMailboxes),
    }
}

// ---- creations that pass

/// The second that the properties ask as the date.
pub fn date_asked(properties: &Map<String, Value>) -> Option<i64>
    ensures { result ≡ asks.date_asked (members_view properties.now.entries) }
{
    let text = member(properties, "receivedAt")?.as_str()?;
    utc_seconds(text.as_bytes())
}

/// What is kept of a creation into this folder.
fn creation_of(
    alloc: Global,
    properties: &Map<String, Value>,
    folder: &Folder,
    draft: Draft,
) -> Result<ReadyCreation, AllocError>
    ensures { IfOk result (λ ready. ready ≡ creation_of (members_view properties.now.entries) folder.now draft) }
{
    Ok(ReadyCreation {
        name: folder.name.share()?,
        draft,
        flags: flags_asked(alloc, properties)?,
        date: date_asked(properties),
    })
}

/// A creation into this folder.
fn into_folder(
    alloc: Global,
    properties: &Map<String, Value>,
    folder: &Folder,
    draft: Draft,
) -> Result<Result<ReadyCreation, SetError>, AllocError>
    ensures { IfOk result (λ came. came ≡ checked.into_folder (members_view properties.now.entries) folder.now draft) }
{
    if !can_be_moved_into(folder) {
        return Ok(Err(SetError::Forbidden));
    }
    Ok(Ok(creation_of(alloc, properties, folder, draft)?))
}

/// A creation whose properties are read as a draft.
fn with_draft(
    alloc: Global,
    properties: &Map<String, Value>,
    asked: MailboxAsked<'_>,
    draft: Draft,
) -> Result<Result<ReadyCreation, SetError>, AllocError>
    ensures { IfOk result (λ came. came ≡ checked.with_draft (members_view properties.now.entries) asked.entry draft) }
{
    match asked {
        MailboxAsked::One(folder) => into_folder(alloc, properties, folder, draft),
        MailboxAsked::Nowhere => Ok(Err(no_folder(alloc)?)),
        MailboxAsked::Several => Ok(Err(SetError::TooManyMailboxes)),
    }
}

/// What these properties of an Email that is to be created come to: a creation that passes, or, in this order, `InvalidProperties`,
/// `TooManyMailboxes`, `BlobNotFound`, `Forbidden`. What is named to be attached is sought among the uploads alone.
#[tactic(auto, using(crate::proofs::CheckLemmas::without_is))]
pub fn check_creation(
    alloc: Global,
    given: &Given<'_, '_>,
    uploads: &BlobStore,
    properties: &Map<String, Value>,
) -> Result<Result<ReadyCreation, SetError>, AllocError>
    ensures { (g : GivenFacts) → IsGiven given.now g → IfOk result (ChecksCreation g uploads.now (members_view properties.now.entries)) }
{
    let asked = mailbox_asked(given, properties);
    match read_draft(alloc, properties, uploads) {
        Ok(draft) => Ok(with_draft(alloc, properties, asked, draft)?),
        Err(BuildError::BadValue { property }) => Ok(Err(first_wrong(alloc, asked, property)?)),
        Err(BuildError::BlobNotFound { ids }) => Ok(Err(without_uploads(alloc, asked, ids)?)),
        Err(BuildError::TooLarge { size: _ }) => unreachable!(),
        Err(BuildError::Memory) => Err(AllocError),
    }
}
