// The draft that the properties of an Email are read as (RFC 8621 section 4.6).
ghost use Rattle.std.specs.Prelude.{◌≡◌, ℕ, List, true, Some, codes, map, option_map, IfOk, IfErr};
ghost use Rattle.std.specs.List.{AllZip};
ghost use Rattle.serde_json.specs.Data.{Data};
ghost use Rattle.serde_json.specs.Find.{as_str, get_member};
ghost use Rattle.serde_json.specs.View.{members_view};
ghost use Rattle.mail_drafts.specs.Drafts.{are_filled, are_identifiers, is_text};
ghost use Rattle.draft_reading.specs.Mailboxes.{said, named_in};
ghost use Rattle.draft_reading.specs.Properties.{AreSomeAddresses, OrNull, NoneRefused};
ghost use Rattle.draft_reading.specs.Readings.{IsDraftOf, IsReadFailure, IsUpload, attached_in, list_at, value_at, text_value};
ghost use Rattle.draft_reading.specs.Values as values;
ghost use Rattle.draft_reading.specs.reading.Views.{attached_view};

use crate::attached::Attached;
use crate::attachments::{attachments_in, attachments_of};
use crate::checks::first_refused;
use crate::mailboxes::mailboxes_in;
use crate::parts::text_list_in;
use crate::values::{date_in, ids_in, member, text_of};
use blob_store::BlobStore;
use mail_drafts::{Attachment, BuildError, Draft, Mailbox};
use octets::{Listed, Names, Text};
use serde_json::{Map, Value};
use std::alloc::{AllocError, Global};
use zoned_moments::ZonedMoment;

/// A list with an element; an empty one says the same as none.
fn filled(list: Option<Vec<Mailbox>>) -> Option<Listed<Mailbox>>
    ensures value { option_map (map said) result ≡ values.filled (option_map (λ v. map said v.items) list) }
    ensures filled { are_filled result ≡ true }
{
    let list = list?;
    if list.is_empty() {
        None
    } else {
        Some(Listed::from_vec(list))
    }
}

/// The mailboxes at the key.
fn mailboxes_at(
    alloc: Global,
    all: &Map<String, Value>,
    key: &str,
) -> Result<Option<Listed<Mailbox>>, AllocError>
    requires { (d : Data) → get_member key.now (members_view all.now.entries) ≡ Some d → OrNull AreSomeAddresses d }
    ensures value { IfOk result (λ o. option_map (map said) o ≡ list_at named_in (members_view all.now.entries) key.now) }
    ensures filled { IfOk result (λ o. are_filled o ≡ true) }
{
    match member(all, key) {
        None => Ok(None),
        Some(value) => Ok(filled(mailboxes_in(alloc, value)?)),
    }
}

/// The ids at the key.
fn ids_at(alloc: Global, all: &Map<String, Value>, key: &str) -> Result<Option<Names>, AllocError>
    ensures value { IfOk result (λ o. o ≡ list_at values.id_in (members_view all.now.entries) key.now) }
    ensures identifiers { IfOk result (λ o. are_identifiers o ≡ true) }
{
    let Some(value) = member(all, key) else {
        return Ok(None);
    };
    let Some(ids) = ids_in(alloc, value)? else {
        return Ok(None);
    };
    if ids.is_empty() {
        Ok(None)
    } else {
        Ok(Some(ids))
    }
}

/// The moment of the date.
fn moment_at(all: &Map<String, Value>, key: &str) -> Option<ZonedMoment>
    ensures { option_map (λ z. z.moment) result ≡ value_at values.date_in (members_view all.now.entries) key.now }
{
    date_in(member(all, key)?)
}

/// The text of the part that is listed at the key.
fn body_at(
    alloc: Global,
    all: &Map<String, Value>,
    key: &str,
    media: &str,
) -> Result<Option<Text>, AllocError>
    ensures value { IfOk result (λ o. o ≡ text_value (members_view all.now.entries) key.now media.now) }
    ensures utf8 { IfOk result (λ o. is_text o ≡ true) }
{
    let Some(value) = member(all, key) else {
        return Ok(None);
    };
    match text_list_in(all, media, value) {
        None => Ok(None),
        Some(text) => text_of(alloc, text),
    }
}

/// The text at the key.
fn text_at<'a>(all: &'a Map<String, Value>, key: &str) -> Option<&'a str>
    ensures { option_map (λ t. t.now) result ≡ value_at as_str (members_view all.now.entries) key.now }
{
    member(all, key)?.as_str()
}

fn subject_at(alloc: Global, all: &Map<String, Value>) -> Result<Option<Text>, AllocError>
    ensures value { IfOk result (λ o. o ≡ value_at as_str (members_view all.now.entries) (codes "subject")) }
    ensures utf8 { IfOk result (λ o. is_text o ≡ true) }
{
    text_of(alloc, text_at(all, "subject"))
}

/// What is to be attached.
fn attached_at<'a>(
    alloc: Global,
    all: &'a Map<String, Value>,
) -> Result<Vec<Attached<'a>>, AllocError>
    ensures { IfOk result (λ v. map attached_view v.items ≡ attached_in (members_view all.now.entries)) }
{
    let Some(value) = member(all, "attachments") else {
        return Ok(Vec::new(alloc));
    };
    match attachments_in(alloc, value)? {
        None => Ok(Vec::new(alloc)),
        Some(list) => Ok(list),
    }
}

/// The draft of properties of which none is refused, with what is attached.
fn draft_of(
    alloc: Global,
    all: &Map<String, Value>,
    attachments: Listed<Attachment>,
) -> Result<Draft, AllocError>
    requires { NoneRefused (members_view all.now.entries) }
    ensures { IfOk result (λ d. (uploads : List (List ℕ)) → AllZip (IsUpload uploads) (attached_in (members_view all.now.entries)) attachments
        → IsDraftOf uploads (members_view all.now.entries) d) }
{
    Ok(Draft {
        date: moment_at(all, "sentAt"),
        from: mailboxes_at(alloc, all, "from")?,
        sender: mailboxes_at(alloc, all, "sender")?,
        reply_to: mailboxes_at(alloc, all, "replyTo")?,
        to: mailboxes_at(alloc, all, "to")?,
        cc: mailboxes_at(alloc, all, "cc")?,
        bcc: mailboxes_at(alloc, all, "bcc")?,
        subject: subject_at(alloc, all)?,
        message_id: ids_at(alloc, all, "messageId")?,
        in_reply_to: ids_at(alloc, all, "inReplyTo")?,
        references: ids_at(alloc, all, "references")?,
        text: body_at(alloc, all, "textBody", "text/plain")?,
        html: body_at(alloc, all, "htmlBody", "text/html")?,
        attachments,
    })
}

/// The draft of the properties of an Email that is to be created, or why there is none.
pub fn read_draft(
    alloc: Global,
    properties: &Map<String, Value>,
    blobs: &BlobStore,
) -> Result<Draft, BuildError>
    ensures draft { IfOk result (IsDraftOf blobs.now (members_view properties.now.entries)) }
    ensures refused { IfErr result (IsReadFailure blobs.now (members_view properties.now.entries)) }
{
    if let Some(key) = first_refused(alloc, properties)? {
        return Err(BuildError::BadValue {
            property: Text::copy_of(alloc, key)?,
        });
    }
    let asked = attached_at(alloc, properties)?;
    let attachments = attachments_of(alloc, asked.as_slice(), blobs)?;
    Ok(draft_of(alloc, properties, attachments)?)
}
