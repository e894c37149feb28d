// The attachments that a draft lists, and the uploads that they are.
ghost use Rattle.std.specs.Prelude.{◌≡◌, ℕ, List, true, Some, map, option_map, IfOk, IfErr, IfSome};
ghost use Rattle.std.specs.List.{AllZip, filter};
ghost use Rattle.serde_json.specs.View.{view, items_view};
ghost use Rattle.blob_store.specs.Uploads.{upload_with};
ghost use Rattle.jmap_arguments.specs.Gets.{distinct_ids};
ghost use Rattle.mail_drafts.specs.MediaTypes.{is_leaf_type, is_token_or_none};
ghost use Rattle.draft_reading.specs.Parts as spec;
ghost use Rattle.draft_reading.specs.Readings.{IsUpload, blob_ids, is_missing};
ghost use Rattle.draft_reading.specs.Values.{each_in, list_in};
ghost use Rattle.draft_reading.specs.reading.Uploads.{IsMissing, is_kept};
ghost use Rattle.draft_reading.specs.reading.Views.{attached_view, part_view, text_view};

use crate::attached::Attached;
use crate::part::Part;
use crate::parts::part_in;
use crate::texts::{is_attachable, is_of, is_token};
use crate::values::text_of;
use blob_store::BlobStore;
use jmap_arguments::distinct;
use mail_drafts::{Attachment, BuildError};
use octets::{Bytes, Listed, Text};
use serde_json::Value;
use std::alloc::{AllocError, Global};
use text_words::same_text;

const OCTET_STREAM: &str = "application/octet-stream";

/// The media type that is written, where this one may be attached. An attached message is octets without a type: no message is in
/// base64 (RFC 2045 section 6.4).
#[tactic(auto, using(crate::proofs::PartLemmas::leaf_is, crate::proofs::PartLemmas::octets_are_leaf), unfolding(crate::specs::Parts::type_in))]
fn type_in(media: Option<&str>) -> Option<&str>
    ensures value { text_view result ≡ spec.type_in (text_view media.entry) }
    ensures leaf { IfSome result (λ t. is_leaf_type t.now ≡ true) }
{
    let Some(media) = media else {
        return Some(OCTET_STREAM);
    };
    if !is_attachable(media) {
        return None;
    }
    if is_of("message", media) {
        Some(OCTET_STREAM)
    } else {
        Some(media)
    }
}

/// The charset that is written: a token, and of texts alone.
#[tactic(auto, unfolding(crate::specs::Parts::charset_of))]
fn charset_of<'a>(media: &str, charset: Option<&'a str>) -> Option<&'a str>
    ensures value { text_view result ≡ spec.charset_of media.now (text_view charset.entry) }
    ensures token { is_token_or_none (text_view result) ≡ true }
{
    if !is_of("text", media) {
        return None;
    }
    let charset = charset?;
    if is_token(charset.as_bytes()) {
        Some(charset)
    } else {
        None
    }
}

fn is_inline(disposition: Option<&str>) -> bool
    ensures { result ≡ spec.is_inline (text_view disposition.entry) }
{
    match disposition {
        None => false,
        Some(text) => same_text(text.as_bytes(), b"inline"),
    }
}

/// What a part asks to attach.
#[tactic(auto, unfolding(crate::specs::Parts::attached_of))]
fn attached_of<'a>(part: &Part<'a>) -> Option<Attached<'a>>
    ensures { option_map attached_view result ≡ spec.attached_of (part_view part.now) }
{
    let blob = part.blob?;
    let media = type_in(part.media)?;
    Some(Attached {
        blob,
        media,
        charset: charset_of(media, part.charset),
        name: part.name,
        cid: part.cid,
        inline: is_inline(part.disposition),
    })
}

fn attachment_in(value: &Value) -> Option<Attached<'_>>
    ensures { option_map attached_view result ≡ spec.attachment_in (view value.now) }
{
    let part = part_in(value)?;
    attached_of(&part)
}

/// What items ask to attach.
fn each_attachment<'a>(
    alloc: Global,
    items: &'a Vec<Value>,
) -> Result<Option<Vec<Attached<'a>>>, AllocError>
    ensures { IfOk result (λ o. option_map (λ v. map attached_view v.items) o ≡ each_in spec.attachment_in (items_view items.now.items)) }
{
    let mut list = Vec::new(alloc);
    for item in items {
        let Some(asked) = attachment_in(item) else {
            return Ok(None);
        };
        list.push(asked)?;
    }
    Ok(Some(list))
}

/// What a list asks to attach.
pub(crate) fn attachments_in<'a>(
    alloc: Global,
    value: &'a Value,
) -> Result<Option<Vec<Attached<'a>>>, AllocError>
    ensures { IfOk result (λ o. option_map (λ v. map attached_view v.items) o ≡ list_in spec.attachment_in (view value.now)) }
{
    let Some(items) = value.as_array() else {
        return Ok(None);
    };
    each_attachment(alloc, items)
}

/// An upload, with what is said of it.
fn attachment_of(
    alloc: Global,
    asked: &Attached<'_>,
    bytes: &Bytes,
) -> Result<Attachment, AllocError>
    ensures { IfOk result (λ a. (uploads : List (List ℕ)) → upload_with asked.now.blob.now uploads ≡ Some bytes.now
        → IsUpload uploads (attached_view asked.now) a) }
{
    let bytes = bytes.share()?;
    let media = Text::copy_of(alloc, asked.media)?;
    let charset = text_of(alloc, asked.charset)?;
    let name = text_of(alloc, asked.name)?;
    let cid = text_of(alloc, asked.cid)?;
    Ok(Attachment {
        bytes,
        media,
        charset,
        name,
        cid,
        inline: asked.inline,
    })
}

/// Uploads that are kept, and the ids of those that aren't, in the order in which they are asked for.
#[derive(Drop)]
struct Sought<'a> {
    found: Vec<Attachment>,
    missing: Vec<&'a str>,
}

/// Seeks the uploads that are asked for.
fn seek_uploads<'a>(
    alloc: Global,
    asked: &[Attached<'a>],
    blobs: &BlobStore,
) -> Result<Sought<'a>, AllocError>
    ensures found { IfOk result (λ s. AllZip (IsUpload blobs.now) (filter (is_kept blobs.now) (map attached_view asked.now)) s.found.items) }
    ensures missing { IfOk result (λ s. map (λ t. t.now) s.missing.items ≡ filter (is_missing blobs.now) (blob_ids (map attached_view asked.now))) }
{
    let mut found = Vec::new(alloc);
    let mut missing = Vec::new(alloc);
    for one in asked {
        match blobs.get(one.blob.as_bytes()) {
            Some(bytes) => found.push(attachment_of(alloc, one, bytes)?)?,
            None => missing.push(one.blob)?,
        }
    }
    Ok(Sought { found, missing })
}

/// The texts, each once.
fn names_of(alloc: Global, texts: &Vec<&str>) -> Result<Listed<Text>, AllocError>
    ensures { IfOk result (λ names. names ≡ distinct_ids (map (λ t. t.now) texts.now.items)) }
{
    let once = distinct(alloc, texts)?;
    let mut names = Listed::from_vec(Vec::new(alloc));
    for text in &once {
        names.push(Text::copy_of(alloc, *text)?)?;
    }
    Ok(names)
}

/// The attachments that are asked for, or the ids of those that aren't kept.
pub(crate) fn attachments_of(
    alloc: Global,
    asked: &[Attached<'_>],
    blobs: &BlobStore,
) -> Result<Listed<Attachment>, BuildError>
    ensures found { IfOk result (λ list. AllZip (IsUpload blobs.now) (map attached_view asked.now) list) }
    ensures refused { IfErr result (IsMissing blobs.now (map attached_view asked.now)) }
{
    let sought = seek_uploads(alloc, asked, blobs)?;
    if sought.missing.is_empty() {
        Ok(Listed::from_vec(sought.found))
    } else {
        Err(BuildError::BlobNotFound {
            ids: names_of(alloc, &sought.missing)?,
        })
    }
}
