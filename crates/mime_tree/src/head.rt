// The head of a part, and its defaults.
ghost use Rattle.std.specs.Prelude.{◌≡◌, ◌≤◌, IfOk, MatchOption, None, Some, length, unwrap_or};
ghost use Rattle.mime_tree.specs.Heads as heads;
ghost use Rattle.mime_tree.specs.Heads.{IsHead};
ghost use Rattle.mime_tree.specs.reading.Shared.{AreShared};

use crate::shared::SharedTexts;
use crate::split::Piece;
use mail_header::fields;
use mime_fields::{PartHeader, part_header};
use octets::Bytes;
use std::alloc::{AllocError, Global};
use text_words::{Class, cut, same_text};

/// What a part's header says, and where the header and the body stand.
#[derive(Drop)]
pub struct Head {
    /// As it is read, without defaults.
    pub header: PartHeader,
    /// The media type that the header names, or else the default one.
    pub media: Bytes,
    /// The place where the header begins, in octets from the front of the message.
    pub start: usize,
    /// The place after the header, where the body begins.
    pub body: usize,
    /// The place after the body.
    pub end: usize,
}

/// The head of the part that stands there.
#[tactic(auto, using(crate::proofs::HeadLemmas::header_within))]
pub fn head_at(
    alloc: Global,
    bytes: &[u8],
    place: Piece,
    default: &Bytes,
) -> Result<Head, AllocError>
    requires ordered { place.start ≤ place.end }
    requires within { place.end ≤ length bytes.now }
    ensures { IfOk result (λ h. IsHead bytes.now place.start place.end default.now h) }
{
    let text = &bytes[place.start..place.end];
    let list = fields(alloc, text)?;
    let header = part_header(alloc, &list)?;
    let media = media_or(&header, default)?;
    Ok(Head {
        header,
        media,
        start: place.start,
        body: place.start + list.end(),
        end: place.end,
    })
}

/// The media type that the header names, or else the default one, with no copy.
fn media_or(header: &PartHeader, default: &Bytes) -> Result<Bytes, AllocError>
    ensures { IfOk result (λ m. m ≡ unwrap_or header.now.media default.now) }
{
    match &header.media {
        None => default.share(),
        Some(media) => media.share(),
    }
}

/// The octets before a slash.
pub(crate) struct BeforeSlash;

impl Class<u8> for BeforeSlash {
    ghost use Rattle.mime_tree.specs.Heads as heads;

    ghost test = { heads.is_no_slash };

    fn has(&self, item: &u8) -> bool {
        *item != b'/'
    }
}

#[tactic(auto, unfolding(crate::specs::Heads::is_multipart))]
fn is_multipart(media: &[u8]) -> bool
    ensures { result ≡ heads.is_multipart media.now }
{
    let (kind, _) = cut(&BeforeSlash, media);
    same_text(kind, b"multipart")
}

/// Whether the media type is a text.
#[tactic(auto, unfolding(crate::specs::Heads::is_text))]
pub fn is_text(media: &[u8]) -> bool
    ensures { result ≡ heads.is_text media.now }
{
    let (kind, _) = cut(&BeforeSlash, media);
    same_text(kind, b"text")
}

#[tactic(auto, unfolding(crate::specs::Heads::is_digest))]
fn is_digest(media: &[u8]) -> bool
    ensures { result ≡ heads.is_digest media.now }
{
    same_text(media, b"multipart/digest")
}

/// The media type of a leaf, which is no multipart.
pub(crate) fn leaf_media(shared: &SharedTexts, media: Bytes) -> Result<Bytes, AllocError>
    requires { AreShared shared.now }
    ensures { IfOk result (λ m. m ≡ heads.leaf_media media) }
{
    if is_multipart(media.as_slice()) {
        shared.text_plain.share()
    } else {
        Ok(media)
    }
}

/// The charset of a leaf of this media type.
pub(crate) fn leaf_charset(
    shared: &SharedTexts,
    media: &[u8],
    charset: Option<Bytes>,
) -> Result<Option<Bytes>, AllocError>
    requires { AreShared shared.now }
    ensures { IfOk result (λ c. c ≡ heads.leaf_charset media.now charset) }
{
    if !is_text(media) {
        return Ok(charset);
    }
    match charset {
        None => Ok(Some(shared.us_ascii.share()?)),
        Some(given) => Ok(Some(given)),
    }
}

/// The transfer encoding that the header names, or else 7bit.
pub(crate) fn encoding_or(
    shared: &SharedTexts,
    encoding: Option<Bytes>,
) -> Result<Bytes, AllocError>
    requires { AreShared shared.now }
    ensures { IfOk result (λ e. e ≡ unwrap_or encoding heads.seven_bit) }
{
    match encoding {
        None => shared.seven_bit.share(),
        Some(given) => Ok(given),
    }
}

/// The default media type in a multipart of this one.
pub(crate) fn default_in<'a>(shared: &'a SharedTexts, media: &[u8]) -> &'a Bytes
    requires { AreShared shared.now }
    ensures { result.now ≡ heads.default_in media.now }
{
    if is_digest(media) {
        &shared.message_rfc822
    } else {
        &shared.text_plain
    }
}

/// The boundary of a multipart that has one.
pub fn boundary_of(head: &Head) -> Option<&[u8]>
    ensures { MatchOption result (heads.boundary_of head.now ≡ None) (λ y. heads.boundary_of head.now ≡ Some y.now) }
{
    if !is_multipart(head.media.as_slice()) {
        return None;
    }
    match &head.header.boundary {
        None => None,
        Some(boundary) => filled(boundary.as_slice()),
    }
}

/// The text, where it isn't empty.
fn filled(text: &[u8]) -> Option<&[u8]>
    ensures { MatchOption result (heads.filled (Some text.now) ≡ None) (λ t. heads.filled (Some text.now) ≡ Some t.now) }
{
    match text {
        [] => None,
        [_, ..] => Some(text),
    }
}
