// What the header of a body part says.
ghost use Rattle.std.specs.Prelude.{◌≡◌, [], unwrap_or, IfOk, codes};
ghost use Rattle.mail_header.specs.Fields.{names_and_raws, last_named};
ghost use Rattle.mime_fields.specs.Dispositions.{leading_token};
ghost use Rattle.mime_fields.specs.PartHeaders as headers;
ghost use Rattle.mime_fields.specs.reading.MimeLexemes.{mime_lexemes};

use crate::content_id::content_id;
use crate::content_type::read_type;
use crate::disposition::{first_token, name_of, read_disposition};
use crate::field_text::{octets_of, raw_of, trimmed_text_of};
use mail_header::Fields;
use octets::Bytes;
use std::alloc::{AllocError, Global};

/// What the header of a body part says.
#[derive(Drop)]
pub struct PartHeader {
    /// The media type as `type/subtype`, in lower case, where there is one that can be read.
    pub media: Option<Bytes>,
    /// The octets of the parameter `boundary` of Content-Type.
    pub boundary: Option<Bytes>,
    /// The parameter `charset` of Content-Type.
    pub charset: Option<Bytes>,
    /// The type of Content-Disposition, in lower case.
    pub disposition: Option<Bytes>,
    /// The name of the part's file.
    pub name: Option<Bytes>,
    /// Content-ID without white space, without one pair of angle brackets and without the comments around them.
    pub cid: Option<Bytes>,
    /// Content-Language as it is written.
    pub language: Option<Bytes>,
    /// Content-Location as a text without white space at its ends.
    pub location: Option<Bytes>,
    /// The mechanism of Content-Transfer-Encoding, in lower case, where there is the field; the empty text, which names no
    /// encoding, where it has no token. A part without the field is in `7bit`.
    pub encoding: Option<Bytes>,
}

/// The id of Content-ID.
fn id_of(alloc: Global, fields: &Fields<'_>) -> Result<Option<Bytes>, AllocError>
    ensures { IfOk result (λ id. headers.IsIdOf (last_named (codes "content-id") (names_and_raws fields.now)) id) }
{
    match fields.last(b"content-id") {
        None => Ok(None),
        Some(raw) => content_id(alloc, raw),
    }
}

/// The mechanism of Content-Transfer-Encoding, where there is the field.
fn transfer_encoding(alloc: Global, fields: &Fields<'_>) -> Result<Option<Bytes>, AllocError>
    ensures { IfOk result (λ e. e ≡ headers.mechanism (last_named (codes "content-transfer-encoding") (names_and_raws fields.now)) (mime_lexemes (headers.field_octets (names_and_raws fields.now) (codes "content-transfer-encoding")))) }
{
    match fields.last(b"content-transfer-encoding") {
        None => Ok(None),
        Some(raw) => Ok(Some(token_or_none(alloc, raw)?)),
    }
}

/// The token at the front in lower case, or the empty text.
fn token_or_none(alloc: Global, text: &[u8]) -> Result<Bytes, AllocError>
    ensures { IfOk result (λ t. t ≡ unwrap_or (leading_token (mime_lexemes text.now)) []) }
{
    match first_token(alloc, text)? {
        None => Bytes::copy_of(alloc, b""),
        Some(token) => Ok(token),
    }
}

/// What the header of a body part says, where of several fields of a name the last counts (RFC 8621 section 4.1.4).
/// What can't be read is passed over. A field that is missing takes no memory.
pub fn part_header(alloc: Global, fields: &Fields<'_>) -> Result<PartHeader, AllocError>
    ensures { IfOk result (λ h. headers.IsPartHeader (names_and_raws fields.now) h) }
{
    let content = read_type(alloc, octets_of(fields, b"content-type"))?;
    let disposition = read_disposition(alloc, octets_of(fields, b"content-disposition"))?;
    let name = name_of(alloc, disposition.extended, disposition.file, content.name)?;
    Ok(PartHeader {
        media: content.media,
        boundary: content.boundary,
        charset: content.charset,
        disposition: disposition.kind,
        name,
        cid: id_of(alloc, fields)?,
        language: raw_of(alloc, fields, b"content-language")?,
        location: trimmed_text_of(alloc, fields, b"content-location")?,
        encoding: transfer_encoding(alloc, fields)?,
    })
}
