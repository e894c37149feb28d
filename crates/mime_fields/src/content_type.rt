// Content-Type.
ghost use Rattle.std.specs.Prelude.{◌≡◌, [], ◌++◌, ◌∷◌, None, Some, IfOk, MatchOption, codes};
ghost use Rattle.std.specs.Option.{option_and_then};
ghost use Rattle.header_tokens.specs.TokenView.{token_view};
ghost use Rattle.mime_fields.specs.ContentTypes as types;
ghost use Rattle.mime_fields.specs.reading.MimeLexemes.{mime_lexemes};

use crate::extended_value::some_text;
use crate::parameters::{is_token, mime_lexeme, parameter, without_line_ends};
use crate::pieces::next_piece;
use header_tokens::closings::closings;
use header_tokens::{Token, has_mark};
use mail_header::as_raw;
use octets::Bytes;
use std::alloc::{AllocError, Global};

/// What Content-Type says.
#[derive(Drop)]
pub(crate) struct ContentType {
    pub media: Option<Bytes>,
    pub boundary: Option<Bytes>,
    pub charset: Option<Bytes>,
    /// The octets of the parameter `name`, with their line ends.
    pub name: Option<Bytes>,
}

fn is_media(kind: &Token<'_>, slash: &Token<'_>, subtype: &Token<'_>) -> bool
    ensures { result ≡ types.is_media (token_view kind.now) (token_view slash.now) (token_view subtype.now) }
{
    is_token(kind) && has_mark(b'/', slash) && is_token(subtype)
}

/// A type and a subtype, in lower case.
fn media_text(alloc: Global, kind: &[u8], subtype: &[u8]) -> Result<Bytes, AllocError>
    ensures { IfOk result (λ b. b ≡ types.lower kind.now ++ 47 ∷ types.lower subtype.now) }
{
    let mut text = kind.to_ascii_lowercase(alloc)?;
    text.push(b'/')?;
    let subtype = subtype.to_ascii_lowercase(alloc)?;
    text.extend_from_slice(subtype.as_slice())?;
    Ok(Bytes::from_vec(text)?)
}

/// A type and a subtype.
#[derive(Clone, Copy)]
struct MediaAt<'a> {
    kind: &'a [u8],
    subtype: &'a [u8],
}

/// The type and the subtype at the front.
fn media_at(text: &[u8]) -> Option<MediaAt<'_>>
    ensures { MatchOption result (types.media_in (mime_lexemes text.now) ≡ None)
        (λ m. types.media_in (mime_lexemes text.now) ≡ Some (types.lower m.kind.now ++ 47 ∷ types.lower m.subtype.now)) }
{
    let (kind, rest) = mime_lexeme(text)?;
    let (slash, rest) = mime_lexeme(rest)?;
    let (subtype, _) = mime_lexeme(rest)?;
    if !is_media(&kind, &slash, &subtype) {
        return None;
    }
    Some(MediaAt {
        kind: kind.text,
        subtype: subtype.text,
    })
}

/// The media type at the front of the first piece.
fn media_of(alloc: Global, first: &[u8]) -> Result<Option<Bytes>, AllocError>
    ensures { IfOk result (λ m. m ≡ types.media_in (mime_lexemes first.now)) }
{
    match media_at(first) {
        None => Ok(None),
        Some(media) => Ok(Some(media_text(alloc, media.kind, media.subtype)?)),
    }
}

/// The text of a charset's octets, where it has an octet.
fn charset_text(alloc: Global, octets: Option<Bytes>) -> Result<Option<Bytes>, AllocError>
    ensures { IfOk result (λ c. c ≡ option_and_then types.charset_text octets) }
{
    match octets {
        None => Ok(None),
        Some(charset) => Ok(some_text(as_raw(alloc, charset.as_slice())?)),
    }
}

/// What the octets of a Content-Type say. Its parameters are read also where the type can't be.
pub(crate) fn read_type(alloc: Global, text: &[u8]) -> Result<ContentType, AllocError>
    ensures { IfOk result (λ c. types.IsContentType text.now c) }
{
    let closed = closings(alloc, text)?;
    let (first, rest) = next_piece(text, closed.as_slice());
    let boundary = parameter(alloc, b"boundary", rest, closed.as_slice())?;
    let charset = parameter(alloc, b"charset", rest, closed.as_slice())?;
    let charset_line = without_line_ends(alloc, charset)?;
    Ok(ContentType {
        media: media_of(alloc, first)?,
        boundary: without_line_ends(alloc, boundary)?,
        charset: charset_text(alloc, charset_line)?,
        name: parameter(alloc, b"name", rest, closed.as_slice())?,
    })
}
