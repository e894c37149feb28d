// Content-Disposition, and the names of parts.
ghost use Rattle.std.specs.Prelude.{◌≡◌, None, Some, [], IfOk, MatchOption};
ghost use Rattle.mime_fields.specs.ContentTypes.{lower};
ghost use Rattle.mime_fields.specs.Dispositions as dispositions;
ghost use Rattle.mime_fields.specs.reading.MimeLexemes.{mime_lexemes};

use crate::extended_value::{extended, some_text};
use crate::parameters::{is_token, mime_lexeme, parameter};
use crate::pieces::next_piece;
use header_tokens::closings::closings;
use header_words::{as_one_line, decode_words};
use mail_header::as_raw;
use octets::Bytes;
use std::alloc::{AllocError, Global};

/// What Content-Disposition says: its kind, the name in an extended value, and the octets of the name as it is written, with their
/// line ends.
#[derive(Drop)]
pub(crate) struct Disposition {
    pub kind: Option<Bytes>,
    pub extended: Option<Bytes>,
    pub file: Option<Bytes>,
}

/// The token at the front.
fn token_at(text: &[u8]) -> Option<&[u8]>
    ensures { MatchOption result (dispositions.leading_token (mime_lexemes text.now) ≡ None) (λ r. dispositions.leading_token (mime_lexemes text.now) ≡ Some (lower r.now)) }
{
    let (token, _) = mime_lexeme(text)?;
    if is_token(&token) {
        Some(token.text)
    } else {
        None
    }
}

/// The token at the front in lower case.
pub(crate) fn first_token(alloc: Global, text: &[u8]) -> Result<Option<Bytes>, AllocError>
    ensures { IfOk result (λ t. t ≡ dispositions.leading_token (mime_lexemes text.now)) }
{
    match token_at(text) {
        None => Ok(None),
        Some(token) => Ok(Some(Bytes::from_vec(token.to_ascii_lowercase(alloc)?)?)),
    }
}

/// What the octets of a Content-Disposition say. Its parameters are read also where its kind can't be.
pub(crate) fn read_disposition(alloc: Global, text: &[u8]) -> Result<Disposition, AllocError>
    ensures { IfOk result (λ d. dispositions.IsDisposition text.now d) }
{
    let closed = closings(alloc, text)?;
    let (first, rest) = next_piece(text, closed.as_slice());
    let octets = parameter(alloc, b"filename*", rest, closed.as_slice())?;
    Ok(Disposition {
        kind: first_token(alloc, first)?,
        extended: extended(alloc, octets)?,
        file: parameter(alloc, b"filename", rest, closed.as_slice())?,
    })
}

/// The name that a parameter's value is, with encoded words decoded; as one line.
fn written_name(alloc: Global, written: Option<Bytes>) -> Result<Option<Bytes>, AllocError>
    ensures { IfOk result (λ n. dispositions.IsWrittenName written n) }
{
    match written {
        None => Ok(None),
        Some(value) => {
            let text = as_raw(alloc, value.as_slice())?;
            let line = as_one_line(alloc, text.as_slice())?;
            let name = decode_words(alloc, line.as_slice())?;
            Ok(some_text(Bytes::from_vec(name)?))
        }
    }
}

/// The name that `filename` is, else that of `name`.
fn name_as_written(
    alloc: Global,
    file: Option<Bytes>,
    type_name: Option<Bytes>,
) -> Result<Option<Bytes>, AllocError>
    ensures { IfOk result (λ n. dispositions.IsFileName None file type_name n) }
{
    match written_name(alloc, file)? {
        Some(name) => Ok(Some(name)),
        None => written_name(alloc, type_name),
    }
}

/// The name of a part's file.
pub(crate) fn name_of(
    alloc: Global,
    extended: Option<Bytes>,
    file: Option<Bytes>,
    type_name: Option<Bytes>,
) -> Result<Option<Bytes>, AllocError>
    ensures { IfOk result (λ n. dispositions.IsFileName extended file type_name n) }
{
    match extended {
        Some(name) => Ok(Some(name)),
        None => name_as_written(alloc, file, type_name),
    }
}
