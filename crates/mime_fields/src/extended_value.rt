// Extended values of parameters (RFC 8187).
ghost use Rattle.std.specs.Prelude.{◌≡◌, None, Some, IfOk, MatchOption};
ghost use Rattle.std.specs.Option.{option_and_then};
ghost use Rattle.percent_encoding.specs.Percent as percent;
ghost use Rattle.header_words.specs.OneLine.{one_line};
ghost use Rattle.mail_header.specs.WhiteEnd as ends;
ghost use Rattle.mime_fields.specs.ExtendedValues as values;

use header_words::{as_one_line, decode_charset};
use octets::Bytes;
use percent_encoding::percent_decode;
use std::alloc::{AllocError, Global};
use text_words::{Class, cut};

/// All octets but the apostrophe.
struct NoApostrophe;

impl Class<u8> for NoApostrophe {
    ghost test = { values.is_no_apostrophe };

    fn has(&self, item: &u8) -> bool {
        *item != b'\''
    }
}

/// What follows the first octet.
fn behind_first(text: &[u8]) -> Option<&[u8]>
    ensures { MatchOption result (values.after_first text.now ≡ None) (λ t. values.after_first text.now ≡ Some t.now) }
{
    match text {
        [] => None,
        [_first, rest @ ..] => Some(rest),
    }
}

/// What follows the first apostrophe.
fn behind_apostrophe(text: &[u8]) -> Option<&[u8]>
    ensures { MatchOption result (values.behind_apostrophe text.now ≡ None) (λ t. values.behind_apostrophe text.now ≡ Some t.now) }
{
    behind_first(cut(&NoApostrophe, text).1)
}

/// What follows the second apostrophe.
fn escaped_octets(text: &[u8]) -> Option<&[u8]>
    ensures { MatchOption result (option_and_then values.behind_apostrophe (values.behind_apostrophe text.now) ≡ None)
        (λ t. option_and_then values.behind_apostrophe (values.behind_apostrophe text.now) ≡ Some t.now) }
{
    match behind_apostrophe(text) {
        None => None,
        Some(rest) => behind_apostrophe(rest),
    }
}

fn percent_decoded(alloc: Global, text: &[u8]) -> Result<Vec<u8>, AllocError>
    ensures { IfOk result (λ v. v.items ≡ percent.percent_decode text.now) }
{
    let mut octets = Vec::new(alloc);
    percent_decode(text).append_to(&mut octets)?;
    Ok(octets)
}

/// The text of one extended value.
fn extended_text(alloc: Global, value: &[u8]) -> Result<Option<Bytes>, AllocError>
    ensures { IfOk result (λ t. t ≡ values.extended_text value.now) }
{
    let Some(escaped) = escaped_octets(value) else {
        return Ok(None);
    };
    let octets = percent_decoded(alloc, escaped)?;
    let (charset, _) = cut(&NoApostrophe, value);
    let (text, _) = decode_charset(alloc, charset, octets.as_slice())?;
    Ok(Some(Bytes::from_vec(text)?))
}

/// The text, where it has an octet.
pub(crate) fn some_text(text: Bytes) -> Option<Bytes>
    ensures { result ≡ ends.some_text text }
{
    if text.as_slice().is_empty() {
        None
    } else {
        Some(text)
    }
}

/// The text as one line, where it has an octet then.
fn some_line(alloc: Global, text: &[u8]) -> Result<Option<Bytes>, AllocError>
    ensures { IfOk result (λ t. t ≡ ends.some_text (one_line text.now)) }
{
    let line = as_one_line(alloc, text)?;
    Ok(some_text(Bytes::from_vec(line)?))
}

/// The name that one extended value is.
fn extended_name(alloc: Global, value: &[u8]) -> Result<Option<Bytes>, AllocError>
    ensures { IfOk result (λ t. t ≡ values.extended_name value.now) }
{
    match extended_text(alloc, value)? {
        None => Ok(None),
        Some(text) => some_line(alloc, text.as_slice()),
    }
}

/// The name that the extended value of a parameter is.
pub(crate) fn extended(alloc: Global, value: Option<Bytes>) -> Result<Option<Bytes>, AllocError>
    ensures { IfOk result (λ t. t ≡ option_and_then values.extended_name value) }
{
    match value {
        None => Ok(None),
        Some(value) => extended_name(alloc, value.as_slice()),
    }
}
