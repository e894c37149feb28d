// Content-ID.
ghost use Rattle.std.specs.Prelude.{◌≡◌, ◌≢◌, ◌<◌, ℕ, Bool, length, List, [], ◌∷◌, ◌++◌, IfOk, OnOk, MatchOption};
ghost use Rattle.std.specs.List.{filter};
ghost use Rattle.mail_header.specs.WhiteEnd.{some_text};
ghost use Rattle.header_tokens.specs.Closings.{is_no_greater_octet};
ghost use Rattle.mime_fields.specs.ContentIds as ids;
ghost use Rattle.mime_fields.specs.reading.IdUnits as reading;

use crate::parameters::{are_gaps, mime_lexeme};
use header_tokens::has_mark;
use header_tokens::tokens::{comment_at, quoted_at};
use mail_header::as_raw;
use mail_header::raw_forms::unfold;
use octets::Bytes;
use std::alloc::{AllocError, Global};
use text_words::{Class, behind, cut, first, is_white};

/// All octets but `>`.
struct NoGreater;

impl Class<u8> for NoGreater {
    ghost test = { is_no_greater_octet };

    fn has(&self, item: &u8) -> bool {
        *item != b'>'
    }
}

/// The id of a raw value, without white space: what stands in angle brackets that have only comments around them, else the value
/// without comments and without one pair of angle brackets. There is none where nothing is left.
pub(crate) fn content_id(alloc: Global, raw: &[u8]) -> Result<Option<Bytes>, AllocError>
    ensures { IfOk result (λ id. ids.IsContentId raw.now id) }
{
    let text = as_raw(alloc, raw)?;
    match enclosed(text.as_slice()) {
        Some(inner) => {
            let id = without_gaps(alloc, false, inner)?;
            some_id(alloc, id.as_slice())
        }
        None => {
            let kept = without_gaps(alloc, true, text.as_slice())?;
            some_id(alloc, without_angles(kept.as_slice()))
        }
    }
}

/// What stands between `<` and the next `>`, where before and behind them there are only white space and comments.
fn enclosed(text: &[u8]) -> Option<&[u8]>
    ensures { MatchOption result ((inner : List ℕ) → ids.IsEnclosed inner text.now → ⊥) (λ inner. ids.IsEnclosed inner.now text.now) }
{
    let Some((less, rest)) = mime_lexeme(text) else {
        return None;
    };
    if !has_mark(b'<', &less) {
        return None;
    }
    let (inner, closed) = cut(&NoGreater, rest);
    let Some(more) = behind(b'>', closed) else {
        return None;
    };
    if !are_gaps(more) {
        return None;
    }
    Some(inner)
}

/// The text without white space, and without comments where it has them.
fn without_gaps(alloc: Global, comments: bool, text: &[u8]) -> Result<Vec<u8>, AllocError>
    ensures { IfOk result (λ v. ids.IsWithoutGaps comments v.items text.now) }
{
    let mut kept = Vec::new(alloc);
    let mut rest = text;
    while !rest.is_empty() {
        rest = push_unit(&mut kept, comments, rest)?;
    }
    Ok(unfold(alloc, kept.as_slice())?)
}

/// Adds what is kept of the unit at the front. Gives what follows it.
fn push_unit<'a>(kept: &mut Vec<u8>, comments: bool, text: &'a [u8]) -> Result<&'a [u8], AllocError>
    requires { 0 < length text.now }
    ensures { IfOk result (λ r. reading.TakesUnit comments text.now r.now kept.old.items kept.new.items) }
{
    match first(text) {
        None => unreachable!(),
        Some((octet, rest)) => {
            if is_opener(comments, octet) {
                return push_bracket(kept, text);
            }
            push_octet(kept, octet)?;
            Ok(rest)
        }
    }
}

/// Adds the quoted text at the front, or passes over the comment there. Where neither is closed, adds all octets that
/// are no white space: so each octet is looked at once. Gives what follows.
fn push_bracket<'a>(kept: &mut Vec<u8>, text: &'a [u8]) -> Result<&'a [u8], AllocError>
    ensures { IfOk result (λ r. (comments : Bool) → reading.BeginsWithOpener comments text.now
        → reading.TakesUnit comments text.now r.now kept.old.items kept.new.items) }
{
    if let Some((_, rest)) = comment_at(text) {
        return Ok(rest);
    }
    if let Some((quoted, rest)) = quoted_at(text) {
        kept.extend_from_slice(quoted)?;
        return Ok(rest);
    }
    push_visible(kept, text)?;
    Ok(&[])
}

/// A quote, and where there are comments a parenthesis.
fn is_opener(comments: bool, octet: u8) -> bool
    ensures { result ≡ ids.is_opener comments octet }
{
    (comments && octet == b'(') || octet == b'"'
}

/// Adds the octet, unless it is white space.
fn push_octet(kept: &mut Vec<u8>, octet: u8) -> Result<(), AllocError>
    ensures { OnOk result (kept.new.items ≡ kept.old.items ++ filter ids.is_visible_octet (octet ∷ [])) }
{
    if !is_white(octet) {
        kept.push(octet)?;
    }
    Ok(())
}

/// Adds the octets that are no white space.
fn push_visible(kept: &mut Vec<u8>, text: &[u8]) -> Result<(), AllocError>
    ensures { OnOk result (kept.new.items ≡ kept.old.items ++ filter ids.is_visible_octet text.now) }
{
    for octet in text {
        push_octet(kept, *octet)?;
    }
    Ok(())
}

/// The text without one pair of angle brackets around it.
fn without_angles(text: &[u8]) -> &[u8]
    ensures { ids.IsWithoutAngles result.now text.now }
{
    match behind(b'<', text) {
        None => text,
        Some(rest) => match before(b'>', rest) {
            None => text,
            Some(inner) => inner,
        },
    }
}

/// What stands before the octet, where the text ends with it.
fn before(octet: u8, text: &[u8]) -> Option<&[u8]>
    ensures { MatchOption result ((t : List ℕ) → text.now ≢ t ++ octet ∷ []) (λ r. text.now ≡ r.now ++ octet ∷ []) }
{
    if text.is_empty() {
        return None;
    }
    let (front, last) = text.split_at(text.len() - 1);
    match behind(octet, last) {
        None => None,
        Some(_) => Some(front),
    }
}

/// A copy of the text, unless it is empty.
fn some_id(alloc: Global, text: &[u8]) -> Result<Option<Bytes>, AllocError>
    ensures { IfOk result (λ id. id ≡ some_text text.now) }
{
    match text {
        [] => Ok(None),
        [_, ..] => Ok(Some(Bytes::copy_of(alloc, text)?)),
    }
}
