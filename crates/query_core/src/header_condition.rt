// Conditions of header fields.
ghost use Rattle.std.specs.Prelude.{◌↔◌, ◌≡◌, IfOk, IsTrue, Some, slice_get, Contains};
ghost use Rattle.mail_header.specs.Fields.{NameAndRaw, names_and_raws};
ghost use Rattle.query_core.specs.Headers.{FieldHasWords, HeaderMatches};

use mail_header::{Fields, as_text, fields, last_field};
use octets::Names;
use query_conditions::has_words;
use std::alloc::{AllocError, Global};
use text_words::same_text;

/// Whether the field at a place is of the name, and each of the words stands in its text.
fn field_has_words(
    alloc: Global,
    list: &Fields<'_>,
    at: usize,
    name: &[u8],
    words: &Names,
) -> Result<bool, AllocError>
    ensures { IfOk result (λ has. (f : NameAndRaw) → slice_get (names_and_raws list.now) at ≡ Some f → IsTrue has ↔ FieldHasWords name.now words.now f) }
{
    let Some(its_name) = list.name(at) else {
        return Ok(false);
    };
    if !same_text(its_name, name) {
        return Ok(false);
    }
    let Some(raw) = list.raw(at) else {
        return Ok(false);
    };
    let text = as_text(alloc, raw)?;
    Ok(has_words(words, text.as_slice()))
}

/// Whether a field of the name has each of the words in its text.
fn some_field_has_words(
    alloc: Global,
    list: &Fields<'_>,
    name: &[u8],
    words: &Names,
) -> Result<bool, AllocError>
    ensures { IfOk result (λ has. IsTrue has ↔ ((f : NameAndRaw) × Contains (names_and_raws list.now) f × FieldHasWords name.now words.now f)) }
{
    for at in 0..list.len() {
        if field_has_words(alloc, list, at, name, words)? {
            return Ok(true);
        }
    }
    Ok(false)
}

/// Whether the header has a field of the name, and where words are asked one that has each of them in its text; the text is empty where
/// there is no field of the name (RFC 8621 section 4.4.1). It takes memory only where words are asked of a field that there is.
pub(crate) fn header_matches(
    alloc: Global,
    header: &[u8],
    name: &[u8],
    words: &Option<Names>,
) -> Result<bool, AllocError>
    ensures { IfOk result (λ matches. IsTrue matches ↔ HeaderMatches header.now name.now words.now) }
{
    let is_there = last_field(header, name).is_some();
    match words {
        None => Ok(is_there),
        Some(words) => {
            if is_there {
                let list = fields(alloc, header)?;
                some_field_has_words(alloc, &list, name, words)
            } else {
                let nothing: &[u8] = &[];
                Ok(has_words(words, nothing))
            }
        }
    }
}
