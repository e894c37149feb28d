// Addresses without angle brackets.
ghost use Rattle.std.specs.Prelude.{◌≡◌, MatchBool, MatchOption};
ghost use Rattle.loose_addresses.specs.LooseLists as lists;
ghost use Rattle.loose_addresses.specs.reading.BareSteps as reading;

use header_words::words::is_control;
use mail_header::white_end::without_white_end;
use text_words::{Class, White, are_all, cut, first, is_white};

/// The octets of an address as it is written.
struct Plain;

impl Class<u8> for Plain {
    ghost test = { lists.is_plain_octet };

    fn has(&self, item: &u8) -> bool {
        !(is_white(*item)
            || is_control(*item)
            || *item == b'"'
            || *item == b'('
            || *item == b')'
            || *item == b'<'
            || *item == b'>'
            || *item == b'['
            || *item == b']')
    }
}

/// All octets but `@`.
struct NoAt;

impl Class<u8> for NoAt {
    ghost test = { reading.is_no_at };

    fn has(&self, item: &u8) -> bool {
        *item != b'@'
    }
}

/// The text without white space at its ends.
pub(crate) fn trimmed(text: &[u8]) -> &[u8]
    ensures { result.now ≡ lists.trimmed text.now }
{
    let (_, text) = cut(&White, text);
    without_white_end(text)
}

/// Whether an `@` has octets before and after it.
fn has_inner_at(text: &[u8]) -> bool
    ensures { MatchBool result (reading.HasInnerAt text.now) (reading.HasInnerAt text.now → ⊥) }
{
    match first(text) {
        None => false,
        Some((_first, rest)) => cut(&NoAt, rest).1.len() > 1,
    }
}

/// The text without white space at its ends, where that is an address without angle brackets.
pub(crate) fn bare_text(text: &[u8]) -> Option<&[u8]>
    ensures { MatchOption result (lists.IsBareText (lists.trimmed text.now) → ⊥) (λ r. lists.IsBareText (lists.trimmed text.now) × (r.now ≡ lists.trimmed text.now)) }
{
    let text = trimmed(text);
    if !are_all(&Plain, text) {
        return None;
    }
    if has_inner_at(text) { Some(text) } else { None }
}
