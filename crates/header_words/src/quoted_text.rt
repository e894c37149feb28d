// The "Q" encoding (RFC 2047 section 4.2).
ghost use Rattle.std.specs.Prelude.{◌≡◌, ◌≤◌, ℕ, List, length, IfOk, IfSome, IfNone};
ghost use Rattle.header_words.specs.QuotedText.{IsQText};
ghost use Rattle.header_words.specs.reading.Units.{escape_of, hex_in, q_unit_in};

use std::alloc::{AllocError, Global};
use text_words::hex_value;

/// The octets that a text in the "Q" encoding spells, where it spells some: each "=" needs two hexadecimal digits.
pub fn decode_quoted(alloc: Global, text: &[u8]) -> Result<Option<Vec<u8>>, AllocError>
    ensures some { IfOk result (λ r. IfSome r (λ v. IsQText v.items text.now)) }
    ensures none { IfOk result (λ r. IfNone r ((octets : List ℕ) → IsQText octets text.now → ⊥)) }
{
    let mut octets = Vec::new(alloc);
    let mut rest = text;
    while !rest.is_empty() {
        let Some((octet, len)) = unit_at(rest) else {
            return Ok(None);
        };
        octets.push(octet)?;
        let (_, behind) = rest.split_at(len);
        rest = behind;
    }
    Ok(Some(octets))
}

/// The octet at the front of a text in "Q", and how long its spelling is.
#[tactic(auto, unfolding(crate::specs::reading::Units::q_unit_in))]
fn unit_at(text: &[u8]) -> Option<(u8, usize)>
    ensures { result ≡ q_unit_in text.now }
{
    match text {
        [] => None,
        [first, rest @ ..] => {
            if *first == b'_' {
                Some((b' ', 1))
            } else if *first == b'=' {
                escaped(rest)
            } else {
                Some((*first, 1))
            }
        }
    }
}

/// The octet after an "=", and how long its spelling is.
fn escaped(digits: &[u8]) -> Option<(u8, usize)>
    ensures { result ≡ escape_of (hex_in digits.now) }
{
    match hex_octet(digits) {
        None => None,
        Some(octet) => Some((octet, 3)),
    }
}

/// The octet that two hexadecimal digits at the front spell.
pub(crate) fn hex_octet(text: &[u8]) -> Option<u8>
    ensures value { result ≡ hex_in text.now }
    ensures long { IfSome result (λ _. 2 ≤ length text.now) }
{
    match text {
        [] | [_] => None,
        [high, low, ..] => match hex_value(*high) {
            None => None,
            Some(high) => match hex_value(*low) {
                None => None,
                Some(low) => Some(16 * high + low),
            },
        },
    }
}
