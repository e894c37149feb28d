// The last address in angle brackets outside what else is closed.
ghost use Rattle.std.specs.Prelude.{◌≡◌, ◌≤◌, true, ℕ, List, [], ◌∷◌, ◌++◌, length, take, drop, MatchOption, IfOk};
ghost use Rattle.header_tokens.specs.reading.ClosingCounts.{TellClosings};
ghost use Rattle.loose_addresses.specs.Angles as angles;
ghost use Rattle.loose_addresses.specs.reading.ElementSteps as reading;

use crate::angles::last_angle;
use crate::lumps::lump_at;
use header_tokens::closings::closings;
use header_tokens::first_octet;
use std::alloc::{AllocError, Global};

/// What stands before the last address in a lump in angle brackets, and in its brackets.
fn angle_in(lump: &[u8]) -> Option<(&[u8], &[u8])>
    ensures { MatchOption result
        (angles.begins_less lump.now ≡ true → angles.NoAngle lump.now)
        (λ r. (angles.begins_less lump.now ≡ true) × ((behind : List ℕ) × angles.IsLastAngle r.0.now r.1.now behind lump.now)) }
{
    if first_octet(lump) != b'<' {
        return None;
    }
    last_angle(lump)
}

/// What was found in the lumps of a text, with the one at that place.
fn with_lump<'a>(
    found: Option<(&'a [u8], &'a [u8])>,
    text: &'a [u8],
    at: usize,
    lump: &'a [u8],
) -> Option<(&'a [u8], &'a [u8])>
    requires lump { (rest : List ℕ) × (drop at text.now ≡ lump.now ++ rest) }
    requires within { at ≤ length text.now }
    ensures { (lumps : List (List ℕ)) → angles.joined lumps ≡ take at text.now → reading.IsFound found.entry lumps → reading.IsFound result (lumps ++ lump.now ∷ []) }
{
    match angle_in(lump) {
        None => found,
        Some((inner, email)) => Some((text.split_at(at + inner.len()).0, email)),
    }
}

/// What stands before the last address in angle brackets outside what else is closed, and in its brackets.
fn last_outside<'a>(text: &'a [u8], closed: &[bool]) -> Option<(&'a [u8], &'a [u8])>
    requires { TellClosings closed.now text.now }
    ensures { MatchOption result
        ((before x : List ℕ) → angles.IsLastOutside before x text.now → ⊥)
        (λ r. angles.IsLastOutside r.0.now r.1.now text.now) }
{
    let mut found = None;
    let mut at = 0;
    while at < text.len() {
        let Some(len) = lump_at(text, closed, at) else {
            return None;
        };
        let (_, rest) = text.split_at(at);
        let (lump, _) = rest.split_at(len);
        found = with_lump(found, text, at, lump);
        at += len;
    }
    found
}

/// What stands before the angle brackets that count, and in them.
pub(crate) fn address_angle(
    alloc: Global,
    text: &[u8],
) -> Result<Option<(&[u8], &[u8])>, AllocError>
    ensures { IfOk result (λ r. MatchOption r
        ((before x : List ℕ) → angles.IsAddressAngle before x text.now → ⊥)
        (λ r. angles.IsAddressAngle r.0.now r.1.now text.now)) }
{
    let closed = closings(alloc, text)?;
    match last_outside(text, closed.as_slice()) {
        Some(angle) => Ok(Some(angle)),
        None => Ok(last_angle(text)),
    }
}
