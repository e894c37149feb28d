// The lumps of a value: what is closed, encoded words, and single octets.
ghost use Rattle.std.specs.Prelude.{◌≡◌, ◌<◌, ◌≤◌, false, true, length, drop, MatchBool, MatchOption};
ghost use Rattle.header_tokens.specs.Closings.{BeginsUnclosed};
ghost use Rattle.header_tokens.specs.reading.ClosingCounts.{TellClosings};
ghost use Rattle.header_tokens.specs.Kinds as kinds;
ghost use Rattle.loose_addresses.specs.Lumps as lumps;
ghost use Rattle.loose_addresses.specs.reading.ElementSteps as reading;

use crate::word_shape::word_at;
use header_tokens::closings::angle_at;
use header_tokens::first_octet;
use header_tokens::tokens::{comment_at, literal_at, quoted_at};

fn is_separator(octet: u8) -> bool
    ensures { result ≡ lumps.is_separator octet }
{
    octet == b',' || octet == b';'
}

/// How many octets what is closed at the front has.
fn closed_len(text: &[u8]) -> Option<usize>
    ensures { MatchOption result (BeginsUnclosed text.now) (λ n. reading.LumpOf n text.now) }
{
    if let Some((comment, _)) = comment_at(text) {
        return Some(comment.len());
    }
    if let Some((quoted, _)) = quoted_at(text) {
        return Some(quoted.len());
    }
    if let Some((literal, _)) = literal_at(text) {
        return Some(literal.len());
    }
    if let Some((angle, _)) = angle_at(text) {
        return Some(angle.len());
    }
    None
}

/// How many octets the lump at the front has, where nothing closed begins.
fn open_len(text: &[u8]) -> usize
    requires some { 0 < length text.now }
    requires plain { lumps.is_separator (kinds.first_octet text.now) ≡ false }
    requires open { BeginsUnclosed text.now }
    ensures { reading.LumpOf result text.now }
{
    match word_at(text) {
        None => 1,
        Some((word, _)) => word.len(),
    }
}

/// How many octets the lump at the front has. Whether it is closed is known.
fn lump_len(text: &[u8], closed: bool) -> usize
    requires some { 0 < length text.now }
    requires plain { lumps.is_separator (kinds.first_octet text.now) ≡ false }
    requires open { closed ≡ false → BeginsUnclosed text.now }
    ensures { reading.LumpOf result text.now }
{
    if !closed {
        return open_len(text);
    }
    match closed_len(text) {
        None => open_len(text),
        Some(len) => len,
    }
}

/// How many octets the lump at that place of a text has; none where a separator stands there. The closings of the value, whose
/// end the text is, are known.
pub(crate) fn lump_at(text: &[u8], closed: &[bool], at: usize) -> Option<usize>
    requires tell { TellClosings closed.now text.now }
    requires within { at < length text.now }
    ensures { MatchOption result
        (lumps.is_separator (kinds.first_octet (drop at text.now)) ≡ true)
        (λ n. reading.LumpOf n (drop at text.now)) }
{
    let (_, rest) = text.split_at(at);
    if is_separator(first_octet(rest)) {
        return None;
    }
    Some(lump_len(rest, closed[rest.len() - 1]))
}

/// Whether lumps end at that place of a text.
pub(crate) fn ends_lumps(text: &[u8], closed: &[bool], place: usize) -> bool
    requires tell { TellClosings closed.now text.now }
    requires within { place ≤ length text.now }
    ensures { MatchBool result (reading.EndsLumps place text.now) (reading.EndsLumps place text.now → ⊥) }
{
    let mut at = 0;
    while at < place {
        let Some(len) = lump_at(text, closed, at) else {
            return false;
        };
        let left = place - at;
        if left < len {
            return false;
        }
        at += len;
    }
    true
}
