// Codes of status lines (RFC 9051 section 7.1, RFC 4315 section 3, RFC 7162, RFC 5530 section 3).
ghost use Rattle.std.specs.Prelude.{◌≡◌, map, None, Some, IfOk, MatchOption};
ghost use Rattle.imap_types.specs.Octets as classes;
ghost use Rattle.imap_types.specs.reading.CodeReading as reading;
ghost use Rattle.imap_grammar.specs.reading.Codes.{ranges_of};

use imap_types::{Code, UidRange, UidSet};
use imap_values::{
    before, behind, is_decimal, is_key, is_sequence, long_of, number_of, octet_at, range_of,
};
use octets::Listed;
use std::alloc::{AllocError, Global};

/// Digits of a long number.
const LONG_DIGITS: usize = 19;

/// What stands before the first such octet, and what follows it.
fn cut(bytes: &[u8], octet: u8) -> Option<(&[u8], &[u8])>
    ensures { MatchOption result (reading.cut octet bytes.now ≡ None) (λ r. reading.cut octet bytes.now ≡ Some (r.0.now, r.1.now)) }
{
    for (i, c) in bytes.iter().enumerate() {
        if *c == octet {
            return Some((before(bytes, i), behind(bytes, i + 1)));
        }
    }
    None
}

/// The number that the text spells, 1 to 2^32 - 1.
#[tactic(auto, using(crate::proofs::CodeReadings::numbers))]
fn nonzero_in(text: &[u8]) -> Option<u32>
    ensures { result ≡ reading.nonzero_in text.now }
{
    if !is_sequence(text) {
        return None;
    }
    let number = number_of(text);
    if 0 < number { Some(number) } else { None }
}

/// The number that the text spells, at most 2^63 - 1.
#[tactic(auto, using(crate::proofs::CodeReadings::longs))]
fn long_in(text: &[u8]) -> Option<u64>
    ensures { result ≡ reading.long_in text.now }
{
    if !is_decimal(text, LONG_DIGITS) {
        return None;
    }
    let number = long_of(text);
    if number <= i64::MAX as u64 {
        Some(number)
    } else {
        None
    }
}

fn two_range(first: Option<u32>, second: Option<u32>) -> Option<UidRange>
    ensures { result ≡ reading.two_range first second }
{
    match (first, second) {
        (Some(first), Some(second)) => Some(range_of(first, second)),
        _ => None,
    }
}

fn one_range(number: Option<u32>) -> Option<UidRange>
    ensures { result ≡ reading.one_range number }
{
    match number {
        Some(number) => Some(range_of(number, number)),
        None => None,
    }
}

/// The range that the text spells: nz [":" nz].
#[tactic(auto, unfolding(imap_types::specs::reading::CodeReading::range_in))]
fn range_in(text: &[u8]) -> Option<UidRange>
    ensures { result ≡ reading.range_in text.now }
{
    match cut(text, b':') {
        None => one_range(nonzero_in(text)),
        Some((first, second)) => two_range(nonzero_in(first), nonzero_in(second)),
    }
}

fn uid_set(ranges: Vec<UidRange>) -> UidSet
    ensures { result.ranges ≡ ranges.items }
{
    UidSet {
        ranges: Listed::from_vec(ranges),
    }
}

/// The set that the text spells: range *("," range).
fn set_in(alloc: Global, text: &[u8]) -> Result<Option<UidSet>, AllocError>
    ensures { IfOk result (λ set. ranges_of set ≡ reading.set_in text.now) }
{
    let mut ranges = Vec::new(alloc);
    let mut rest = text;
    let mut left = text.len();
    while 0 < left {
        let Some((front, back)) = cut(rest, b',') else {
            let Some(range) = range_in(rest) else {
                return Ok(None);
            };
            ranges.push(range)?;
            return Ok(Some(uid_set(ranges)));
        };
        let Some(range) = range_in(front) else {
            return Ok(None);
        };
        ranges.push(range)?;
        rest = back;
        left -= 1;
    }
    Ok(None)
}

/// A code that is a word: "NOMODSEQ" / "CLOSED" / "OVERQUOTA".
#[tactic(auto, unfolding(imap_types::specs::reading::CodeReading::bare_code))]
fn bare_code(word: &[u8]) -> Option<Code>
    ensures { result ≡ reading.bare_code (map classes.lower word.now) }
{
    if is_key(word, b"nomodseq") {
        Some(Code::NoModSeq)
    } else if is_key(word, b"closed") {
        Some(Code::Closed)
    } else if is_key(word, b"overquota") {
        Some(Code::OverQuota)
    } else {
        None
    }
}

fn validity_of(number: Option<u32>) -> Option<Code>
    ensures { result ≡ reading.validity_of number }
{
    match number {
        Some(validity) => Some(Code::UidValidity(validity)),
        None => None,
    }
}

fn next_of(number: Option<u32>) -> Option<Code>
    ensures { result ≡ reading.next_of number }
{
    match number {
        Some(uid) => Some(Code::UidNext(uid)),
        None => None,
    }
}

fn modseq_of(number: Option<u64>) -> Option<Code>
    ensures { result ≡ reading.modseq_of number }
{
    match number {
        Some(modseq) => Some(Code::HighestModSeq(modseq)),
        None => None,
    }
}

fn appended(validity: Option<u32>, uid: Option<u32>) -> Option<Code>
    ensures { result ≡ reading.appended validity uid }
{
    match (validity, uid) {
        (Some(validity), Some(uid)) => Some(Code::AppendUid { validity, uid }),
        _ => None,
    }
}

/// What follows APPENDUID and its space: nz SP nz.
fn append_in(text: &[u8]) -> Option<Code>
    ensures { result ≡ reading.append_in (reading.cut 32 text.now) }
{
    match cut(text, b' ') {
        None => None,
        Some((validity, uid)) => appended(nonzero_in(validity), nonzero_in(uid)),
    }
}

fn copied(validity: Option<u32>, from: Option<UidSet>, to: Option<UidSet>) -> Option<Code>
    ensures { result ≡ reading.copied validity (ranges_of from) (ranges_of to) }
{
    match (validity, from, to) {
        (Some(validity), Some(from), Some(to)) => Some(Code::CopyUid { validity, from, to }),
        _ => None,
    }
}

/// What follows COPYUID and its space: nz SP set SP set.
fn copy_in(alloc: Global, text: &[u8]) -> Result<Option<Code>, AllocError>
    ensures { IfOk result (λ code. code ≡ reading.copy_in (reading.cut 32 text.now)) }
{
    let Some((validity, sets)) = cut(text, b' ') else {
        return Ok(None);
    };
    let Some((from, to)) = cut(sets, b' ') else {
        return Ok(None);
    };
    let from = set_in(alloc, from)?;
    let to = set_in(alloc, to)?;
    Ok(copied(nonzero_in(validity), from, to))
}

/// A code that is a word and what follows it after a space: ("UIDVALIDITY" / "UIDNEXT") SP nz,
/// "HIGHESTMODSEQ" SP long, "APPENDUID" SP .. or "COPYUID" SP ...
#[tactic(auto, unfolding(imap_types::specs::reading::CodeReading::code_with))]
fn code_with(alloc: Global, word: &[u8], text: &[u8]) -> Result<Option<Code>, AllocError>
    ensures { IfOk result (λ code. code ≡ reading.code_with (map classes.lower word.now) text.now) }
{
    if is_key(word, b"uidvalidity") {
        Ok(validity_of(nonzero_in(text)))
    } else if is_key(word, b"uidnext") {
        Ok(next_of(nonzero_in(text)))
    } else if is_key(word, b"highestmodseq") {
        Ok(modseq_of(long_in(text)))
    } else if is_key(word, b"appenduid") {
        Ok(append_in(text))
    } else if is_key(word, b"copyuid") {
        copy_in(alloc, text)
    } else {
        Ok(None)
    }
}

/// The code that the text between the brackets is, where it is known.
#[tactic(auto, unfolding(imap_types::specs::reading::CodeReading::known_in))]
fn known_in(alloc: Global, text: &[u8]) -> Result<Option<Code>, AllocError>
    ensures { IfOk result (λ code. code ≡ reading.known_in text.now) }
{
    match cut(text, b' ') {
        None => Ok(bare_code(text)),
        Some((word, back)) => code_with(alloc, word, back),
    }
}

/// The code of what follows a status: [SP "[" code "]" ..]. One that isn't known is `Code::Other`.
#[tactic(auto, unfolding(imap_types::specs::reading::CodeReading::code_in))]
pub fn code_in(alloc: Global, tail: &[u8]) -> Result<Code, AllocError>
    ensures { IfOk result (λ code. code ≡ reading.code_in tail.now) }
{
    if octet_at(tail, 0) != b' ' || octet_at(tail, 1) != b'[' {
        return Ok(Code::Absent);
    }
    match cut(behind(tail, 2), b']') {
        None => Ok(Code::Absent),
        Some((text, _)) => Ok(known_in(alloc, text)?.unwrap_or(Code::Other)),
    }
}
