// Strings at the front of octets (RFC 9051 sections 4.3 and 9).
ghost use Rattle.std.specs.Prelude.{◌≡◌, ◌≤◌, IfOk, length, true, false};
ghost use Rattle.imap_types.specs.Octets as classes;
ghost use Rattle.imap_values.specs.Spans as spans;
ghost use Rattle.imap_values.specs.Strings as reading;

use crate::front_octets::{before, behind, digits_len, number_of, octet_at};
use imap_keywords::is_atom;
use octets::Bytes;
use std::alloc::{AllocError, Global};

/// How many octets of an atom stand at the front.
#[tactic(auto, using(crate::proofs::SpanLemmas::spans))]
pub fn atom_len(bytes: &[u8]) -> usize
    ensures count { result ≡ spans.span classes.is_atom bytes.now }
    ensures most { result ≤ length bytes.now }
{
    for (i, c) in bytes.iter().enumerate() {
        if !is_atom(*c as u16) {
            return i;
        }
    }
    bytes.len()
}

/// The text from after the opening quote on, and what follows the closing one: *quoted-char DQUOTE.
pub fn unquoted(alloc: Global, bytes: &[u8]) -> Result<(Vec<u8>, &[u8]), AllocError>
    ensures text { IfOk result (λ r. r.0.items ≡ (reading.unquoted false bytes.now).0) }
    ensures rest { IfOk result (λ r. r.1.now ≡ (reading.unquoted false bytes.now).1) }
{
    let mut text = Vec::new(alloc);
    let mut pair = false;
    for (i, c) in bytes.iter().enumerate() {
        if pair {
            text.push(*c)?;
            pair = false;
        } else if *c == b'"' {
            return Ok((text, behind(bytes, i + 1)));
        } else if *c == b'\\' {
            pair = true;
        } else {
            text.push(*c)?;
        }
    }
    Ok((text, &[]))
}

/// The octets of a literal from after its opening brace on, and what follows them: 1*8digit "}" CRLF *octet.
#[tactic(auto, unfolding(crate::specs::Strings::literal_in))]
pub fn literal_in(bytes: &[u8]) -> (&[u8], &[u8])
    ensures octets { result.0.now ≡ (reading.literal_in bytes.now).0 }
    ensures rest { result.1.now ≡ (reading.literal_in bytes.now).1 }
{
    let n = digits_len(bytes);
    let count = number_of(before(bytes, n)) as usize;
    let octets = behind(behind(bytes, n), 3);
    (before(octets, count), behind(octets, count))
}

/// The atom at the front, and what follows it.
#[tactic(auto, unfolding(crate::specs::Strings::atom_in))]
pub fn atom_in(bytes: &[u8]) -> (&[u8], &[u8])
    ensures atom { result.0.now ≡ (reading.atom_in bytes.now).0 }
    ensures rest { result.1.now ≡ (reading.atom_in bytes.now).1 }
{
    let n = atom_len(bytes);
    (before(bytes, n), behind(bytes, n))
}

/// The string at the front, and what follows it: atom / quoted / ["~"] literal.
#[tactic(auto, unfolding(crate::specs::Strings::astring_in))]
pub fn astring_in(alloc: Global, bytes: &[u8]) -> Result<(Bytes, &[u8]), AllocError>
    ensures string { IfOk result (λ r. r.0 ≡ (reading.astring_in bytes.now).0) }
    ensures rest { IfOk result (λ r. r.1.now ≡ (reading.astring_in bytes.now).1) }
{
    let first = octet_at(bytes, 0);
    if first == b'"' {
        let (text, rest) = unquoted(alloc, behind(bytes, 1))?;
        return Ok((Bytes::from_vec(text)?, rest));
    }
    let (octets, rest) = if first == b'{' {
        literal_in(behind(bytes, 1))
    } else if first == b'~' && octet_at(bytes, 1) == b'{' {
        literal_in(behind(bytes, 2))
    } else {
        atom_in(bytes)
    };
    Ok((Bytes::copy_of(alloc, octets)?, rest))
}
