// What a response says (RFC 9051 sections 7 and 9, RFC 7162 section 3.2.10).
ghost use Rattle.std.specs.Prelude.{◌≡◌, ◌++◌, List, [], ℕ, IfOk, map, Some, bytes_eq};
ghost use Rattle.imap_types.specs.Octets as classes;
ghost use Rattle.imap_types.specs.Spells.{IsSpelling};
ghost use Rattle.imap_types.specs.declared.response.Response.{Response};
ghost use Rattle.imap_grammar.specs.reading.Reading as reading;

use crate::codes::code_in;
use crate::folders;
use crate::folders::list_in;
use crate::items::items_in;
use imap_types::{Response, Status};
use imap_values::{
    before, behind, flags_in, is_key, is_sequence, name_len, number_of, octet_at, vanished_in,
    word_len, words_in,
};
use octets::{Bytes, Names};
use std::alloc::{AllocError, Global};

/// Octets of `FETCH (`.
const FETCH_OCTETS: usize = 7;

/// The status that a word names.
#[tactic(auto, unfolding(crate::specs::reading::Reading::status_named))]
fn status_named(word: &[u8]) -> Option<Status>
    ensures { result ≡ reading.status_named (map classes.lower word.now) }
{
    if is_key(word, b"ok") {
        Some(Status::Ok)
    } else if is_key(word, b"no") {
        Some(Status::No)
    } else if is_key(word, b"bad") {
        Some(Status::Bad)
    } else if is_key(word, b"preauth") {
        Some(Status::Preauth)
    } else if is_key(word, b"bye") {
        Some(Status::Bye)
    } else {
        None
    }
}

/// The status that the first word names.
#[tactic(auto, unfolding(crate::specs::reading::Reading::word_in))]
fn status_in(bytes: &[u8]) -> Option<Status>
    ensures { result ≡ reading.status_named (reading.word_in bytes.now) }
{
    status_named(before(bytes, word_len(bytes)))
}

/// Whether the first word is the key.
#[tactic(auto, unfolding(crate::specs::reading::Reading::word_in))]
fn begins_with(bytes: &[u8], key: &[u8]) -> bool
    ensures { result ≡ bytes_eq (reading.word_in bytes.now) key.now }
{
    is_key(before(bytes, word_len(bytes)), key)
}

/// What stands after `* `, a number and a space: ("EXISTS" / "EXPUNGE" / "FETCH" SP "(" items) CRLF.
#[tactic(auto, unfolding(crate::specs::reading::Reading::numbered_in))]
fn numbered(alloc: Global, seq: u32, bytes: &[u8]) -> Result<Response, AllocError>
    ensures { IfOk result (λ v. v ≡ reading.numbered_in seq bytes.now) }
{
    if begins_with(bytes, b"fetch") {
        let items = items_in(alloc, behind(bytes, FETCH_OCTETS), bytes.len())?;
        Ok(Response::Fetch { seq, items })
    } else if begins_with(bytes, b"exists") {
        Ok(Response::Exists(seq))
    } else if begins_with(bytes, b"expunge") {
        Ok(Response::Expunge(seq))
    } else {
        Ok(Response::Other)
    }
}

/// What a word that names no status says with what follows it: ("CAPABILITY" / "ENABLED") *(SP word),
/// "FLAGS" SP names, "VANISHED" SP set, "LIST" list, "STATUS" status, each with CRLF.
#[tactic(auto, unfolding(crate::specs::reading::Reading::told_in))]
fn told(alloc: Global, word: &[u8], tail: &[u8]) -> Result<Response, AllocError>
    ensures { IfOk result (λ v. v ≡ reading.told_in (map classes.lower word.now) tail.now) }
{
    if is_key(word, b"capability") {
        Ok(Response::Capability(words_in(alloc, tail)?))
    } else if is_key(word, b"enabled") {
        Ok(Response::Enabled(words_in(alloc, tail)?))
    } else if is_key(word, b"flags") {
        let (flags, _) = flags_in(alloc, behind(tail, 2))?;
        Ok(Response::Flags(flags))
    } else if is_key(word, b"vanished") {
        vanished_in(alloc, behind(tail, 1))
    } else if is_key(word, b"list") {
        list_in(alloc, tail)
    } else if is_key(word, b"status") {
        folders::status_in(alloc, tail)
    } else {
        Ok(Response::Other)
    }
}

/// What stands after `* ` where no number does: ("OK" / "NO" / "BAD" / "PREAUTH" / "BYE") [SP text] CRLF, or what `told`
/// reads.
#[tactic(auto, unfolding(crate::specs::reading::Reading::plain_in, crate::specs::reading::Reading::said_in, crate::specs::reading::Reading::word_in))]
fn plain(alloc: Global, bytes: &[u8]) -> Result<Response, AllocError>
    ensures { IfOk result (λ v. v ≡ reading.plain_in bytes.now) }
{
    let n = word_len(bytes);
    let word = before(bytes, n);
    match status_named(word) {
        None => told(alloc, word, behind(bytes, n)),
        Some(status) => {
            let code = code_in(alloc, behind(bytes, n))?;
            Ok(Response::Untagged { status, code })
        }
    }
}

/// What stands after `* `.
#[tactic(auto, unfolding(crate::specs::reading::Reading::untagged_in))]
fn untagged(alloc: Global, bytes: &[u8]) -> Result<Response, AllocError>
    ensures { IfOk result (λ v. v ≡ reading.untagged_in bytes.now) }
{
    let n = word_len(bytes);
    let word = before(bytes, n);
    if is_sequence(word) && octet_at(bytes, n) == b' ' {
        numbered(alloc, number_of(word), behind(bytes, n + 1))
    } else {
        plain(alloc, bytes)
    }
}

/// A tagged line: tag SP ("OK" / "NO" / "BAD") [SP text] CRLF.
#[tactic(auto, unfolding(crate::specs::reading::Reading::tagged_in))]
fn tagged(alloc: Global, bytes: &[u8]) -> Result<Response, AllocError>
    ensures { IfOk result (λ v. v ≡ reading.tagged_in bytes.now) }
{
    let n = name_len(bytes);
    let tag = Bytes::copy_of(alloc, before(bytes, n))?;
    let line = behind(bytes, n + 1);
    let status = status_in(line).unwrap_or(Status::Bad);
    let code = code_in(alloc, behind(line, word_len(line)))?;
    Ok(Response::Tagged { tag, status, code })
}

/// A response: an untagged one after `* `, a continuation after `+`, or a tagged line.
#[tactic(auto, unfolding(crate::specs::reading::Reading::response_in))]
fn response(alloc: Global, bytes: &[u8]) -> Result<Response, AllocError>
    ensures { IfOk result (λ v. v ≡ reading.response_in bytes.now) }
{
    if octet_at(bytes, 0) == b'*' {
        untagged(alloc, behind(bytes, 2))
    } else if octet_at(bytes, 0) == b'+' {
        Ok(Response::Continue)
    } else {
        tagged(alloc, bytes)
    }
}

/// The value of the octets, which are one whole response, as `Scan::Whole` counts them. It fails only for out of memory.
pub fn decode(alloc: Global, bytes: &[u8]) -> Result<Response, AllocError>
    requires { (v : Response) × IsSpelling v bytes.now }
    ensures spelled { IfOk result (λ r. IsSpelling r bytes.now) }
    ensures value { (v : Response) → IsSpelling v bytes.now → IfOk result (λ r. r ≡ v) }
{
    response(alloc, bytes)
}

/// Octets spell at most one value.
pub fn one_value()
    ensures { (v w : Response) (b : List ℕ) → IsSpelling v b → IsSpelling w b → v ≡ w }
{}

/// No spelling is a proper prefix of another.
pub fn no_spelling_within()
    ensures { (v w : Response) (b more : List ℕ) → IsSpelling v b → IsSpelling w (b ++ more) → more ≡ [] }
{}
