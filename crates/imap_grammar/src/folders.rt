// What LIST and STATUS tell of folders (RFC 9051 sections 7.3.1 and 7.3.3).
ghost use Rattle.std.specs.Prelude.{◌≡◌, ◌≤◌, IfOk, length, map};
ghost use Rattle.imap_types.specs.Octets as classes;
ghost use Rattle.imap_types.specs.Folders as folders;
ghost use Rattle.imap_values.specs.Spans as spans;
ghost use Rattle.imap_grammar.specs.reading.FolderReading as reading;

use imap_keywords::is_status_word;
use imap_types::{Response, StatusItems};
use imap_values::{astring_in, before, behind, digits_len, flags_in, is_key, long_of, octet_at};
use octets::Bytes;
use std::alloc::{AllocError, Global};

/// INBOX whatever the case of its letters, or the name as it is.
fn folder_name(alloc: Global, name: Bytes) -> Result<Bytes, AllocError>
    ensures { IfOk result (λ n. n ≡ folders.folder_name name) }
{
    if is_key(name.as_slice(), b"inbox") {
        Bytes::copy_of(alloc, b"INBOX")
    } else {
        Ok(name)
    }
}

/// The delimiter at the front, and what follows it: DQUOTE quoted-char DQUOTE / "NIL".
#[tactic(auto, unfolding(crate::specs::reading::FolderReading::delimiter_in))]
fn delimiter_in(bytes: &[u8]) -> (Option<u8>, &[u8])
    ensures delimiter { result.0 ≡ (reading.delimiter_in bytes.now).0 }
    ensures rest { result.1.now ≡ (reading.delimiter_in bytes.now).1 }
{
    if octet_at(bytes, 0) != b'"' {
        (None, behind(bytes, 3))
    } else if octet_at(bytes, 1) == b'\\' {
        (Some(octet_at(bytes, 2)), behind(bytes, 4))
    } else {
        (Some(octet_at(bytes, 1)), behind(bytes, 3))
    }
}

/// What a LIST says, from after its word on: SP names SP (quoted / "NIL") SP astring [SP value] CRLF.
#[tactic(auto, unfolding(crate::specs::reading::FolderReading::list_in))]
pub fn list_in(alloc: Global, bytes: &[u8]) -> Result<Response, AllocError>
    ensures { IfOk result (λ v. v ≡ reading.list_in bytes.now) }
{
    let (attributes, rest) = flags_in(alloc, behind(bytes, 2))?;
    let (delimiter, rest) = delimiter_in(behind(rest, 1));
    let (name, _) = astring_in(alloc, behind(rest, 1))?;
    let name = folder_name(alloc, name)?;
    Ok(Response::List {
        attributes,
        delimiter,
        name,
    })
}

/// How many octets of a word of a STATUS stand at the front.
#[tactic(auto, using(imap_values::proofs::SpanLemmas::spans))]
fn status_word_len(bytes: &[u8]) -> usize
    ensures count { result ≡ spans.span classes.is_status_word bytes.now }
    ensures most { result ≤ length bytes.now }
{
    for (i, c) in bytes.iter().enumerate() {
        if !is_status_word(*c as u16) {
            return i;
        }
    }
    bytes.len()
}

/// A count that isn't a mod-sequence.
fn told_small(items: StatusItems, word: &[u8], n: u32) -> StatusItems
    ensures { result ≡ folders.told_small items (map classes.lower word.now) n }
{
    if is_key(word, b"messages") {
        StatusItems {
            messages: Some(n),
            ..items
        }
    } else if is_key(word, b"uidnext") {
        StatusItems {
            uid_next: Some(n),
            ..items
        }
    } else if is_key(word, b"uidvalidity") {
        StatusItems {
            uid_validity: Some(n),
            ..items
        }
    } else {
        items
    }
}

/// The items with one count more.
fn told_as(items: StatusItems, word: &[u8], n: u64) -> StatusItems
    ensures { result ≡ folders.told_as items (map classes.lower word.now) n }
{
    if is_key(word, b"highestmodseq") {
        StatusItems {
            modseq: Some(n),
            ..items
        }
    } else if n <= u32::MAX as u64 {
        told_small(items, word, n as u32)
    } else {
        items
    }
}

/// The items with the count at the front, and what follows it: word SP long.
#[tactic(auto, unfolding(crate::specs::reading::FolderReading::count_in))]
fn count_in(so_far: StatusItems, bytes: &[u8]) -> (StatusItems, &[u8])
    ensures items { result.0 ≡ (reading.count_in so_far bytes.now).0 }
    ensures rest { result.1.now ≡ (reading.count_in so_far bytes.now).1 }
{
    let n = status_word_len(bytes);
    let number = behind(bytes, n + 1);
    let digits = digits_len(number);
    (
        told_as(so_far, before(bytes, n), long_of(before(number, digits))),
        behind(number, digits),
    )
}

const NO_COUNTS: StatusItems = StatusItems {
    messages: None,
    uid_next: None,
    uid_validity: None,
    modseq: None,
};

/// The counts, up to the closing bracket: count *(SP count) ")".
#[tactic(auto, unfolding(crate::specs::reading::FolderReading::status_counts))]
fn counts_in(bytes: &[u8]) -> StatusItems
    ensures { result ≡ reading.status_counts (length bytes.now) folders.no_counts bytes.now }
{
    let mut items = NO_COUNTS;
    let mut rest = bytes;
    let mut left = bytes.len();
    while 0 < left {
        let (next, after) = count_in(items, rest);
        items = next;
        if octet_at(after, 0) != b' ' {
            return items;
        }
        rest = behind(after, 1);
        left -= 1;
    }
    items
}

/// The counts from after the opening bracket on: [count *(SP count)] ")".
#[tactic(auto, unfolding(crate::specs::reading::FolderReading::counts_in))]
fn counts_of(bytes: &[u8]) -> StatusItems
    ensures { result ≡ reading.counts_in bytes.now }
{
    if octet_at(bytes, 0) == b')' {
        NO_COUNTS
    } else {
        counts_in(bytes)
    }
}

/// What a STATUS says, from after its word on: SP astring SP "(" [count *(SP count)] ")" CRLF.
#[tactic(auto, unfolding(crate::specs::reading::FolderReading::status_in))]
pub fn status_in(alloc: Global, bytes: &[u8]) -> Result<Response, AllocError>
    ensures { IfOk result (λ v. v ≡ reading.status_in bytes.now) }
{
    let (name, rest) = astring_in(alloc, behind(bytes, 1))?;
    let name = folder_name(alloc, name)?;
    let items = counts_of(behind(rest, 2));
    Ok(Response::StatusItems { name, items })
}
