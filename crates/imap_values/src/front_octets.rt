// Octets at the front of a spelling.
ghost use Rattle.std.specs.Prelude.{◌≡◌, take, drop, get_or, length, map, bytes_eq, nat_lt, nat_le, ◌&&◌, ◌≤◌};
ghost use Rattle.imap_types.specs.Octets as classes;
ghost use Rattle.imap_values.specs.Spans as reading;

use imap_keywords::{is_digit, is_word};

/// What stands after the first n octets.
pub fn behind(bytes: &[u8], n: usize) -> &[u8]
    ensures { result.now ≡ drop n bytes.now }
{
    if n <= bytes.len() {
        let (_, back) = bytes.split_at(n);
        back
    } else {
        &[]
    }
}

/// The first n octets, or as many as there are.
pub fn before(bytes: &[u8], n: usize) -> &[u8]
    ensures { result.now ≡ take n bytes.now }
{
    if n <= bytes.len() {
        let (front, _) = bytes.split_at(n);
        front
    } else {
        bytes
    }
}

/// The octet at a place, or 0 where there is none.
pub fn octet_at(bytes: &[u8], at: usize) -> u8
    ensures { result ≡ get_or bytes.now at 0 }
{
    if at < bytes.len() { bytes[at] } else { 0 }
}

fn in_name(c: u8) -> bool
    ensures { result ≡ reading.in_name c }
{
    c != b' ' && c != b')'
}

/// The octet, an upper case letter in lower case.
pub fn lower(c: u8) -> u8
    ensures { result ≡ classes.lower c }
{
    if b'A' <= c && c <= b'Z' { c + 32 } else { c }
}

/// How many octets of a word, 33 to 126, stand at the front.
#[tactic(auto, using(crate::proofs::SpanLemmas::spans))]
pub fn word_len(bytes: &[u8]) -> usize
    ensures count { result ≡ reading.span classes.is_word bytes.now }
    ensures most { result ≤ length bytes.now }
{
    for (i, c) in bytes.iter().enumerate() {
        if !is_word(*c as u16) {
            return i;
        }
    }
    bytes.len()
}

/// How many octets of a tag or a flag, up to a space or `)`, stand at the front.
#[tactic(auto, using(crate::proofs::SpanLemmas::spans))]
pub fn name_len(bytes: &[u8]) -> usize
    ensures count { result ≡ reading.span reading.in_name bytes.now }
    ensures most { result ≤ length bytes.now }
{
    for (i, c) in bytes.iter().enumerate() {
        if !in_name(*c) {
            return i;
        }
    }
    bytes.len()
}

/// How many digits stand at the front.
#[tactic(auto, using(crate::proofs::SpanLemmas::spans))]
pub fn digits_len(bytes: &[u8]) -> usize
    ensures count { result ≡ reading.span classes.is_digit bytes.now }
    ensures most { result ≤ length bytes.now }
{
    for (i, c) in bytes.iter().enumerate() {
        if !is_digit(*c as u16) {
            return i;
        }
    }
    bytes.len()
}

#[tactic(auto, using(crate::proofs::SpanLemmas::runs))]
fn all_digits(bytes: &[u8]) -> bool
    ensures { result ≡ reading.all_digits bytes.now }
{
    for c in bytes {
        if !is_digit(*c as u16) {
            return false;
        }
    }
    true
}

fn capped(n: u64) -> u64
    ensures { result ≡ reading.cap 4294967295 n }
{
    if n <= u32::MAX as u64 {
        n
    } else {
        u32::MAX as u64 + 1
    }
}

/// The number, or 2^32 where it is greater.
#[tactic(auto, using(crate::proofs::SpanLemmas::runs))]
fn count_of(digits: &[u8]) -> u64
    ensures { result ≡ reading.number_from 0 digits.now }
{
    let mut value: u64 = 0;
    for c in digits {
        value = capped(10 * value + c.saturating_sub(b'0') as u64);
    }
    value
}

/// The number, or 2^32 - 1 where it is greater.
pub fn number_of(digits: &[u8]) -> u32
    ensures { result ≡ reading.number_in digits.now }
{
    let count = count_of(digits);
    if count <= u32::MAX as u64 {
        count as u32
    } else {
        u32::MAX
    }
}

fn capped_long(n: u128) -> u64
    ensures { result ≡ reading.cap 9223372036854775807 n }
{
    if n <= i64::MAX as u128 {
        n as u64
    } else {
        i64::MAX as u64 + 1
    }
}

/// The number, or 2^63 where it is greater.
#[tactic(auto, using(crate::proofs::SpanLemmas::runs))]
pub fn long_of(digits: &[u8]) -> u64
    ensures { result ≡ reading.long_value digits.now }
{
    let mut value: u64 = 0;
    for c in digits {
        value = capped_long(10 * value as u128 + c.saturating_sub(b'0') as u128);
    }
    value
}

fn is_few(word: &[u8], most: usize) -> bool
    ensures { result ≡ (nat_lt 0 (length word.now) && nat_le (length word.now) most) }
{
    0 < word.len() && word.len() <= most
}

/// Whether the word is of digits, at least one and at most n.
pub fn is_decimal(word: &[u8], most: usize) -> bool
    ensures { result ≡ (nat_lt 0 (length word.now) && nat_le (length word.now) most && reading.all_digits word.now) }
{
    is_few(word, most) && all_digits(word)
}

fn is_small(word: &[u8]) -> bool
    ensures { result ≡ nat_le (reading.number_from 0 word.now) 4294967295 }
{
    count_of(word) <= u32::MAX as u64
}

/// Whether the word is a number: one to ten digits, and at most 2^32 - 1.
#[tactic(auto, unfolding(crate::specs::Spans::is_sequence))]
pub fn is_sequence(word: &[u8]) -> bool
    ensures { result ≡ reading.is_sequence word.now }
{
    is_decimal(word, 10) && is_small(word)
}

/// Whether the octets, letters in lower case, are the other ones.
fn is_folded(word: &[u8], key: &[u8]) -> bool
    ensures { result ≡ bytes_eq (map classes.lower word.now) key.now }
{
    match (word, key) {
        ([], []) => true,
        ([a, x @ ..], [b, y @ ..]) => lower(*a) == *b && is_folded(x, y),
        _ => false,
    }
}

/// Whether the word, whatever the case of its letters, is the key, which is in lower case.
#[tactic(auto, using(crate::proofs::SpanLemmas::keys))]
pub fn is_key(word: &[u8], key: &[u8]) -> bool
    ensures { result ≡ bytes_eq (map classes.lower word.now) key.now }
{
    if word.len() == key.len() {
        is_folded(word, key)
    } else {
        false
    }
}
