// Encoded words, charsets and transfer encodings.
use crate::written::{put_octets, put_problem};
use header_words::{decode_charset, decode_transfer, decode_words, encode_words, transfer_len};
use std::alloc::{AllocError, Global};

/// The most octets of an encoded word (RFC 2047 section 2).
const MAX_WORD_OCTETS: usize = 75;

/// Adds the value with its encoded words decoded.
pub(crate) fn put_words(alloc: Global, value: &[u8], out: &mut String) -> Result<(), AllocError> {
    put_octets(out, &decode_words(alloc, value)?)
}

/// Whether each line is one encoded word that isn't too long, after a space where it isn't the first.
fn are_short(value: &[u8]) -> bool {
    let Ok(text) = str::from_utf8(value) else {
        return false;
    };
    for line in text.lines() {
        let word = line.strip_prefix(' ').unwrap_or(line);
        if word.len() > MAX_WORD_OCTETS {
            return false;
        }
    }
    true
}

/// Whether the words of the text are short, and read back as the text.
fn is_read_back(alloc: Global, text: &str) -> Result<bool, AllocError> {
    let value = encode_words(alloc, text)?;
    let read = decode_words(alloc, &value)?;
    Ok(are_short(&value) && read.as_slice() == text.as_bytes())
}

/// Adds how many fronts of the text have short words that read back, and each front that hasn't.
fn put_read_back(alloc: Global, text: &str, out: &mut String) -> Result<(), AllocError> {
    let mut front = String::new(alloc);
    let mut count: u64 = 0;
    for character in text.chars() {
        front.push(character)?;
        if is_read_back(alloc, &front)? {
            count = count.saturating_add(1);
        } else {
            write!(out, "not {front}, ")?;
        }
    }
    write!(out, "{count} fronts are read back")
}

/// Adds the text as encoded words, or how many fronts of it are read back.
pub(crate) fn put_encoded(
    alloc: Global,
    word: &str,
    text: &[u8],
    out: &mut String,
) -> Result<(), AllocError> {
    match str::from_utf8(text) {
        Err(_) => out.push_str("no text"),
        Ok(text) if word == "encode" => put_octets(out, &encode_words(alloc, text)?),
        Ok(text) => put_read_back(alloc, text, out),
    }
}

/// Adds the text that the octets spell in a charset.
pub(crate) fn put_charset(
    alloc: Global,
    name: &str,
    octets: &[u8],
    out: &mut String,
) -> Result<(), AllocError> {
    let (text, problem) = decode_charset(alloc, name.as_bytes(), octets)?;
    put_octets(out, &text)?;
    put_problem(out, problem)
}

/// Adds the octets that a body spells in a transfer encoding, and how many these are.
pub(crate) fn put_transfer(
    alloc: Global,
    name: &str,
    body: &[u8],
    out: &mut String,
) -> Result<(), AllocError> {
    let (octets, problem) = decode_transfer(alloc, name.as_bytes(), body)?;
    put_octets(out, &octets)?;
    write!(out, "|{}", transfer_len(name.as_bytes(), body))?;
    put_problem(out, problem)
}
