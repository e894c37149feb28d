// Charsets (RFC 2045 section 2.2), and texts read in them.
ghost use Rattle.std.specs.Prelude.{◌≡◌, IfOk};
ghost use Rattle.header_words.specs.Charsets as charsets;
ghost use Rattle.header_words.specs.Charsets.{charset_of, text_in, has_problem_in};
ghost use Rattle.header_words.specs.declared.charset.Charset.TheVariants as charset;

use std::alloc::{AllocError, Global};
use std::str::from_utf8;
use text_words::same_text;

/// A charset that is read.
#[derive(Clone, Copy, PartialEq, Eq, Debug)]
pub enum Charset {
    /// us-ascii: octets above 127 spell nothing.
    Ascii,
    /// utf-8 (RFC 3629): invalid sequences spell nothing.
    Utf8,
    /// iso-8859-1: each octet is a code point.
    Latin1,
    /// Any other, which is read as us-ascii.
    Unknown,
}

/// U+FFFD in UTF-8, which stands for what can't be read.
pub const REPLACEMENT: [u8; 3] = [0xEF, 0xBF, 0xBD];

/// The UTF-8 text that the octets spell in the charset of this name, and whether there was a problem. Names and the
/// aliases that IANA registers compare without regard to case. In us-ascii and in an unknown charset an octet above 127
/// becomes U+FFFD, in utf-8 each invalid sequence does; that is a problem, and so is an unknown charset.
pub fn decode_charset(
    alloc: Global,
    name: &[u8],
    bytes: &[u8],
) -> Result<(Vec<u8>, bool), AllocError>
    ensures text { IfOk result (λ r. r.0.items ≡ text_in (charset_of name.now) bytes.now) }
    ensures problem { IfOk result (λ r. r.1 ≡ has_problem_in (charset_of name.now) bytes.now) }
{
    read_in(alloc, charset_named(name), bytes)
}

/// The UTF-8 text that the octets spell in the charset, and whether there was a problem.
pub(crate) fn read_in(
    alloc: Global,
    charset: Charset,
    bytes: &[u8],
) -> Result<(Vec<u8>, bool), AllocError>
    ensures text { IfOk result (λ r. r.0.items ≡ text_in charset bytes.now) }
    ensures problem { IfOk result (λ r. r.1 ≡ has_problem_in charset bytes.now) }
{
    match charset {
        Charset::Ascii => ascii_text(alloc, bytes),
        Charset::Utf8 => utf8_text(alloc, bytes),
        Charset::Latin1 => latin1_text(alloc, bytes),
        Charset::Unknown => {
            let (text, _) = ascii_text(alloc, bytes)?;
            Ok((text, true))
        }
    }
}

fn is_ascii_name(name: &[u8]) -> bool
    ensures { result ≡ charsets.is_ascii_name name.now }
{
    same_text(name, b"us-ascii")
        || same_text(name, b"ascii")
        || same_text(name, b"us")
        || same_text(name, b"iso646-us")
        || same_text(name, b"ansi_x3.4-1968")
}

fn is_utf8_name(name: &[u8]) -> bool
    ensures { result ≡ charsets.is_utf8_name name.now }
{
    same_text(name, b"utf-8") || same_text(name, b"utf8")
}

fn is_latin1_name(name: &[u8]) -> bool
    ensures { result ≡ charsets.is_latin1_name name.now }
{
    same_text(name, b"iso-8859-1")
        || same_text(name, b"iso8859-1")
        || same_text(name, b"iso_8859-1")
        || same_text(name, b"latin1")
        || same_text(name, b"l1")
        || same_text(name, b"cp819")
}

pub(crate) fn charset_named(name: &[u8]) -> Charset
    ensures { result ≡ charset_of name.now }
{
    if is_utf8_name(name) {
        Charset::Utf8
    } else if is_latin1_name(name) {
        Charset::Latin1
    } else if is_ascii_name(name) {
        Charset::Ascii
    } else {
        Charset::Unknown
    }
}

fn ascii_text(alloc: Global, bytes: &[u8]) -> Result<(Vec<u8>, bool), AllocError>
    ensures text { IfOk result (λ r. r.0.items ≡ text_in charset.Ascii bytes.now) }
    ensures problem { IfOk result (λ r. r.1 ≡ has_problem_in charset.Ascii bytes.now) }
{
    let mut text = Vec::new(alloc);
    let mut problem = false;
    for octet in bytes {
        if *octet < 128 {
            text.push(*octet)?;
        } else {
            text.extend_from_slice(&REPLACEMENT)?;
            problem = true;
        }
    }
    Ok((text, problem))
}

#[tactic(auto, using(crate::proofs::TextTests::utf8_passes, crate::proofs::TextTests::others_fail))]
fn utf8_text(alloc: Global, bytes: &[u8]) -> Result<(Vec<u8>, bool), AllocError>
    ensures text { IfOk result (λ r. r.0.items ≡ text_in charset.Utf8 bytes.now) }
    ensures problem { IfOk result (λ r. r.1 ≡ has_problem_in charset.Utf8 bytes.now) }
{
    let text = String::from_utf8_lossy(alloc, bytes)?;
    match from_utf8(bytes) {
        Ok(_) => Ok((text.into_bytes(), false)),
        Err(_) => Ok((text.into_bytes(), true)),
    }
}

fn latin1_text(alloc: Global, bytes: &[u8]) -> Result<(Vec<u8>, bool), AllocError>
    ensures text { IfOk result (λ r. r.0.items ≡ text_in charset.Latin1 bytes.now) }
    ensures problem { IfOk result (λ r. r.1 ≡ has_problem_in charset.Latin1 bytes.now) }
{
    let mut text = String::new(alloc);
    for octet in bytes {
        text.push(*octet as char)?;
    }
    Ok((text.into_bytes(), false))
}
