// Transfer encodings (RFC 2045 section 6).
ghost use Rattle.std.specs.Prelude.{◌≡◌, ◌≤◌, length, IfOk};
ghost use Rattle.std.specs.List.{filter, list_any};
ghost use Rattle.header_words.specs.Base64 as base64;
ghost use Rattle.header_words.specs.Transfer as transfer;

use crate::base64_text::{decode_symbols, is_symbol, spelled_len};
use crate::quoted_printable::{decode_printable, printable_len};
use std::alloc::{AllocError, Global};
use text_words::{Class, cut, is_white, same_text};

/// A Content-Transfer-Encoding (RFC 2045 section 6). 7bit, 8bit and binary are the identity.
#[derive(Clone, Copy, PartialEq, Eq, Debug)]
pub enum Encoding {
    /// The body stands for its own octets.
    Identity,
    /// RFC 2045 section 6.7.
    QuotedPrintable,
    /// RFC 2045 section 6.8.
    Base64,
    /// Any other name, also the empty one: the octets are kept as they stand.
    Unknown,
}

/// The octets that a body spells in the encoding of this name, and whether it has a problem. Names compare without
/// regard to case. An unknown encoding keeps the octets, and is a problem.
pub fn decode_transfer(
    alloc: Global,
    encoding: &[u8],
    bytes: &[u8],
) -> Result<(Vec<u8>, bool), AllocError>
    ensures { IfOk result (λ r. transfer.IsBody (transfer.encoding_of encoding.now) r.0.items r.1 bytes.now) }
{
    match encoding_named(encoding) {
        Encoding::Identity => Ok((Vec::from_slice(alloc, bytes)?, false)),
        Encoding::QuotedPrintable => decode_printable(alloc, bytes),
        Encoding::Base64 => decode_body(alloc, bytes),
        Encoding::Unknown => Ok((Vec::from_slice(alloc, bytes)?, true)),
    }
}

/// How many octets a body spells in the encoding of this name: as many as `decode_transfer` gives.
#[tactic(auto, using(crate::proofs::TransferLens::printable_body, crate::proofs::TransferLens::base64_body, crate::proofs::TransferLens::same_body))]
pub fn transfer_len(encoding: &[u8], bytes: &[u8]) -> usize
    ensures { transfer.HasBodyLen (transfer.encoding_of encoding.now) result bytes.now }
{
    match encoding_named(encoding) {
        Encoding::Identity | Encoding::Unknown => bytes.len(),
        Encoding::QuotedPrintable => printable_len(bytes),
        Encoding::Base64 => body_len(bytes),
    }
}

fn encoding_named(name: &[u8]) -> Encoding
    ensures { result ≡ transfer.encoding_of name.now }
{
    if is_identity(name) {
        Encoding::Identity
    } else if same_text(name, b"quoted-printable") {
        Encoding::QuotedPrintable
    } else if same_text(name, b"base64") {
        Encoding::Base64
    } else {
        Encoding::Unknown
    }
}

fn is_identity(name: &[u8]) -> bool
    ensures { result ≡ transfer.is_identity name.now }
{
    same_text(name, b"7bit") || same_text(name, b"8bit") || same_text(name, b"binary")
}

/// The octets before the padding of base64.
struct BeforePadding;

impl Class<u8> for BeforePadding {
    ghost test = { transfer.is_no_padding };

    fn has(&self, item: &u8) -> bool {
        *item != b'='
    }
}

/// The octets that a body in base64 spells, and whether it has strangers, which are passed over.
fn decode_body(alloc: Global, bytes: &[u8]) -> Result<(Vec<u8>, bool), AllocError>
    ensures octets { IfOk result (λ r. r.0.items ≡ transfer.base64_octets bytes.now) }
    ensures problem { IfOk result (λ r. r.1 ≡ transfer.base64_problem bytes.now) }
{
    let (data, _) = cut(&BeforePadding, bytes);
    let symbols = symbols_of(alloc, data)?;
    let octets = decode_symbols(alloc, symbols.as_slice())?;
    Ok((octets, has_stranger(data)))
}

/// How many octets a body in base64 spells.
fn body_len(bytes: &[u8]) -> usize
    ensures { result ≡ length (transfer.base64_octets bytes.now) }
{
    let (data, _) = cut(&BeforePadding, bytes);
    spelled_len(symbol_count(data))
}

fn symbol_count(text: &[u8]) -> usize
    ensures value { result ≡ length (filter base64.is_symbol text.now) }
    ensures within { result ≤ length text.now }
{
    let mut count = 0;
    for octet in text {
        if is_symbol(*octet) {
            count += 1;
        }
    }
    count
}

fn symbols_of(alloc: Global, text: &[u8]) -> Result<Vec<u8>, AllocError>
    ensures { IfOk result (λ v. v.items ≡ filter base64.is_symbol text.now) }
{
    text.iter()
        .copied()
        .filter(|octet| is_symbol(*octet))
        .collect(alloc)
}

fn has_stranger(text: &[u8]) -> bool
    ensures { result ≡ list_any transfer.is_stranger text.now }
{
    for octet in text {
        if is_stranger(*octet) {
            return true;
        }
    }
    false
}

/// Neither a symbol nor white space.
fn is_stranger(octet: u8) -> bool
    ensures { result ≡ transfer.is_stranger octet }
{
    !(is_symbol(octet) || is_white(octet))
}
