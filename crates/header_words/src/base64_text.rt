// Base64 (RFC 4648 section 4), read and written.
ghost use Rattle.std.specs.Prelude.{◌≡◌, ◌<◌, ◌+◌, ◌*◌, ◌/◌, ◌%◌, ℕ, List, [], ◌∷◌, ◌++◌, length, IfOk, OnOk, IfSome, IfNone};
ghost use Rattle.header_words.specs.Base64 as base64;

use std::alloc::{AllocError, Global};
use text_words::{Class, are_all, cut, is_alpha, is_digit};

/// A symbol of the base64 alphabet.
pub struct Symbol;

impl Class<u8> for Symbol {
    ghost test = { base64.is_symbol };

    fn has(&self, item: &u8) -> bool {
        is_symbol(*item)
    }
}

/// The sign "=".
struct EqualsSign;

impl Class<u8> for EqualsSign {
    ghost test = { base64.is_equals_sign };

    fn has(&self, item: &u8) -> bool {
        *item == b'='
    }
}

/// Whether the octet is of the alphabet (RFC 4648 section 4), the padding aside.
pub fn is_symbol(octet: u8) -> bool
    ensures { result ≡ base64.is_symbol octet }
{
    is_alpha(octet) || is_digit(octet) || octet == b'+' || octet == b'/'
}

/// The six bits of a symbol.
fn symbol_value(symbol: u8) -> u8
    ensures value { result ≡ base64.symbol_value symbol }
    ensures bits { result < 64 }
{
    match symbol {
        b'A'..=b'Z' => symbol - b'A',
        b'a'..=b'z' => symbol - b'a' + 26,
        b'0'..=b'9' => symbol - b'0' + 52,
        b'+' => 62,
        _ => 63,
    }
}

/// The octets that a text in base64 spells, where it is one: symbols, and up to two "=" after them.
pub fn decode_base64(alloc: Global, text: &[u8]) -> Result<Option<Vec<u8>>, AllocError>
    ensures some { IfOk result (λ r. IfSome r (λ v. base64.IsBase64 v.items text.now)) }
    ensures none { IfOk result (λ r. IfNone r ((octets : List ℕ) → base64.IsBase64 octets text.now → ⊥)) }
{
    let (symbols, padding) = cut(&Symbol, text);
    if symbols.len() % 4 == 1 {
        return Ok(None);
    }
    if padding.len() > 2 {
        return Ok(None);
    }
    if !are_all(&EqualsSign, padding) {
        return Ok(None);
    }
    Ok(Some(decode_symbols(alloc, symbols)?))
}

/// The octets that the symbols spell. Bits left over at the end are dropped.
pub fn decode_symbols(alloc: Global, symbols: &[u8]) -> Result<Vec<u8>, AllocError>
    ensures { IfOk result (λ v. v.items ≡ base64.spelled_octets symbols.now) }
{
    let mut octets = Vec::new(alloc);
    let mut rest = symbols;
    while let [a, b, c, d, more @ ..] = rest {
        octets.extend_from_slice(&group(*a, *b, *c, *d))?;
        rest = more;
    }
    push_last(&mut octets, rest)?;
    Ok(octets)
}

/// How many octets n symbols spell: three for each group of four, and one less than the symbols of a last group.
#[tactic(auto, using(crate::proofs::Base64Lemmas::spelled_length))]
pub fn spelled_len(symbols: usize) -> usize
    ensures { (s : List ℕ) → length s ≡ symbols → result ≡ length (base64.spelled_octets s) }
{
    symbols - symbols / 4 - (symbols % 4).min(1)
}

/// Adds the octets of the symbols after the last whole group.
fn push_last(octets: &mut Vec<u8>, symbols: &[u8]) -> Result<(), AllocError>
    requires { length symbols.now < 4 }
    ensures { OnOk result (octets.new.items ≡ octets.old.items ++ base64.spelled_octets symbols.now) }
{
    match symbols {
        [] | [_] => {}
        [a, b] => octets.push(first_octet(*a, *b))?,
        [a, b, c] => {
            octets.push(first_octet(*a, *b))?;
            octets.push(second_octet(*b, *c))?;
        }
        [_, _, _, _, ..] => unreachable!(),
    }
    Ok(())
}

/// The three octets of four symbols.
fn group(a: u8, b: u8, c: u8, d: u8) -> [u8; 3]
    ensures { result ≡ base64.spelled_octets (a ∷ b ∷ c ∷ d ∷ []) }
{
    [first_octet(a, b), second_octet(b, c), third_octet(c, d)]
}

fn first_octet(a: u8, b: u8) -> u8
    ensures { result ≡ base64.symbol_value a * 4 + base64.symbol_value b / 16 }
{
    symbol_value(a) * 4 + symbol_value(b) / 16
}

fn second_octet(b: u8, c: u8) -> u8
    ensures { result ≡ base64.symbol_value b % 16 * 16 + base64.symbol_value c / 4 }
{
    symbol_value(b) % 16 * 16 + symbol_value(c) / 4
}

fn third_octet(c: u8, d: u8) -> u8
    ensures { result ≡ base64.symbol_value c % 4 * 64 + base64.symbol_value d }
{
    symbol_value(c) % 4 * 64 + symbol_value(d)
}
