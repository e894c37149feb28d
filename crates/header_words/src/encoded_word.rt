// One encoded word (RFC 2047 section 2).
ghost use Rattle.std.specs.Prelude.{◌≡◌, ◌≢◌, ◌↔◌, ◌==◌, not, ℕ, List, ◌∷◌, ◌++◌, IfOk, IfSome, IfNone, MatchOption, IsTrue};
ghost use Rattle.text_words.specs.Cuts.{Each};
ghost use Rattle.text_words.specs.Sequence.{UnitAt};
ghost use Rattle.header_words.specs.EncodedWords as words;
ghost use Rattle.header_words.specs.reading.Units.{coded_of};

use crate::base64_text::decode_base64;
use crate::charset::{Charset, charset_named};
use crate::quoted_text::decode_quoted;
use std::alloc::{AllocError, Global};
use text_words::{Class, behind, cut, first, is_white, run_before};

/// The octets of a charset's name.
struct Token;

impl Class<u8> for Token {
    ghost test = { words.is_charset_octet };

    fn has(&self, item: &u8) -> bool {
        match *item {
            b'(' | b')' | b'<' | b'>' | b'@' | b',' | b';' | b':' | b'"' => false,
            b'/' | b'[' | b']' | b'?' | b'.' | b'=' => false,
            octet => b'!' <= octet && octet <= b'~',
        }
    }
}

/// The octets of an encoded text.
struct Encoded;

impl Class<u8> for Encoded {
    ghost test = { words.is_encoded };

    fn has(&self, item: &u8) -> bool {
        b'!' <= *item && *item <= b'~' && *item != b'?'
    }
}

/// The octets before the language of a charset.
struct BeforeStar;

impl Class<u8> for BeforeStar {
    ghost test = { λ c. not (c == 42) };

    fn has(&self, item: &u8) -> bool {
        *item != b'*'
    }
}

/// Beside which octets an encoded word may stand.
#[derive(Clone, Copy, PartialEq, Eq, Debug)]
pub enum Edges {
    /// White space and parentheses (RFC 2047 section 5).
    White,
    /// Quotation marks too: no sender may write an encoded word in a quoted text, and many do.
    Quotes,
}

/// White space or a parenthesis.
fn is_white_edge(octet: u8) -> bool
    ensures { result ≡ words.is_white_edge octet }
{
    is_white(octet) || octet == b'(' || octet == b')'
}

/// Whether the octet is an edge of this kind.
pub fn is_edge(edges: Edges, octet: u8) -> bool
    ensures { result ≡ words.is_edge edges octet }
{
    match edges {
        Edges::White => is_white_edge(octet),
        Edges::Quotes => is_white_edge(octet) || octet == b'"',
    }
}

/// The parts of an encoded word, and what follows it.
#[derive(Clone, Copy)]
struct Shape<'a> {
    charset: &'a [u8],
    letter: u8,
    text: &'a [u8],
    behind: &'a [u8],
}

/// What an encoded word spells, and how many octets the word has.
#[derive(Drop)]
pub struct Word {
    /// The charset that the word names.
    pub charset: Charset,
    /// In this charset.
    pub octets: Vec<u8>,
    /// From `=?` up to and with `?=`.
    pub len: usize,
}

/// The encoded text at the front, which may be empty, and what stands after the "?" that ends it.
fn encoded_text(text: &[u8]) -> Option<(&[u8], &[u8])>
    ensures { MatchOption result
        ((x y : List ℕ) → Each words.is_encoded x → text.now ≢ x ++ 63 ∷ y)
        (λ r. Each words.is_encoded r.0.now × (text.now ≡ r.0.now ++ 63 ∷ r.1.now)) }
{
    let (encoded, rest) = cut(&Encoded, text);
    match behind(b'?', rest) {
        None => None,
        Some(rest) => Some((encoded, rest)),
    }
}

/// The parts of the encoded word at the front, where the text begins with the shape of one (RFC 2047 section 2).
fn shape_at(text: &[u8]) -> Option<Shape<'_>>
    ensures some { IfSome result (λ s. words.HasShape s.charset.now s.letter s.text.now s.behind.now text.now) }
    ensures none { IfNone result ((c : List ℕ) (l : ℕ) (t b : List ℕ) → words.HasShape c l t b text.now → ⊥) }
{
    let inner = behind(b'=', text)?;
    let inner = behind(b'?', inner)?;
    let (charset, rest) = run_before(&Token, b'?', inner)?;
    let (letter, rest) = first(rest)?;
    let inner = behind(b'?', rest)?;
    let (encoded, rest) = encoded_text(inner)?;
    let after = behind(b'=', rest)?;
    Some(Shape {
        charset,
        letter,
        text: encoded,
        behind: after,
    })
}

/// The octets that a text spells in the encoding "B" or "Q".
fn decode_letter(alloc: Global, letter: u8, text: &[u8]) -> Result<Option<Vec<u8>>, AllocError>
    ensures some { IfOk result (λ r. IfSome r (λ v. words.Spells letter v.items text.now)) }
    ensures none { IfOk result (λ r. IfNone r ((octets : List ℕ) → words.Spells letter octets text.now → ⊥)) }
{
    match letter {
        b'B' | b'b' => decode_base64(alloc, text),
        b'Q' | b'q' => decode_quoted(alloc, text),
        _ => Ok(None),
    }
}

fn begins_at_edge(edges: Edges, text: &[u8]) -> bool
    ensures { IsTrue result ↔ words.BeginsAtEdge edges text.now }
{
    match text {
        [] => true,
        [first, ..] => is_edge(edges, *first),
    }
}

/// The encoded word at the front of the text, where one stands there before an edge.
pub fn word_at(alloc: Global, edges: Edges, text: &[u8]) -> Result<Option<Word>, AllocError>
    ensures some { IfOk result (λ r. IfSome r (λ w. UnitAt (words.IsWordBefore edges) (coded_of w) w.len text.now)) }
    ensures none { IfOk result (λ r. IfNone r ((coded : words.Coded) (word rest : List ℕ) → text.now ≡ word ++ rest → words.IsWordBefore edges coded word rest → ⊥)) }
{
    let Some(shape) = shape_at(text) else {
        return Ok(None);
    };
    if !begins_at_edge(edges, shape.behind) {
        return Ok(None);
    }
    let (name, _) = cut(&BeforeStar, shape.charset);
    if name.is_empty() {
        return Ok(None);
    }
    let Some(octets) = decode_letter(alloc, shape.letter, shape.text)? else {
        return Ok(None);
    };
    Ok(Some(Word {
        charset: charset_named(name),
        octets,
        len: text.len() - shape.behind.len(),
    }))
}
