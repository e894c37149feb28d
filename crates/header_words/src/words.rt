// Values in which encoded words are decoded (RFC 2047 section 6).
ghost use Rattle.std.specs.Prelude.{◌≡◌, ◌++◌, Bool, false, true, ℕ, List, [], ◌∷◌, IfOk, IfSome, IfNone, OnOk};
ghost use Rattle.std.specs.List.{filter};
ghost use Rattle.text_words.specs.Sequence.{UnitAt};
ghost use Rattle.header_words.specs.EncodedWords as words;
ghost use Rattle.header_words.specs.reading.Units.{FoundAt, coded_of, Gathers};

use crate::charset::{Charset, read_in};
use crate::encoded_word::{Edges, Word, is_edge, word_at};
use std::alloc::{AllocError, Global};
use text_words::{White, are_all};

/// The value with its encoded words decoded (RFC 2047). An encoded word is decoded where it stands between white
/// space, parentheses or the ends of the value, and white space between two of them is dropped. Words in UTF-8 that
/// stand side by side are decoded as one text. Control characters of encoded words are dropped. A word that can't be
/// decoded stays as it is.
pub fn decode_words(alloc: Global, value: &[u8]) -> Result<Vec<u8>, AllocError>
    ensures { IfOk result (λ v. words.IsText false value.now v.items) }
{
    decode_words_between(alloc, Edges::White, value)
}

/// The value as `decode_words` gives it, where encoded words stand between edges of this kind.
pub fn decode_words_between(
    alloc: Global,
    edges: Edges,
    value: &[u8],
) -> Result<Vec<u8>, AllocError>
    ensures { IfOk result (λ v. words.IsTextBetween edges false value.now v.items) }
{
    let mut spans = Spans {
        text: Vec::new(alloc),
        run: Vec::new(alloc),
    };
    let mut rest = value;
    let mut behind_word = false;
    while let Some(found) = first_word(alloc, edges, rest)? {
        let (before, _) = rest.split_at(found.start);
        push_kept(alloc, &mut spans, behind_word, before)?;
        push_word(alloc, &mut spans, &found.word)?;
        let (_, behind) = rest.split_at(found.end);
        rest = behind;
        behind_word = true;
    }
    push_text(alloc, &mut spans, rest)?;
    Ok(spans.text)
}

/// The first encoded word of a value, and where it stands.
#[derive(Drop)]
struct Found {
    start: usize,
    end: usize,
    word: Word,
}

fn first_word(alloc: Global, edges: Edges, value: &[u8]) -> Result<Option<Found>, AllocError>
    ensures some { IfOk result (λ r. IfSome r (λ f. FoundAt edges (coded_of f.word) f.start f.end value.now)) }
    ensures none { IfOk result (λ r. IfNone r (words.HasNone edges value.now)) }
{
    let mut edge = true;
    for (at, octet) in value.iter().enumerate() {
        let (_, rest) = value.split_at(at);
        match word_behind(alloc, edges, edge, rest)? {
            None => edge = is_edge(edges, *octet),
            Some(word) => {
                return Ok(Some(Found {
                    start: at,
                    end: at + word.len,
                    word,
                }));
            }
        }
    }
    Ok(None)
}

/// The encoded word at the front of the text, where an edge stands before it.
fn word_behind(
    alloc: Global,
    edges: Edges,
    edge: bool,
    text: &[u8],
) -> Result<Option<Word>, AllocError>
    ensures some { IfOk result (λ r. IfSome r (λ w. UnitAt (words.IsWordBefore edges) (coded_of w) w.len text.now)) }
    ensures edge { IfOk result (λ r. IfSome r (λ w. edge ≡ true)) }
    ensures none { IfOk result (λ r. IfNone r ((coded : words.Coded) (word rest : List ℕ) → text.now ≡ word ++ rest → edge ≡ true → words.IsWordBefore edges coded word rest → ⊥)) }
{
    if edge {
        word_at(alloc, edges, text)
    } else {
        Ok(None)
    }
}

/// The text so far, and after it the octets of a run of encoded words in UTF-8, which isn't decoded yet.
#[derive(Drop)]
struct Spans {
    text: Vec<u8>,
    run: Vec<u8>,
}

/// Adds the text before an encoded word. White space between two of them is dropped.
fn push_kept(
    alloc: Global,
    spans: &mut Spans,
    behind_word: bool,
    before: &[u8],
) -> Result<(), AllocError>
    ensures { OnOk result (Gathers spans.old spans.new (words.kept behind_word before.now)) }
{
    if behind_word && are_all(&White, before) {
        return Ok(());
    }
    push_text(alloc, spans, before)
}

/// Adds what an encoded word spells. In UTF-8 it goes on with the run.
fn push_word(alloc: Global, spans: &mut Spans, word: &Word) -> Result<(), AllocError>
    ensures { OnOk result (Gathers spans.old spans.new (words.span_of (coded_of word.now) ∷ [])) }
{
    match word.charset {
        Charset::Utf8 => spans.run.extend_from_slice(word.octets.as_slice()),
        Charset::Ascii | Charset::Latin1 | Charset::Unknown => {
            let text = word_text(alloc, word.charset, word.octets.as_slice())?;
            push_text(alloc, spans, text.as_slice())
        }
    }
}

/// Ends the run, and adds a text.
fn push_text(alloc: Global, spans: &mut Spans, text: &[u8]) -> Result<(), AllocError>
    ensures gathers { OnOk result (Gathers spans.old spans.new (words.Text text.now ∷ [])) }
    ensures ended { OnOk result (spans.new.run.items ≡ []) }
{
    let before = word_text(alloc, Charset::Utf8, spans.run.as_slice())?;
    spans.text.extend_from_slice(before.as_slice())?;
    spans.text.extend_from_slice(text)?;
    spans.run = Vec::new(alloc);
    Ok(())
}

/// The text of encoded words, without control characters.
fn word_text(alloc: Global, charset: Charset, octets: &[u8]) -> Result<Vec<u8>, AllocError>
    ensures { IfOk result (λ v. v.items ≡ words.text_of_words charset octets.now) }
{
    let (text, _) = read_in(alloc, charset, octets)?;
    text.iter()
        .copied()
        .filter(|octet| !is_control(*octet))
        .collect(alloc)
}

/// Whether the octet is 0 to 31 or 127.
pub fn is_control(octet: u8) -> bool
    ensures { result ≡ words.is_control octet }
{
    octet < 32 || octet == 127
}
