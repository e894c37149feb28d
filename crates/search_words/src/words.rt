// The words and phrases of search texts.
ghost use Rattle.std.specs.Prelude.{◌≡◌, ◌≤◌, ◌++◌, ◌∷◌, [], true, false, IfOk, MatchBool, OnOk, None, length};
ghost use Rattle.text_words.specs.Cuts.{back, front};
ghost use Rattle.search_words.specs.SearchTexts as texts;
ghost use Rattle.search_words.specs.SearchWords as spec;
ghost use Rattle.search_words.specs.reading.OpenMarks as marks;
ghost use Rattle.search_words.specs.reading.OpenMarks.{AreOpen};
ghost use Rattle.search_words.specs.reading.Parts as parts;

use crate::phrases::{is_mark, phrase_at};
use octets::{Bytes, Names};
use std::alloc::{AllocError, Global};
use text_words::{Class, cut, first, is_white};

/// The most words and phrases that a text asks for.
pub const MAX_SEARCH_WORDS: usize = 100;

/// An octet of a word.
struct InWord;

impl Class<u8> for InWord {
    ghost use Rattle.search_words.specs.SearchTexts.{is_in_word};

    ghost test = { is_in_word };

    fn has(&self, item: &u8) -> bool {
        !is_white(*item)
    }
}

/// The marks that nothing closes in what is left of a text, as far as that was found: so each octet is looked at a few times at most,
/// however many marks are open.
#[derive(Clone, Copy)]
struct OpenMarks {
    quotation_mark: bool,
    apostrophe: bool,
}

fn is_open(unclosed: &OpenMarks, mark: u8) -> bool
    ensures { result ≡ marks.is_open unclosed.now mark }
{
    if mark == b'"' {
        unclosed.quotation_mark
    } else {
        unclosed.apostrophe
    }
}

/// Notes that nothing closes the mark in what is left.
fn note_open(unclosed: &mut OpenMarks, mark: u8, left: &[u8])
    requires mark { texts.is_mark mark ≡ true }
    requires known { AreOpen unclosed.old left.now }
    requires none { parts.phrase_from mark false left.now ≡ None }
    ensures { AreOpen unclosed.new left.now }
{
    if mark == b'"' {
        unclosed.quotation_mark = true;
    } else {
        unclosed.apostrophe = true;
    }
}

/// A word or a phrase, which is empty where nothing is asked, and what follows it.
#[derive(Drop)]
struct Part<'a> {
    word: Vec<u8>,
    rest: &'a [u8],
}

/// The phrase that a mark before the text opens; nothing where it stays open.
fn phrase_part<'a>(
    alloc: Global,
    mark: u8,
    behind: &'a [u8],
    unclosed: &mut OpenMarks,
) -> Result<Part<'a>, AllocError>
    requires mark { texts.is_mark mark ≡ true }
    requires known { AreOpen unclosed.old behind.now }
    ensures part { IfOk result (λ p. parts.phrase_or_nothing (parts.phrase_from mark false behind.now) behind.now ≡ (p.word.items, p.rest.now)) }
    ensures known { IfOk result (λ p. AreOpen unclosed.new p.rest.now) }
{
    if is_open(unclosed, mark) {
        let word = Vec::new(alloc);
        return Ok(Part { word, rest: behind });
    }
    match phrase_at(alloc, mark, behind)? {
        None => {
            note_open(unclosed, mark, behind);
            let word = Vec::new(alloc);
            Ok(Part { word, rest: behind })
        }
        Some(phrase) => Ok(Part {
            word: phrase.octets,
            rest: phrase.rest,
        }),
    }
}

/// The word that begins with the octet.
fn word_part(alloc: Global, octet: u8, behind: &[u8]) -> Result<Part<'_>, AllocError>
    ensures { IfOk result (λ p. (p.word.items ≡ octet ∷ front texts.is_in_word behind.now) × (p.rest.now ≡ back texts.is_in_word behind.now)) }
{
    let (more, rest) = cut(&InWord, behind);
    let mut word = Vec::with_capacity(alloc, more.len() + 1)?;
    word.push(octet)?;
    word.extend_from_slice(more)?;
    Ok(Part { word, rest })
}

/// The part of a text that begins with the octet.
fn part_at<'a>(
    alloc: Global,
    octet: u8,
    behind: &'a [u8],
    unclosed: &mut OpenMarks,
) -> Result<Part<'a>, AllocError>
    requires { AreOpen unclosed.old (octet ∷ behind.now) }
    ensures part { IfOk result (λ p. parts.part_at octet behind.now ≡ (p.word.items, p.rest.now)) }
    ensures known { IfOk result (λ p. AreOpen unclosed.new p.rest.now) }
{
    if is_white(octet) {
        let word = Vec::new(alloc);
        return Ok(Part { word, rest: behind });
    }
    if is_mark(octet) {
        return phrase_part(alloc, octet, behind, unclosed);
    }
    word_part(alloc, octet, behind)
}

/// Adds a word, unless it is empty. False where there are as many as may be already.
fn add_word(words: &mut Names, word: Vec<u8>) -> Result<bool, AllocError>
    ensures added { IfOk result (λ added. MatchBool added (words.new ≡ words.old ++ parts.with_word word.items [])
        ((length words.old ≡ MAX_SEARCH_WORDS) × (1 ≤ length (parts.with_word word.items [])))) }
    ensures few { length words.old ≤ MAX_SEARCH_WORDS → OnOk result (length words.new ≤ MAX_SEARCH_WORDS) }
{
    if word.is_empty() {
        return Ok(true);
    }
    if words.len() == MAX_SEARCH_WORDS {
        return Ok(false);
    }
    let word = Bytes::from_vec(word)?;
    words.push(word)?;
    Ok(true)
}

/// The words and phrases that a text asks for (RFC 8621 section 4.4.1). None where they are more than `MAX_SEARCH_WORDS`.
pub fn search_words(alloc: Global, text: &[u8]) -> Result<Option<Names>, AllocError>
    ensures { IfOk result (λ words. words ≡ spec.words_asked text.now) }
{
    let mut words = Names::new(alloc);
    let mut unclosed = OpenMarks {
        quotation_mark: false,
        apostrophe: false,
    };
    let mut left = text;
    while let Some((octet, behind)) = first(left) {
        let part = part_at(alloc, octet, behind, &mut unclosed)?;
        left = part.rest;
        if !add_word(&mut words, part.word)? {
            return Ok(None);
        }
    }
    Ok(Some(words))
}
