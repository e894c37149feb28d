// Phrases.
ghost use Rattle.std.specs.Prelude.{◌≡◌, false, IfOk, OnOk, ◌++◌, ◌∷◌, [], if◌then◌else◌, option_map};
ghost use Rattle.search_words.specs.SearchTexts as texts;
ghost use Rattle.search_words.specs.reading.Parts as parts;

use std::alloc::{AllocError, Global};
use text_words::{first, is_white};

/// Whether the octet opens a phrase.
pub(crate) fn is_mark(octet: u8) -> bool
    ensures { result ≡ texts.is_mark octet }
{
    octet == b'"' || octet == b'\''
}

/// Whether a backslash quotes the octet within a phrase.
fn is_special(octet: u8) -> bool
    ensures { result ≡ texts.is_special octet }
{
    is_mark(octet) || octet == b'\\'
}

/// Whether the text is empty or begins with white space.
fn at_edge(text: &[u8]) -> bool
    ensures { result ≡ texts.at_edge text.now }
{
    match text {
        [] => true,
        [first, ..] => is_white(*first),
    }
}

/// A phrase, and what follows its mark.
#[derive(Drop)]
pub(crate) struct Phrase<'a> {
    pub(crate) octets: Vec<u8>,
    pub(crate) rest: &'a [u8],
}

/// Adds an octet that stands behind a backslash: one that isn't special leaves the backslash there.
fn push_quoted(octets: &mut Vec<u8>, octet: u8) -> Result<(), AllocError>
    ensures { OnOk result (octets.new.items ≡ octets.old.items ++ (if texts.is_special octet then octet ∷ [] else 92 ∷ octet ∷ [])) }
{
    if !is_special(octet) {
        octets.push(b'\\')?;
    }
    octets.push(octet)?;
    Ok(())
}

/// Whether the octet, behind which this stands, closes a phrase that the mark opened.
fn closes(mark: u8, octet: u8, rest: &[u8]) -> bool
    ensures { result ≡ texts.closes mark octet rest.now }
{
    octet == mark && at_edge(rest)
}

/// The phrase that a mark before the text opens, and what follows it. None where nothing closes it.
pub(crate) fn phrase_at(
    alloc: Global,
    mark: u8,
    text: &[u8],
) -> Result<Option<Phrase<'_>>, AllocError>
    ensures { IfOk result (λ o. option_map (λ p. (p.octets.items, p.rest.now)) o ≡ parts.phrase_from mark false text.now) }
{
    let mut octets = Vec::new(alloc);
    let mut quoting = false;
    let mut left = text;
    while let Some((octet, rest)) = first(left) {
        if quoting {
            push_quoted(&mut octets, octet)?;
            quoting = false;
        } else if closes(mark, octet, rest) {
            return Ok(Some(Phrase { octets, rest }));
        } else if octet == b'\\' {
            quoting = true;
        } else {
            octets.push(octet)?;
        }
        left = rest;
    }
    Ok(None)
}
