// Previews of texts (RFC 8621 section 4.1.4).
ghost use Rattle.std.specs.Prelude.{◌≡◌, ◌++◌, ◌∷◌, ℕ, List, IfOk, MatchOption, option_to_list};
ghost use Rattle.serde_json.specs.View.{view};
ghost use Rattle.mime_tree.specs.Parts.{IsWithin};
ghost use Rattle.body_parts.specs.BodyProperties.{IsPreviewData};
ghost use Rattle.body_parts.specs.Previews as previews;
ghost use Rattle.body_parts.specs.reading.LeafLists.{parts_of, parts_at, AreAllWithin, IsFirstPlain, NoPlain};

use crate::cuts::is_inner;
use crate::leaves::leaf_at;
use crate::texts::text_of;
use json_texts::owned_text_value;
use mime_tree::{Part, is_plain};
use serde_json::Value;
use std::alloc::{AllocError, Global};
use text_words::{White, cut, is_white};

/// How many characters a preview has at most.
pub const MAX_PREVIEW_CHARACTERS: usize = 256;

/// What an octet is in a preview, where `more` follows it: white space is a space where a word follows.
fn spaced(octet: u8, more: &[u8]) -> Option<u8>
    ensures { option_to_list result ≡ previews.spaced octet more.now }
{
    if !is_white(octet) {
        Some(octet)
    } else if begins_word(more) {
        Some(b' ')
    } else {
        None
    }
}

/// Whether an octet follows that isn't white space.
fn begins_word(text: &[u8]) -> bool
    ensures { result ≡ previews.begins_word text.now }
{
    match text {
        [] => false,
        [first, ..] => !is_white(*first),
    }
}

/// Adds an octet to a preview to which n characters may still be added, and says how many may be added after it;
/// none where the preview is full.
#[tactic(auto, unfolding(crate::specs::Previews::first_characters))]
fn push_octet(preview: &mut Vec<u8>, left: usize, octet: u8) -> Result<Option<usize>, AllocError>
    ensures { IfOk result (λ o. (t : List ℕ) → MatchOption o
        (preview.new.items ≡ preview.old.items ++ previews.first_characters left (octet ∷ t))
        (λ n. preview.new.items ++ previews.first_characters n t ≡ preview.old.items ++ previews.first_characters left (octet ∷ t))) }
{
    if is_inner(octet) {
        preview.push(octet)?;
        return Ok(Some(left));
    }
    if left == 0 {
        return Ok(None);
    }
    preview.push(octet)?;
    Ok(Some(left - 1))
}

/// The preview of a text: its words with one space between two, up to `MAX_PREVIEW_CHARACTERS` characters. No more of
/// the text is read.
#[tactic(auto, unfolding(crate::specs::Previews::single_spaced, crate::specs::Previews::first_characters))]
fn preview_of(alloc: Global, text: &[u8]) -> Result<Vec<u8>, AllocError>
    ensures { IfOk result (λ p. p.items ≡ previews.preview_of text.now) }
{
    let (_, words) = cut(&White, text);
    let mut preview = Vec::new(alloc);
    let mut left = MAX_PREVIEW_CHARACTERS;
    let mut rest = words;
    while let [first, more @ ..] = rest {
        match spaced(*first, more) {
            None => {}
            Some(octet) => match push_octet(&mut preview, left, octet)? {
                None => return Ok(preview),
                Some(fewer) => left = fewer,
            },
        }
        rest = more;
    }
    Ok(preview)
}

/// The first plain text among the leaves of these numbers.
fn first_plain<'a>(leaves: &[&'a Part], numbers: &[u64]) -> Option<&'a Part>
    ensures { MatchOption result (NoPlain (parts_of leaves.now) numbers.now) (λ p. IsFirstPlain (parts_of leaves.now) numbers.now p.now) }
{
    for number in numbers {
        match leaf_at(leaves, *number) {
            None => {}
            Some(part) => {
                if is_plain(part) {
                    return Some(part);
                }
            }
        }
    }
    None
}

/// The preview of a plain text of these octets.
fn part_preview(alloc: Global, octets: &[u8], part: &Part) -> Result<Vec<u8>, AllocError>
    requires { IsWithin part.now octets.now }
    ensures { IfOk result (λ p. previews.IsPreviewOf octets.now part.now p.items) }
{
    let text = text_of(alloc, octets, part)?;
    preview_of(alloc, text.text.as_slice())
}

/// The preview of the first plain text among the leaves of these numbers, which is empty without one.
pub(crate) fn preview_value(
    alloc: Global,
    octets: &[u8],
    leaves: &[&Part],
    numbers: &[u64],
) -> Result<Value, AllocError>
    requires { AreAllWithin octets.now (parts_of leaves.now) }
    ensures { IfOk result (λ v. IsPreviewData octets.now (parts_at (parts_of leaves.now) numbers.now) (view v)) }
{
    let preview = match first_plain(leaves, numbers) {
        None => Vec::new(alloc),
        Some(part) => part_preview(alloc, octets, part)?,
    };
    owned_text_value(alloc, preview)
}
