// Texts as encoded words (RFC 2047 sections 2 and 5).
ghost use Rattle.std.specs.Prelude.{◌≡◌, ◌≢◌, ◌++◌, ◌≤◌, ◌<◌, ◌-◌, [], length, string_bytes, IfOk, OnOk};
ghost use Rattle.header_words.specs.WordList.{utf8_word};
ghost use Rattle.message_lines.specs.Folding.{Lays};
ghost use Rattle.message_lines.specs.Words as words;

use crate::folding::{Line, push_piece};
use crate::outline::Outline;
use base64::engine::general_purpose::STANDARD;
use std::alloc::{AllocError, Global};

/// The most octets of a word in a line of its own, which begins with a space.
const MAX_WORD_OCTETS: usize = 75;

/// The octets of a word round its base64: "=?utf-8?B?" and "?=".
const MARK_OCTETS: usize = 12;

/// The longest piece at the front whose word has no more octets than there is room for, and what follows it. It is empty where no
/// character has room.
fn cut_within(text: &str, room: usize) -> (&str, &str)
    ensures { words.IsCut room result.0.now result.1.now text.now }
{
    let groups = room.saturating_sub(MARK_OCTETS) / 4;
    let len = text.floor_char_boundary(groups * 3);
    text.split_at(len)
}

/// The longest piece at the front whose word has room behind the line, or else in a line of its own, and what follows it.
fn next_piece(line: Line, text: &str) -> (&str, &str)
    requires { text.now ≢ [] }
    ensures { words.IsNextPiece line result.0.now result.1.now text.now }
{
    let (piece, behind) = cut_within(text, MAX_WORD_OCTETS.saturating_sub(line.width));
    if piece.is_empty() {
        cut_within(text, MAX_WORD_OCTETS)
    } else {
        (piece, behind)
    }
}

/// The encoded word of a piece.
fn encoded_word(alloc: Global, piece: &str) -> Result<String, AllocError>
    ensures { IfOk result (λ word. string_bytes word ≡ utf8_word piece.now) }
{
    let mut word = String::new(alloc);
    word.push_str("=?utf-8?B?")?;
    STANDARD.encode_string(piece.as_bytes(), &mut word)?;
    word.push_str("?=")?;
    Ok(word)
}

/// Adds a text as encoded words.
pub(crate) fn push_words(
    alloc: Global,
    text: &mut Outline,
    line: Line,
    value: &str,
) -> Result<Line, AllocError>
    ensures { IfOk result (Lays (words.AreWordsBehind line value.now) line text.old text.new) }
{
    let mut after = line;
    let mut rest = value;
    while !rest.is_empty() {
        let (piece, behind) = next_piece(after, rest);
        let word = encoded_word(alloc, piece)?;
        after = push_piece(text, after, word.as_bytes(), true)?;
        rest = behind;
    }
    Ok(after)
}
