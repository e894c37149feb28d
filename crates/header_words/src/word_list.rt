// Texts written as encoded words (RFC 2047 sections 2 and 5).
ghost use Rattle.std.specs.Prelude.{◌≡◌, ◌<◌, ◌++◌, length, string_bytes, IfOk, OnOk};
ghost use Rattle.header_words.specs.WordList.{utf8_word, IsLongestPiece, IsWritten};

use base64::engine::general_purpose::STANDARD;
use std::alloc::{AllocError, Global};

/// The most octets that a word of 75 octets spells: "=?utf-8?B?" and "?=" leave room for 15 groups of base64.
const MAX_PIECE_OCTETS: usize = 45;

/// The text as encoded words in utf-8 and "B" (RFC 2047), with CR LF and a space between two. Each has at most 75
/// octets and whole characters, as many as fit. The empty text gives no octet. A line has only one word, so whoever
/// writes text before the first word folds there too where the line would pass 76 octets.
pub fn encode_words(alloc: Global, text: &str) -> Result<Vec<u8>, AllocError>
    ensures { IfOk result (λ v. IsWritten text.now v.items) }
{
    let mut words = String::new(alloc);
    if text.is_empty() {
        return Ok(words.into_bytes());
    }
    let (piece, mut rest) = longest_piece(text);
    push_word(&mut words, piece)?;
    while !rest.is_empty() {
        let (piece, behind) = longest_piece(rest);
        words.push_str("\r\n ")?;
        push_word(&mut words, piece)?;
        rest = behind;
    }
    Ok(words.into_bytes())
}

/// The longest piece at the front whose word isn't too long, and what follows it.
fn longest_piece(text: &str) -> (&str, &str)
    ensures longest { IsLongestPiece result.0.now result.1.now text.now }
    ensures shorter { 0 < length text.now → length result.1.now < length text.now }
{
    let len = text.floor_char_boundary(MAX_PIECE_OCTETS);
    text.split_at(len)
}

/// Adds the encoded word of a piece.
fn push_word(words: &mut String, piece: &str) -> Result<(), AllocError>
    ensures { OnOk result (string_bytes words.new ≡ string_bytes words.old ++ utf8_word piece.now) }
{
    words.push_str("=?utf-8?B?")?;
    STANDARD.encode_string(piece.as_bytes(), words)?;
    words.push_str("?=")?;
    Ok(())
}
