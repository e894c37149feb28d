// What quoted texts and words spell.
ghost use Rattle.std.specs.Prelude.{◌≡◌, false, IfOk};
ghost use Rattle.header_tokens.specs.Words as words;

use crate::token::{Kind, Token};
use mail_header::raw_forms::unfold;
use std::alloc::{AllocError, Global};

/// What stands between the first octet and the last.
fn inside(text: &[u8]) -> &[u8]
    ensures { result.now ≡ words.inside text.now }
{
    match text {
        [] => text,
        [_first, rest @ ..] => rest.split_at(rest.len().saturating_sub(1)).0,
    }
}

/// The text with each backslash replaced by the octet after it.
fn unescaped(alloc: Global, text: &[u8]) -> Result<Vec<u8>, AllocError>
    ensures { IfOk result (λ v. v.items ≡ words.unescaped false text.now) }
{
    let mut kept = Vec::new(alloc);
    let mut escaped = false;
    for octet in text {
        if !escaped && *octet == b'\\' {
            escaped = true;
        } else {
            kept.push(*octet)?;
            escaped = false;
        }
    }
    Ok(kept)
}

/// What a quoted text or a comment has, with its line ends.
pub fn bracketed_text(alloc: Global, text: &[u8]) -> Result<Vec<u8>, AllocError>
    ensures { IfOk result (λ v. v.items ≡ words.bracketed_text text.now) }
{
    unescaped(alloc, inside(text))
}

/// What a quoted text or a comment has, without line ends.
pub fn unquoted(alloc: Global, text: &[u8]) -> Result<Vec<u8>, AllocError>
    ensures { IfOk result (λ v. v.items ≡ words.unquoted text.now) }
{
    let plain = bracketed_text(alloc, text)?;
    unfold(alloc, plain.as_slice())
}

/// What a word spells, which is unquoted where it is a quoted text.
pub fn word_text(alloc: Global, word: &Token<'_>) -> Result<Vec<u8>, AllocError>
    ensures { IfOk result (λ v. v.items ≡ words.word_text word.now.kind word.now.text.now) }
{
    match word.kind {
        Kind::Quoted => unquoted(alloc, word.text),
        Kind::Atom | Kind::Space | Kind::Literal | Kind::Comment | Kind::Mark => {
            Vec::from_slice(alloc, word.text)
        }
    }
}
