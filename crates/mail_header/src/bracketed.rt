// Pieces in angle brackets: message ids (RFC 5322 section 3.6.4) and URLs (RFC 2369).
ghost use Rattle.std.specs.Prelude.{◌≡◌, ◌≢◌, ◌<◌, ℕ, List, [], ◌∷◌, ◌++◌, length, IfOk, MatchOption};
ghost use Rattle.text_words.specs.Cuts.{IsRun};
ghost use Rattle.mail_header.specs.Bracketed as brackets;
ghost use Rattle.mail_header.specs.reading.HeaderLines as reading;

use crate::raw_forms::as_raw;
use octets::{Bytes, Names};
use std::alloc::{AllocError, Global};
use text_words::{Class, behind, first, is_white, run_before};

/// The octets of a piece in angle brackets.
struct Inner;

impl Class<u8> for Inner {
    ghost test = { brackets.is_bracketed_octet };

    fn has(&self, item: &u8) -> bool {
        !(*item == b'<' || *item == b'>' || is_white(*item))
    }
}

/// The message ids of a raw value: every `<x>` where x isn't empty and has neither an angle bracket nor white space.
/// The rest is passed over. There is no reading where there are none.
pub fn as_message_ids(alloc: Global, raw: &[u8]) -> Result<Option<Names>, AllocError>
    ensures { IfOk result (λ r. brackets.IsNamesForm r raw.now) }
{
    let raw = as_raw(alloc, raw)?;
    Ok(some_names(pieces(alloc, raw.as_slice())?))
}

/// The URLs of a raw value (RFC 2369): the pieces in angle brackets, as those of `as_message_ids`.
pub fn as_urls(alloc: Global, raw: &[u8]) -> Result<Option<Names>, AllocError>
    ensures { IfOk result (λ r. brackets.IsNamesForm r raw.now) }
{
    as_message_ids(alloc, raw)
}

/// The names, where there are some.
fn some_names(names: Names) -> Option<Names>
    ensures { MatchOption result (names ≡ []) (λ n. (n ≢ []) × (n ≡ names)) }
{
    if names.is_empty() {
        return None;
    }
    Some(names)
}

/// The pieces in angle brackets.
fn pieces(alloc: Global, text: &[u8]) -> Result<Names, AllocError>
    ensures { IfOk result (λ n. brackets.HasPieces n text.now) }
{
    let mut names = Names::new(alloc);
    let mut rest = text;
    while !rest.is_empty() {
        rest = push_piece(alloc, &mut names, rest)?;
    }
    Ok(names)
}

/// Adds the piece at the front, or passes over an octet that begins none. Gives what follows.
fn push_piece<'a>(alloc: Global, names: &mut Names, text: &'a [u8]) -> Result<&'a [u8], AllocError>
    requires { 0 < length text.now }
    ensures { IfOk result (λ r. reading.TakesBlock text.now r.now names.old names.new) }
{
    match piece_at(text) {
        Some((piece, rest)) => {
            names.push(Bytes::copy_of(alloc, piece)?)?;
            Ok(rest)
        }
        None => match first(text) {
            None => unreachable!(),
            Some((_, rest)) => Ok(rest),
        },
    }
}

/// What stands in angle brackets at the front, and what follows them.
fn piece_at(text: &[u8]) -> Option<(&[u8], &[u8])>
    ensures { MatchOption result
        ((x y : List ℕ) → IsRun brackets.is_bracketed_octet x → text.now ≢ 60 ∷ (x ++ 62 ∷ y))
        (λ r. IsRun brackets.is_bracketed_octet r.0.now × (text.now ≡ 60 ∷ (r.0.now ++ 62 ∷ r.1.now))) }
{
    let inner = behind(b'<', text)?;
    run_before(&Inner, b'>', inner)
}
