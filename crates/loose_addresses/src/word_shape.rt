// The shape of encoded words (RFC 2047 section 2).
ghost use Rattle.std.specs.Prelude.{◌≡◌, ◌≢◌, ℕ, List, ◌∷◌, ◌++◌, MatchOption};
ghost use Rattle.header_words.specs.EncodedWords.{is_encoded};
ghost use Rattle.loose_addresses.specs.Lumps as lumps;
ghost use Rattle.loose_addresses.specs.reading.ShapeSteps as reading;

use text_words::{Class, behind, cut};

/// The octets of a part of an encoded word.
struct Encoded;

impl Class<u8> for Encoded {
    ghost test = { is_encoded };

    fn has(&self, item: &u8) -> bool {
        b'!' <= *item && *item <= b'~' && *item != b'?'
    }
}

/// What follows a part at the front and the `?` that ends it.
fn behind_part(text: &[u8]) -> Option<&[u8]>
    ensures { MatchOption result ((r : List ℕ) → reading.HasPart r text.now → ⊥) (λ r. reading.HasPart r.now text.now) }
{
    behind(b'?', cut(&Encoded, text).1)
}

/// What follows two parts.
fn behind_two(text: &[u8]) -> Option<&[u8]>
    ensures { MatchOption result ((r : List ℕ) → reading.HasTwo r text.now → ⊥) (λ r. reading.HasTwo r.now text.now) }
{
    match behind_part(text) {
        None => None,
        Some(rest) => behind_part(rest),
    }
}

/// What follows three.
fn behind_three(text: &[u8]) -> Option<&[u8]>
    ensures { MatchOption result ((r : List ℕ) → reading.HasThree r text.now → ⊥) (λ r. reading.HasThree r.now text.now) }
{
    match behind_two(text) {
        None => None,
        Some(rest) => behind_part(rest),
    }
}

/// What follows three, and the `=` that ends the word.
fn behind_end(text: &[u8]) -> Option<&[u8]>
    ensures { MatchOption result ((r : List ℕ) → reading.HasEnd r text.now → ⊥) (λ r. reading.HasEnd r.now text.now) }
{
    match behind_three(text) {
        None => None,
        Some(rest) => behind(b'=', rest),
    }
}

/// What follows `=?` at the front.
fn behind_start(text: &[u8]) -> Option<&[u8]>
    ensures { MatchOption result ((r : List ℕ) → text.now ≢ 61 ∷ 63 ∷ r) (λ r. text.now ≡ 61 ∷ 63 ∷ r.now) }
{
    match behind(b'=', text) {
        None => None,
        Some(rest) => behind(b'?', rest),
    }
}

/// What follows the shape of an encoded word at the front.
fn behind_word(text: &[u8]) -> Option<&[u8]>
    ensures { MatchOption result ((r : List ℕ) → reading.HasWord r text.now → ⊥) (λ r. reading.HasWord r.now text.now) }
{
    match behind_start(text) {
        None => None,
        Some(inner) => behind_end(inner),
    }
}

/// The shape of an encoded word at the front, and what follows it.
pub(crate) fn word_at(text: &[u8]) -> Option<(&[u8], &[u8])>
    ensures { MatchOption result
        ((x y : List ℕ) → lumps.IsWordShape x → text.now ≢ x ++ y)
        (λ r. lumps.IsWordShape r.0.now × (text.now ≡ r.0.now ++ r.1.now)) }
{
    match behind_word(text) {
        None => None,
        Some(rest) => Some(text.split_at(text.len() - rest.len())),
    }
}
