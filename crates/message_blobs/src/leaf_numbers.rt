// The numbers of leaves in a blob id.
ghost use Rattle.std.specs.Prelude.{◌≡◌, ◌≢◌, ◌<◌, ◌≤◌, ◌^◌, ◌∷◌, ◌++◌, ℕ, List, length, decimal, IfSome, MatchOption};
ghost use Rattle.text_words.specs.Sequence.{Sequence};
ghost use Rattle.message_blobs.specs.reading.NumberReading.{is_no_mark, IsNumberBefore};

use arrayvec::ArrayVec;
use jmap_arguments::read_id;
use std::str::from_utf8;
use text_words::{Class, behind, cut};

/// The most leaves that a blob id names, each within the one before.
pub const MAX_LEAVES: usize = 8;

/// What stands before the number of each leaf.
pub const LEAF_MARK: u8 = b'-';

/// The octets up to the mark of the next leaf.
pub(crate) struct BeforeMark;

impl Class<u8> for BeforeMark {
    ghost test = { is_no_mark };

    fn has(&self, item: &u8) -> bool {
        *item != LEAF_MARK
    }
}

/// The number that the text has in decimal behind the letter, without zeros at its front.
pub(crate) fn number_behind(letter: char, text: &[u8]) -> Option<u64>
    requires { letter < 128 }
    ensures { MatchOption result
        ((n : ℕ) → n < 2 ^ 64 → text.now ≢ letter ∷ decimal n)
        (λ n. text.now ≡ letter ∷ decimal n) }
{
    match from_utf8(text) {
        Ok(text) => read_id(letter, text),
        Err(_) => None,
    }
}

/// The number of a leaf at the front of a text, and what follows it.
fn number_at(text: &[u8]) -> Option<(u64, &[u8])>
    ensures number { MatchOption result
        ((n : ℕ) (x rest : List ℕ) → text.now ≡ x ++ rest → IsNumberBefore n x rest → ⊥)
        (λ r. (x : List ℕ) × (text.now ≡ x ++ r.1.now) × IsNumberBefore r.0 x r.1.now) }
    ensures shorter { IfSome result (λ r. length r.1.now < length text.now) }
{
    let digits = behind(LEAF_MARK, text)?;
    let (_, rest) = cut(&BeforeMark, digits);
    let (leaf, rest) = text.split_at(text.len() - rest.len());
    let number = number_behind(LEAF_MARK as char, leaf)?;
    if number == 0 {
        return None;
    }
    Some((number, rest))
}

/// The numbers of leaves that the text is, at most `MAX_LEAVES` of them.
pub(crate) fn numbers_in(text: &[u8]) -> Option<ArrayVec<u64, MAX_LEAVES>>
    ensures { MatchOption result
        ((numbers : List ℕ) → length numbers ≤ MAX_LEAVES → Sequence IsNumberBefore numbers text.now → ⊥)
        (λ v. Sequence IsNumberBefore v.items text.now × (length v.items ≤ MAX_LEAVES)) }
{
    let mut numbers = ArrayVec::new();
    let mut rest = text;
    while !rest.is_empty() {
        if numbers.is_full() {
            return None;
        }
        let (number, more) = number_at(rest)?;
        numbers.push(number);
        rest = more;
    }
    Some(numbers)
}
