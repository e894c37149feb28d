//! The words by which a reader of a store's responses decides, fixed texts, counts of literals, and classes of octets.
#![tactic(auto)]

mod class;
mod count;
mod key;
mod phrase;

pub use class::{CR, LF, is_alnum, is_atom, is_digit, is_status_word, is_text, is_word, lower};
pub use count::{COUNT_DIGITS, MAX_LITERAL_OCTETS, Pending, pend};
pub use key::{Key, WordPlace, first_key, in_word, key_text, next_key, whole_key};
pub use phrase::{Phrase, phrase_text};
