//! The words and phrases of a text that is searched for (RFC 8621 section 4.4.1).
#![tactic(auto)]

// Phrases, and the words of a text.
mod phrases;
mod words;

// Laws.
pub mod laws;

pub use words::{MAX_SEARCH_WORDS, search_words};
