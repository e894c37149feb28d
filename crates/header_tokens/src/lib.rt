//! The tokens of a field's value (RFC 5322 section 3.2, RFC 2045 section 5.1).
#![tactic(auto)]

// Tokens.
pub mod kinds;
pub mod token;
pub mod tokens;

// Brackets that are closed.
pub mod closings;

// Lexemes, and what words spell.
pub mod lexemes;
pub mod words;

// Laws.
pub mod laws;

pub use kinds::{first_octet, has_mark, is_atom, is_gap, is_word};
pub use lexemes::{is_row, next_lexeme};
pub use token::{Alphabet, Kind, Token};
pub use words::{bracketed_text, unquoted, word_text};
