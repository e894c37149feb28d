//! A pushdown automaton that recognises the formal syntax of a store's responses octet by octet, in fixed memory.
#![tactic(auto)]

// Symbols.
mod sym;

// Their rules, from lines inwards.
mod date_rule;
mod folder_rule;
mod free_rule;
mod item_name_rule;
mod item_rule;
mod line_rule;
mod names_rule;
mod set_rule;
mod string_rule;
mod value_rule;
mod word_rule;

// The grammar.
mod grammar;
mod runs;

pub use grammar::MAX_RESPONSE_OCTETS;
pub use imap_keywords::{Key, Pending, Phrase, WordPlace};
pub use sym::{Date, Folder, Free, Item, ItemName, Line, Names, Set, Str, Sym, Value, Words};
