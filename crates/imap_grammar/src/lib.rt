//! A store's responses: where one ends, and what it says.
#![tactic(auto)]

// Where a response ends.
mod answer;
mod scanner;

// What it says.
mod codes;
mod decoder;
mod folders;
mod items;

pub use answer::Scan;
pub use decoder::{decode, no_spelling_within, one_value};
pub use imap_types::{Code, FetchItems, Response, Status, StatusItems, UidRange, UidSet};
pub use scanner::{Scanner, one_answer, scan};
