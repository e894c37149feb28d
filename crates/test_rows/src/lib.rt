//! What the programs of stored rows share: they read rows from standard input, do what each says, and print what comes of it.
#![tactic(auto)]

// Rows one after another.
mod answers;

// Words, numbers and octets of a row.
mod texts;

pub use answers::{TestRows, answer_rows};
pub use texts::{first_number, first_uid, first_word, octets_of, put_octets};
