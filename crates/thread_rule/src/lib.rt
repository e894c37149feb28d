//! How replies come into one conversation: the base subject of an Email, and the Thread of a new one.
#![tactic(auto)]

// The base subject.
mod base;
mod subject;

// Emails by what they name.
mod ids;
mod member;

// The book.
mod book;
mod entries;
mod index;
mod joining;
mod key;
mod search;

pub use base::{base_of, base_subject};
pub use book::ThreadBook;
pub use ids::{Ids, next_id, push_id};
pub use member::{Member, Named};
