//! The rows of Emails: which remain as the mail changes, which come, in what order, and in which Threads.
#![tactic(auto)]

// Rows, and the indexes beside them.
mod indexes;
mod shown;

// What a step does.
mod arrivals;
mod remaining;
mod touches;

// All of them.
mod emails;

// Laws.
pub mod laws;

pub use emails::Emails;
