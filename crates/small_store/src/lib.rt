//! A store in memory that answers as the standard says (RFC 9051, RFC 7162), for tests and for trying the gateway out.
#![tactic(auto)]

// What it tells.
mod answer;
mod fetches;
mod told;

// What it does to the messages of a folder.
mod messages;

// What it holds and does: its folders, when it refuses, and what its owner does.
mod machine;
mod owner;
mod refusals;
mod selecting;

// The store as its users have it.
mod store_machine;

pub use answer::Answer;
pub use store_machine::StoreMachine;
