//! What an item of a call that changes mail asks of the store step by step, and what it comes to (RFC 8620 section 5.3).
#![tactic(auto)]

mod done;
mod job;
mod step;

pub use done::{Done, SetError};
pub use job::Job;
pub use step::Step;
