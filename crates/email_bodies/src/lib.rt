//! The bodies of Emails: where they come from, those that are kept, and why there may be none.
#![tactic(auto)]

mod cache;
mod error;
mod source;
#[cfg(test)]
mod tests;

pub use cache::{BodyCache, MAX_BODIES};
pub use error::BodyError;
pub use source::{BodySource, MessagePlace};
