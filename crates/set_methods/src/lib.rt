//! What an item of Email/set and of Mailbox/set has to pass (RFC 8621 sections 2.5 and 4.6).
#![tactic(auto)]

mod checks;
mod emails;
mod mailboxes;

pub use checks::{Passed, SetChecks, make};
