//! What methods share of each type that is served: its numbers, its state, and the names of Mailboxes' roles.
#![tactic(auto)]

mod roles;
mod types;

pub use roles::role_text;
pub use types::{TypeNumbers, type_text};
