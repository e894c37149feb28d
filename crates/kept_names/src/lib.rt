//! Flags of messages and attributes of folders in kept form, and what commands make of them.
#![tactic(auto)]

mod laws;
mod names;

pub use laws::changes_stay_kept;
pub use names::{flags_after, kept, subscribed, without};
