//! The items of a call that changes mail, one after another in what is left of its request's link life (RFC 8620 section 5.3).
#![tactic(auto)]

mod call;
mod items;
mod laws;

pub use call::{Call, CallEnd};
pub use items::{run_items, take_known};
pub use laws::{calls_end_by_their_causes, no_append_is_repeated};
