//! The items of an Email/set or a Mailbox/set in order, and what creation ids stand for (RFC 8620 section 5.3).
#![tactic(auto)]

mod creations;
mod item;
mod laws;
mod order;
mod pending;

pub use creations::{creation_in, id_named};
pub use item::Item;
pub use laws::items_have_one_order;
pub use order::{creation_ids, ordered_items};
