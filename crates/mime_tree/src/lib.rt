//! The tree of parts that the octets of a message are (RFC 2045, RFC 2046).
#![tactic(auto)]

// Parts and their tree.
pub mod head;
pub mod part;
mod shared;
pub mod split;
pub mod tree;

// What a part spells, and the body lists.
pub mod body;
mod list_walk;
mod lists;
mod roles;

// Laws.
pub mod laws;

pub use body::{part_bytes, part_len};
pub use lists::{BodyLists, body_lists};
pub use part::Part;
pub use roles::is_plain;
pub use tree::parse;
