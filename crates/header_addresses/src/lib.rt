//! The addresses and groups of a field (RFC 5322 section 3.4, with the obsolete forms of section 4.4).
#![tactic(auto)]

pub mod address;
pub mod address_lists;
pub(crate) mod elements;
pub mod laws;
pub(crate) mod mailboxes;
pub(crate) mod names;
pub mod parts;
pub(crate) mod token_class;

pub use address::{Address, Group};
pub use address_lists::{as_addresses, as_groups};
pub use parts::{behind_head, name_of_phrase, one_address};
