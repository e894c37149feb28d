//! The addresses and groups of a field, also where it is no list of them by the grammar of RFC 5322: as far as they read
//! (RFC 8621 sections 4.1.2.3 and 4.1.2.4).
#![tactic(auto)]

// Lumps, and the elements that they make.
pub(crate) mod elements;
pub(crate) mod lumps;
pub(crate) mod word_shape;

// What each element reads as.
pub(crate) mod angles;
pub(crate) mod bare;
pub(crate) mod element;
pub(crate) mod outside;
pub(crate) mod torn;

// What they say together.
pub mod forms;

// Laws.
pub mod laws;

pub use forms::{as_loose_addresses, as_loose_groups};
