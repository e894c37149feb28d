//! Names of Mailboxes: which can be given, which siblings have, and which a RENAME would give (RFC 8621 sections 2 and 2.5, RFC 9051 sections 5.1 and
//! 6.3.6).
#![tactic(auto)]

// What can be named so.
mod fit_names;
mod full_names;

// What is there, and what a RENAME gives.
mod renames;
mod siblings;

// Laws.
pub mod laws;

pub use fit_names::{MAX_NAME_OCTETS, can_be_named};
pub use full_names::full_name;
pub use renames::{clashes, is_within};
pub use siblings::{has_child, has_sibling, is_served_as, same_folder};
