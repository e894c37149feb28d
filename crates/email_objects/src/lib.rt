//! Emails as JSON objects with the properties that are asked: those of an Email/get and of an Email/parse (RFC 8621 sections 4.2 and 4.9),
//! and the object that `show` writes.
#![tactic(auto)]

// What is known of an Email.
mod facts;
mod header_needs;

// Properties.
mod metadata;
mod properties;

// Objects.
mod bodies;
mod objects;
mod shown;

// Laws.
pub mod laws;

pub use metadata::keywords;
pub use objects::{email_value, parsed_value};
pub use shown::email_object;
