//! Methods that ask for the bodies of Emails (RFC 8621): Email/get and Email/parse, and the octets that a blob id names.
#![tactic(auto)]

// Octets.
mod blobs;

// Methods.
mod emails;
mod parsing;
mod refusals;

// Laws.
pub mod laws;

pub use blobs::find_blob;
pub use emails::{check_email_get, email_get};
pub use parsing::{check_email_parse, email_parse};
