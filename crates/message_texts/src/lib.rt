//! The message of a draft (RFC 5322, RFC 2045, RFC 2046).
#![tactic(auto)]

// Fields.
pub(crate) mod addresses;
pub(crate) mod dates;
pub(crate) mod fields;

// Parts, and the whole.
pub(crate) mod leaves;
pub mod message;
pub(crate) mod parts;

pub use message::{MAX_MESSAGE_OCTETS, build};
