//! Drafts as they are read of the properties of an Email that is to be created (RFC 8621 section 4.6).
#![tactic(auto)]

// Texts and values.
pub(crate) mod texts;
pub(crate) mod values;

// Addresses and parts.
pub(crate) mod attached;
pub(crate) mod attachments;
pub(crate) mod mailboxes;
pub(crate) mod named;
pub(crate) mod part;
pub(crate) mod parts;

// Properties, and the whole.
pub(crate) mod checks;
pub mod laws;
pub mod property;
pub mod reading;

pub use property::Property;
pub use reading::read_draft;
