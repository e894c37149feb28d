//! The mail of a store in memory: messages, folders, and the changes that each takes (RFC 9051 section 2.3).
#![tactic(auto)]

// Names, flags and headers.
pub mod flags;
pub mod headers;
pub mod names;

// What is held.
mod folder;
mod mail;
mod message;
mod renames;
mod uses;

pub use folder::StoredFolder;
pub use mail::StoredMail;
pub use message::{StoredMessage, StoredUid};
