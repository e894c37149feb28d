//! The fields of a header (RFC 5322), and the forms of their values as texts and as pieces in angle brackets.
#![tactic(auto)]

// Lines and fields.
pub mod blocks;
pub mod header;
pub mod lines;

// Forms.
pub mod bracketed;
pub mod raw_forms;
pub mod white_end;

// Laws.
pub mod laws;

pub use blocks::{fields, last_field};
pub use bracketed::{as_message_ids, as_urls};
pub use header::{Field, Fields};
pub use raw_forms::{as_raw, as_search_text, as_text};
