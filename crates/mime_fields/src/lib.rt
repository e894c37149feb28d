//! What the header of a body part says: its media type, its name, its ids and its encoding (RFC 2045, RFC 2183).
#![tactic(auto)]

// Pieces and parameters of fields.
mod extended_value;
mod field_text;
mod parameters;
mod pieces;

// Fields.
mod content_id;
mod content_type;
mod disposition;

// What they say together.
pub mod header;

// Laws.
pub mod laws;

pub use header::{PartHeader, part_header};
pub use parameters::is_token;
