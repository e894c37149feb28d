//! The properties of an Email that its body gives, with what is asked of them (RFC 8621 section 4.1.4).
#![tactic(auto)]

// Messages and their leaves.
mod leaves;
pub mod message;

// Objects of parts.
mod languages;
mod own_headers;
mod part_objects;
mod part_values;

// Texts of parts.
mod body_values;
mod cuts;
mod previews;
mod texts;

// The properties.
mod body_properties;

// Laws.
pub mod laws;

pub use body_properties::put_body_properties;
pub use message::ParsedMessage;
