//! Fields of a header as values of JSON: in a form, and as properties of an Email or a body part (RFC 8621 sections 4.1.2 and 4.1.3).
#![tactic(auto)]

// Forms.
pub mod forms;
mod moment_text;
mod utc_dates;

// Fields by their names.
mod field_index;
pub mod named_fields;
mod raw_values;

// Properties.
pub mod conveniences;
pub mod properties;

// Laws.
pub mod laws;

pub use conveniences::convenience;
pub use forms::form_value;
pub use named_fields::{INDEXED_FROM, NamedFields};
pub use properties::{header_property, headers_value, last_value};
pub use utc_dates::utc_value;
