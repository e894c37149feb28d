//! Lines of messages as they are written: fields whose values are folded (RFC 5322), encoded words (RFC 2047) and bodies in base64
//! (RFC 2045).
#![tactic(auto)]

// What is written.
pub mod bodies;
pub mod folding;
pub(crate) mod leaf;
pub mod outline;

// Values of fields.
pub mod ids;
pub mod names;
pub mod subjects;
pub(crate) mod words;

pub use bodies::with_crlf;
pub use folding::{Line, begin_field, end_line, push_field, push_piece};
pub use ids::{bracketed, drawn_id, push_ids};
pub use names::push_name;
pub use outline::Outline;
pub use subjects::{has_word_mark, push_subject};
