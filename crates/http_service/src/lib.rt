//! HTTP/1.x at a server's edge (RFC 9112): heads of requests, bodies, and responses.
#![tactic(auto)]

// Octets and lines that are read.
mod error;
mod filling;
mod line_reading;
mod lines;

// Heads.
mod cut_target;
mod fields;
mod head;
mod target;

// Bodies.
mod body;
mod chunk_lines;
mod chunks;

// Responses.
mod media;
mod refusal;
mod response;
mod response_text;

// Laws.
pub mod laws;

pub use body::read_body;
pub use chunks::{FREE_LINE_OCTETS, MAX_EXCESS_OCTETS};
pub use error::HttpError;
pub use gate_world::Unread as Spare;
pub use head::{BodyKind, Head};
pub use line_reading::read_head;
pub use lines::MAX_HEAD_OCTETS;
pub use media::MediaType;
pub use refusal::{Refusal, refusal_head};
pub use response::write_response;
pub use response_text::response_head;
