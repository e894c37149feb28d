//! A server's door for HTTP: what a client asks, read whole, and the responses that it is sent.
#![tactic(auto)]

mod ask;
mod asking;
mod media;
mod response;

pub use ask::{MAX_REQUEST_OCTETS, ask_over_http};
pub use asking::{AskError, HttpAsking};
pub use media::{download_media, json_media, problem_media};
pub use response::HttpResponse;
