//! Octets, texts and lists with an owner, which contracts see as lists.
#![tactic(auto)]

mod bytes;
mod listed;
mod names;
mod text;

pub use bytes::Bytes;
pub use listed::Listed;
pub use names::Names;
pub use text::Text;
