//! Result references (RFC 8620 section 3.7): arguments of method calls in which they stand for values of earlier responses.
#![tactic(auto)]

mod call;

// Where paths lead.
mod path;
mod pointer;
mod walks;

// References, and the limit of what they come to.
mod counted_octets;
mod limit;
mod references;
mod sources;

pub use call::Call;
pub use counted_octets::MAX_RESOLVED_OCTETS;
pub use path::unescaped;
pub use references::resolve;
