//! What Email/set, Mailbox/set and Email/import ask, or the refusal by their arguments (RFC 8620 section 5.3, RFC 8621 sections 2.5, 4.6
//! and 4.8).
#![tactic(auto)]

mod arguments;
mod asked;
mod set_method;

pub use arguments::{MAX_OBJECTS_IN_SET, set_asked};
pub use asked::{Keyed, SetAsked};
pub use set_method::SetMethod;
