//! The formal syntax of what an IMAP store sends and is sent (RFC 9051 section 9): the values, and in `specs/` the
//! octets that spell them.
#![tactic(auto)]

mod code;
mod command;
mod response;
mod uid_set;

pub use code::Code;
pub use command::Command;
pub use response::{FetchItems, Response, Status, StatusItems};
pub use uid_set::{UidRange, UidSet};
