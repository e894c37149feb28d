//! Exchanges with a store that are made of texts: what is asked, and the octets that the store sends.
#![tactic(auto)]

mod commands;
mod exchanges;

pub use commands::{bytes_of, command_of};
pub use exchanges::{exchange_of, first_response};
