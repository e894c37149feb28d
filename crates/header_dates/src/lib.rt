//! The date of a field (RFC 5322 sections 3.3 and 4.3).
#![tactic(auto)]

pub mod date;
pub(crate) mod dates;
pub mod laws;
pub mod moments;
pub mod pieces;
pub(crate) mod zones;

pub use date::{Clock, Day, Moment};
pub use dates::value_of_digits;
pub use moments::{as_date, moment_of};
