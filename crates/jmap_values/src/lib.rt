//! Values that JMAP writes as texts: dates (RFC 8620 section 1.4), and keywords of Emails (RFC 8621 section 4.1.1).
#![tactic(auto)]

pub mod dates;
pub mod keywords;
pub(crate) mod zones;

pub use dates::{first_second_from, moment_of_date, utc_seconds};
pub use keywords::is_keyword;
