//! Reads the parts of IMAP commands as a store gets them (RFC 9051 sections 4.3 and 9): tags, fixed texts, numbers, names, literals,
//! flags and dates. Each reader takes the octets from its place on, and gives a value and the octets that follow.
#![tactic(auto)]

// How parts are read.
mod fixed_text;
mod follow;
mod lexeme;
mod no_command;

// Parts.
mod date;
mod flags;
mod literal;
mod numeral;
mod string;
mod tag;

pub use date::read_date;
pub use fixed_text::{Choice, FixedText, read_choice, read_fixed};
pub use flags::read_flags;
pub use follow::Follow;
pub use literal::read_literal;
pub use no_command::NoCommand;
pub use numeral::{read_number, read_numeral};
pub use string::{Credential, read_credential, read_last_name, read_name};
pub use tag::read_tag;
