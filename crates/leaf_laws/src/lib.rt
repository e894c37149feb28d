//! The parts of a draft are read back from its message (RFC 2046, RFC 2183). Definitions and laws alone.
#![tactic(auto)]

pub mod laws;
