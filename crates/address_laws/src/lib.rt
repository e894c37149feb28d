//! The mailboxes of a draft are read back from its message (RFC 5322 section 3.4). Definitions and laws alone.
#![tactic(auto)]

pub mod laws;
