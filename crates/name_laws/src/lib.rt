//! No name that is told of an address, a group or a part has a control character (RFC 8621 section 4.1.2.3). Definitions and laws
//! alone.
#![tactic(auto)]

pub mod laws;
