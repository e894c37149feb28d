//! Each response of the small store may be sent: its text spells it (RFC 9051 section 9). Definitions and a law alone.
#![tactic(auto)]

pub mod laws;
