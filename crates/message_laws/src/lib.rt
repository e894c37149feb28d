//! Laws of the messages that drafts are written as. Definitions and laws alone.
#![tactic(auto)]

pub mod laws;
