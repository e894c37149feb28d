//! What is sent for a creation of an Email is determined by what is asked and given. Laws alone.
#![tactic(auto)]

pub mod laws;
