//! Octets as texts of JSON.
#![tactic(auto)]

mod texts;

pub use texts::{optional_text_value, owned_text_value, text_value};
