//! The texts of responses that a store sends (RFC 9051 section 7, RFC 7162 section 3.2).
#![tactic(auto)]

// Values.
mod numbers;
mod strings;

// Responses.
mod codes;
mod items;
mod responses;

// What a text spells.
mod laws;

pub use laws::text_spells_response;
pub use responses::push_response;
