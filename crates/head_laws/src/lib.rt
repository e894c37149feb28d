//! A client is handed on as soon as its head is read without asking for more octets, and not before (RFC 9112 section 2.2).
//! Laws alone.
#![tactic(auto)]

pub mod laws;
