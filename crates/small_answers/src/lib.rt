//! What the small store answers to a command (RFC 9051, RFC 7162), and what its owner does to its mail: the relation, and
//! that it is an honest store's. Definitions and laws alone; they stand in `specs/`.
#![tactic(auto)]

pub mod laws;
