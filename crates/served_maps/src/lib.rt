//! Served maps: rows by number, the steps from one map to the next, and what has become of a type since its beginning.
#![tactic(auto)]

// Rows, and the touches from one map to the next.
pub mod among;
mod row;
pub mod steps;

// A list that notes them.
pub mod note;

// Laws.
pub mod laws;

pub use row::Row;
