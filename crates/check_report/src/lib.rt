//! What a check of a store found, in plain lines.
#![tactic(auto)]

// What may be told.
mod finding;

// Octets of lines.
mod pieces;
mod shown;

// Lines.
mod asked;
mod causes;
mod folders;
mod reports;

pub use finding::{Finding, FolderFinding, finding_of};
pub use reports::report;
