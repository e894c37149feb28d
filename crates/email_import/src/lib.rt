//! The imports of Email/import: the checks of each in order, its octets, and the one APPEND that it comes to (RFC 8621 section 4.8).
#![tactic(auto)]

// What is asked.
mod members;
mod ready;

// The checks, the octets, and the APPEND.
mod checks;
mod messages;

// Laws.
mod laws;

pub use checks::check_import;
pub use laws::{imports_append_once, imports_are_checked_one_way, imports_find_one_message};
pub use messages::{find_message, import_job};
pub use ready::ReadyImport;
