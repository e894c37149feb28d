//! The texts of commands that are sent to a store.
#![tactic(auto)]

mod commands;
mod piece;

pub use commands::write_command;
pub use imap_types::Command;
pub use piece::Piece;
