//! A folder as a store told it: its messages by UID, and what the responses of a command change of it.
#![tactic(auto)]

// Folders, messages and exchanges.
mod exchange;
pub mod keyed;
mod message;
pub mod messages;
pub mod uids;

// What responses tell.
mod fetched;
mod headers;
pub mod puts;
pub mod select;
pub mod telling;
mod vanished;

// What an exchange tells.
mod told;

pub use exchange::{Exchange, ToldError};
pub use message::{Folder, Message, NumberedFolder, share_folders};
pub use told::tell_exchange;
