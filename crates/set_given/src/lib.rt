//! What the items of Email/set and Mailbox/set are checked over, and what ids and creation ids name there (RFC 8620 section 5.3).
#![tactic(auto)]

mod given;
mod made;

pub use given::{EmailFound, Given, email_named, folder_named, folder_to_destroy};
pub use made::MadeFolders;
