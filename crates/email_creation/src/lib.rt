//! The creations of Email/set: the checks of each in order, and the one APPEND that it comes to (RFC 8620 section 5.3, RFC 8621
//! section 4.6).
#![tactic(auto)]

// What is asked.
mod flags;
mod mailboxes;
mod members;

// The checks, and the APPEND.
mod checks;
mod drawing;
mod laws;
mod ready;

pub use checks::{check_creation, date_asked};
pub use drawing::{append_job, draw_creation};
pub use flags::flags_asked;
pub use laws::{
    creations_append_lines, creations_append_once, creations_are_checked_one_way,
    creations_have_one_job,
};
pub use mailboxes::{MailboxAsked, mailbox_asked};
pub use members::member;
pub use ready::ReadyCreation;
