//! What the gateway holds between requests, a request's way to the mail and to the bodies of Emails: over the
//! link alone.
#![tactic(auto)]

// What is known.
mod differences;
mod known;
mod machine;

// The way to the mail.
mod beginning;
mod mail_status;

// Bodies.
mod fetching;

// Laws.
mod laws;

pub use beginning::begin;
pub use fetching::Fetching;
pub use known::{Known, ServedPart};
pub use laws::{
    calls_keep_history, calls_leave_the_history, kept_bodies_were_told,
    machines_know_what_was_told, obeyed_bodies_come, obeyed_rounds_stand, requests_keep_history,
    served_folders_are_told, touches_stay,
};
pub use machine::Machine;
pub use mail_status::{CommitEnd, MailFailure, MailStatus};
