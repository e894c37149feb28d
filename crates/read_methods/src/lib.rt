//! Methods that read what is served of the mail without asking for bodies: /get and /changes of Mailboxes and Threads, and the
//! /changes of Emails (RFC 8621).
#![tactic(auto)]

// Objects.
mod mailbox_property;
mod mailbox_values;

// Methods.
mod changes;
mod mailboxes;
mod threads;

// Laws.
pub mod laws;

pub use changes::{check_changes, email_changes, mailbox_changes, thread_changes};
pub use mailbox_property::MailboxProperty;
pub use mailboxes::{check_mailbox_get, mailbox_get};
pub use threads::{check_thread_get, thread_get};
