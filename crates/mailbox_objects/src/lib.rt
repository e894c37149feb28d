//! A Mailbox as an object with all its properties (RFC 8621 section 2): for what a Mailbox/set made, and for the values that an update sends back.
#![tactic(auto)]

mod mailboxes;

pub use mailboxes::whole_mailbox;
