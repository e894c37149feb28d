//! Email/queryChanges and Mailbox/queryChanges (RFC 8620 section 5.6, RFC 8621 sections 4.5 and 2.4): what was touched since the state
//! that a client names, told of its list.
#![tactic(auto)]

// What is told.
mod reply;
mod told;
mod touched;

// Methods.
mod methods;

// Laws.
pub mod laws;

pub use methods::{
    check_email_query_changes, check_mailbox_query_changes, email_query_changes,
    mailbox_query_changes,
};
