//! The orders of Emails and Mailboxes (RFC 8621 sections 2.3 and 4.4.2), and rows that are sorted by them.
#![tactic(auto)]

// Comparators, and what they compare.
mod comparators;
mod entry;

// Keys.
mod folded;
mod keys;

// Rows in order.
mod deciding;
mod emails;
mod mailboxes;

// Laws.
pub mod laws;

pub use comparators::{EmailComparator, EmailSort, MailboxComparator, MailboxSort};
pub use emails::{numbers_in_order, threads_in_order};
pub use entry::MailboxEntry;
pub use mailboxes::sort_mailboxes;
