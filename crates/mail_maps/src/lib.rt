//! The maps that are served: Emails with their envelopes and keywords, Threads, and Mailboxes with their counts.
#![tactic(auto)]

// Rows.
mod row;
mod served;

// Emails.
mod envelope;
mod header;
pub mod keywords;
pub mod same_keywords;
pub mod visible;

// Threads and Mailboxes.
pub mod hierarchy;
mod mailboxes;
pub mod rights;
mod roles;
mod tally;
mod threads;

// Laws.
pub mod laws;

pub use envelope::{AddressField, Envelope, text_or_empty};
pub use header::read_envelope;
pub use mailboxes::mailboxes_of;
pub use row::{EmailRow, MailboxRow, Rights, Role};
pub use tally::{FolderCounts, count_emails, counts_of};
pub use threads::{Thread, threads_among};
