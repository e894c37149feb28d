//! The conditions of which filters of Emails and Mailboxes are made (RFC 8621 sections 2.3 and 4.4.1), as tests of rows.
#![tactic(auto)]

// Conditions.
mod email_condition;
mod mailbox_condition;

// Emails and Mailboxes.
mod entry;
mod mailboxes;
mod records;
mod threads;
mod words;

pub use email_condition::{Quantity, RecordCondition, TextField};
pub use entry::EmailEntry;
pub use mailbox_condition::MailboxCondition;
pub use mailboxes::mailbox_matches;
pub use records::{field_text, record_matches};
pub use threads::{KeywordThreads, keyword_threads, thread_matches};
pub use words::{has_word, has_words};
