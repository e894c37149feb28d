//! Email/query and Mailbox/query (RFC 8620 section 5.5, RFC 8621 sections 2.3 and 4.4): the rows that a filter takes, in the order
//! that is asked, and the part of them that is answered.
#![tactic(auto)]

// Rows as filters test them.
mod emails;
mod filter_walk;
mod header_condition;
mod keyword_threads;

// Rows that a filter takes.
mod email_filter;
mod kept;
mod searched_fields;
mod text_search;

// Lists.
mod calculable;
mod email_list;
mod mailbox_list;

// Methods.
mod answers;
mod parts;
mod queries;

// Laws.
pub mod laws;

pub use answers::put_total;
pub use calculable::reads_record_alone;
pub use email_list::email_numbers;
pub use mailbox_list::mailbox_numbers;
pub use queries::{check_email_query, check_mailbox_query, email_query, mailbox_query};
