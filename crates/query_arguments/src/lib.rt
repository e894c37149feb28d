//! What a query asks, read from its arguments: a filter, an order and a part of the list (RFC 8620 sections 5.5 and 5.6).
#![tactic(auto)]

// What is asked.
mod asked;
mod email_condition;
mod filter;

// Values, filters and orders as JSON.
mod email_filters;
mod filters;
mod mailbox_filters;
mod reading;
mod sorts;
mod values;

// The arguments.
mod numbers;
mod queries;

pub use asked::{AskedList, AskedPart, AskedQuery, AskedQueryChanges};
pub use email_condition::EmailCondition;
pub use filter::Filter;
pub use queries::{
    email_query_asked, email_query_changes_asked, mailbox_query_asked, mailbox_query_changes_asked,
};
