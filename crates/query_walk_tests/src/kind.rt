// Kinds of queries.
use jmap_arguments::MethodError;
use mail_state::MailState;
use query_changes::{email_query_changes, mailbox_query_changes};
use query_core::{email_query, mailbox_query};
use serde_json::Value;
use std::alloc::Global;

/// What is asked.
#[derive(Clone, Copy, PartialEq)]
pub(crate) enum Kind {
    /// Emails, where each is taken or not, and has its place, by its own record.
    Emails,
    /// Emails, where others of their Threads count.
    Threads,
    Mailboxes,
}

impl Kind {
    /// The kind of a word, where it is that of one.
    pub(crate) fn named(word: &str) -> Option<Kind> {
        match word {
            "emails" => Some(Kind::Emails),
            "threads" => Some(Kind::Threads),
            "mailboxes" => Some(Kind::Mailboxes),
            _ => None,
        }
    }

    /// What ids begin with.
    pub(crate) fn letter(self) -> char {
        match self {
            Kind::Emails | Kind::Threads => 'e',
            Kind::Mailboxes => 'm',
        }
    }

    /// What a query answers.
    pub(crate) fn query(
        self,
        alloc: Global,
        state: &MailState,
        arguments: &Value,
    ) -> Result<Value, MethodError> {
        match self {
            Kind::Emails | Kind::Threads => email_query(alloc, state, arguments),
            Kind::Mailboxes => mailbox_query(alloc, state, arguments),
        }
    }

    /// What its queryChanges answers.
    pub(crate) fn query_changes(
        self,
        alloc: Global,
        state: &MailState,
        arguments: &Value,
    ) -> Result<Value, MethodError> {
        match self {
            Kind::Emails | Kind::Threads => email_query_changes(alloc, state, arguments),
            Kind::Mailboxes => mailbox_query_changes(alloc, state, arguments),
        }
    }
}
