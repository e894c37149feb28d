// Calls of methods, and what they are answered.
use crate::properties::put_wanted;
use crate::texts::put_text;
use email_properties::{Defaults, email_wanted};
use gate_calls::{Method, method_named};
use jmap_arguments::{MethodError, Using, echo};
use mail_state::MailState;
use query_changes::{email_query_changes, mailbox_query_changes};
use query_core::{email_query, mailbox_query};
use read_methods::{email_changes, mailbox_changes, mailbox_get, thread_changes, thread_get};
use serde_json::Value;
use std::alloc::{AllocError, Global};
use test_rows::first_word;

/// All capabilities.
const BOTH: Using = Using {
    core: true,
    mail: true,
};

/// Adds an answer, or why there is none.
pub(crate) fn put_answer(
    alloc: Global,
    out: &mut String,
    answer: Result<Value, MethodError>,
) -> Result<(), AllocError> {
    match answer {
        Ok(value) => put_text(out, &value.to_string(alloc)?),
        Err(error) => write!(out, "{error}"),
    }
}

/// What a method answers that reads and asks for no body.
fn answer_of(
    alloc: Global,
    state: &MailState,
    method: Method,
    arguments: &Value,
) -> Result<Value, MethodError> {
    match method {
        Method::MailboxGet => mailbox_get(alloc, state, arguments),
        Method::MailboxChanges => mailbox_changes(alloc, state, arguments),
        Method::MailboxQuery => mailbox_query(alloc, state, arguments),
        Method::MailboxQueryChanges => mailbox_query_changes(alloc, state, arguments),
        Method::ThreadGet => thread_get(alloc, state, arguments),
        Method::ThreadChanges => thread_changes(alloc, state, arguments),
        Method::EmailChanges => email_changes(alloc, state, arguments),
        Method::EmailQuery => email_query(alloc, state, arguments),
        Method::EmailQueryChanges => email_query_changes(alloc, state, arguments),
        Method::CoreEcho | Method::EmailGet | Method::EmailParse | Method::Set(_) => {
            echo(arguments.clone()?)
        }
    }
}

/// Adds what a method answers; of those that ask for bodies, what they ask of each Email. Those that change mail have rows of
/// their own in set_tests.
fn put_method(
    alloc: Global,
    state: &MailState,
    method: Method,
    arguments: &Value,
    out: &mut String,
) -> Result<(), AllocError> {
    match method {
        Method::EmailGet => put_wanted(email_wanted(alloc, arguments, Defaults::Get), out),
        Method::EmailParse => put_wanted(email_wanted(alloc, arguments, Defaults::Parse), out),
        Method::Set(_) => out.push_str("changes mail"),
        _ => put_answer(alloc, out, answer_of(alloc, state, method, arguments)),
    }
}

/// Adds what the method of a name answers to its arguments.
pub(crate) fn put_called(
    alloc: Global,
    state: &MailState,
    text: &str,
    out: &mut String,
) -> Result<(), AllocError> {
    let (name, text) = first_word(text);
    let Ok(arguments) = Value::from_str(alloc, text) else {
        return out.push_str("no JSON");
    };
    match method_named(BOTH, name) {
        Ok(method) => put_method(alloc, state, method, &arguments, out),
        Err(error) => write!(out, "{error}"),
    }
}
