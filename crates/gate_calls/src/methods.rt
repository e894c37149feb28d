// What methods answer over the mail that is served.
ghost use Rattle.std.specs.Prelude.{◌≡◌, ◌≢◌, ℕ, List, [], Err, Ok, IfOk, OnOk, Result as result_type, false};
ghost use Rattle.serde_json.specs.View.{view};
ghost use Rattle.serde_json.specs.Written.{has_float};
ghost use Rattle.email_get.specs.Asked.{AsksAndMeets};
ghost use Rattle.jmap_arguments.specs.Outcome.{Agrees, Meets};
ghost use Rattle.jmap_arguments.specs.declared.method_error.MethodError.{MethodError as error_type};
ghost use Rattle.jmap_arguments.specs.declared.method_error.MethodError.TheVariants.{Memory};
ghost use Rattle.mail_state.specs.History.{MailHistory};
ghost use Rattle.mail_state.specs.State.{IsStateOf};
ghost use Rattle.set_arguments.specs.declared.set_method.SetMethod.{SetMethod as set_type};
ghost use Rattle.gate_calls.specs.Methods.{RepliesTo, set_refused, unless_refused};
ghost use Rattle.gate_calls.specs.declared.method.Method.TheVariants.{Set};

use crate::method::Method;
use blob_store::BlobStore;
use email_bodies::BodySource;
use email_get::{check_email_get, check_email_parse, email_get, email_parse};
use jmap_arguments::{MethodError, echo};
use mail_state::MailState;
use query_changes::{
    check_email_query_changes, check_mailbox_query_changes, email_query_changes,
    mailbox_query_changes,
};
use query_core::{check_email_query, check_mailbox_query, email_query, mailbox_query};
use read_methods::{
    check_changes, check_mailbox_get, check_thread_get, email_changes, mailbox_changes,
    mailbox_get, thread_changes, thread_get,
};
use serde_json::Value;
use set_arguments::{SetMethod, set_asked};
use std::alloc::Global;

// The refusal, or the error.
fn refusal_or(refused: Result<(), MethodError>, error: MethodError) -> Result<Value, MethodError>
    ensures meant { (due : result_type (Unit {0}) error_type) → Agrees Memory (λ u. u) refused due → Meets Memory view result (λ r. r ≡ unless_refused due error) }
    ensures none { OnOk result ⊥ }
{
    match refused {
        Ok(_) => Err(error),
        Err(refusal) => Err(refusal),
    }
}

// The refusal of a call that changes mail by its arguments alone.
fn check_set(alloc: Global, method: SetMethod, arguments: &Value) -> Result<(), MethodError>
    ensures { Agrees Memory (λ u. u) result (set_refused method (view arguments.now)) }
{
    match set_asked(alloc, method, arguments) {
        Ok(_) => Ok(()),
        Err(refusal) => Err(refusal),
    }
}

/// A method where the mail can't be told: the call is refused by its arguments alone, or has the error.
pub(crate) fn reply_without(
    alloc: Global,
    method: Method,
    error: MethodError,
    arguments: Value,
) -> Result<Value, MethodError>
    ensures meant { (uploads : List (List ℕ)) → Meets Memory view result (RepliesTo method (record { mail = Err error; uploads = uploads }) (view arguments) []) }
    ensures whole { IfOk result (λ value. has_float (view value) ≡ false) }
{
    match method {
        Method::CoreEcho => echo(arguments),
        Method::MailboxGet => refusal_or(check_mailbox_get(alloc, &arguments), error),
        Method::MailboxChanges => refusal_or(check_changes(&arguments), error),
        Method::MailboxQuery => refusal_or(check_mailbox_query(alloc, &arguments), error),
        Method::MailboxQueryChanges => {
            refusal_or(check_mailbox_query_changes(alloc, &arguments), error)
        }
        Method::ThreadGet => refusal_or(check_thread_get(alloc, &arguments), error),
        Method::ThreadChanges => refusal_or(check_changes(&arguments), error),
        Method::EmailGet => refusal_or(check_email_get(alloc, &arguments), error),
        Method::EmailChanges => refusal_or(check_changes(&arguments), error),
        Method::EmailQuery => refusal_or(check_email_query(alloc, &arguments), error),
        Method::EmailQueryChanges => {
            refusal_or(check_email_query_changes(alloc, &arguments), error)
        }
        Method::EmailParse => refusal_or(check_email_parse(alloc, &arguments), error),
        Method::Set(method) => refusal_or(check_set(alloc, method, &arguments), error),
    }
}

/// A method over the mail that is served.
pub(crate) fn reply_over<W, B: BodySource<W>>(
    alloc: Global,
    state: &MailState,
    uploads: &BlobStore,
    bodies: &mut B,
    world: &mut W,
    method: Method,
    arguments: Value,
) -> Result<Value, MethodError>
    requires { (m : set_type) → method ≢ Set m }
    ensures meant { AsksAndMeets B.answers B.lacks (bodies.old, world.old) (bodies.new, world.new) Memory view result
        (λ asks r. (h : MailHistory) → IsStateOf h state.now → RepliesTo method (record { mail = Ok h; uploads = uploads.now }) (view arguments) asks r) }
    ensures whole { IfOk result (λ value. has_float (view value) ≡ false) }
{
    match method {
        Method::CoreEcho => echo(arguments),
        Method::MailboxGet => mailbox_get(alloc, state, &arguments),
        Method::MailboxChanges => mailbox_changes(alloc, state, &arguments),
        Method::MailboxQuery => mailbox_query(alloc, state, &arguments),
        Method::MailboxQueryChanges => mailbox_query_changes(alloc, state, &arguments),
        Method::ThreadGet => thread_get(alloc, state, &arguments),
        Method::ThreadChanges => thread_changes(alloc, state, &arguments),
        Method::EmailGet => email_get(alloc, state, bodies, world, &arguments),
        Method::EmailChanges => email_changes(alloc, state, &arguments),
        Method::EmailQuery => email_query(alloc, state, &arguments),
        Method::EmailQueryChanges => email_query_changes(alloc, state, &arguments),
        Method::EmailParse => email_parse(alloc, state, uploads, bodies, world, &arguments),
        Method::Set(_) => unreachable!(),
    }
}
