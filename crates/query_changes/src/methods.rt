// The two queryChanges.
ghost use Rattle.std.specs.Prelude.{◌≡◌, false, IfOk};
ghost use Rattle.serde_json.specs.View.{view};
ghost use Rattle.serde_json.specs.Written.{has_float};
ghost use Rattle.jmap_arguments.specs.Outcome.{Agrees, Meets};
ghost use Rattle.jmap_arguments.specs.declared.method_error.MethodError.TheVariants.{Memory};
ghost use Rattle.mail_state.specs.History.{MailHistory};
ghost use Rattle.mail_state.specs.State.{IsStateOf};
ghost use Rattle.query_arguments.specs.Asked.{changes_seen, email_query_changes_refused, mailbox_query_changes_refused};
ghost use Rattle.query_changes.specs.Replies.{AnswersEmails, AnswersMailboxes, RepliesEmailQueryChanges, RepliesMailboxQueryChanges};
ghost use Rattle.query_changes.specs.Splicing.{SplicesEmails, SplicesMailboxes};

use crate::reply::reply;
use crate::touched::touched_since;
use jmap_arguments::{EMAIL_LETTER, MAILBOX_LETTER, MethodError};
use mail_state::{MailState, MailType};
use query_arguments::{
    AskedQueryChanges, EmailCondition, email_query_changes_asked, mailbox_query_changes_asked,
};
use query_conditions::MailboxCondition;
use query_core::{email_numbers, mailbox_numbers, reads_record_alone};
use query_orders::{EmailComparator, MailboxComparator};
use serde_json::Value;
use std::alloc::Global;

/// The refusal of an Email/queryChanges by its arguments alone, which stands whatever mail there is.
pub fn check_email_query_changes(alloc: Global, arguments: &Value) -> Result<(), MethodError>
    ensures { Agrees Memory (λ u. u) result (email_query_changes_refused (view arguments.now)) }
{
    // (only whether it is refused is told)
    let _asked = email_query_changes_asked(alloc, arguments)?;
    Ok(())
}

/// The same of a Mailbox/queryChanges.
pub fn check_mailbox_query_changes(alloc: Global, arguments: &Value) -> Result<(), MethodError>
    ensures { Agrees Memory (λ u. u) result (mailbox_query_changes_refused (view arguments.now)) }
{
    // (only whether it is refused is told)
    let _asked = mailbox_query_changes_asked(alloc, arguments)?;
    Ok(())
}

/// What is answered to what is asked of Emails.
fn answer_emails(
    alloc: Global,
    state: &MailState,
    asked: &AskedQueryChanges<EmailCondition, EmailComparator>,
) -> Result<Value, MethodError>
    ensures exact { (h : MailHistory) → IsStateOf h state.now → Meets Memory view result (AnswersEmails h (changes_seen asked.now)) }
    ensures whole { IfOk result (λ value. has_float (view value) ≡ false) }
{
    if !reads_record_alone(&asked.list) {
        return Err(MethodError::CannotCalculateChanges);
    }
    let since = asked.since.as_str();
    let touched = touched_since(state.epoch(), state.list(MailType::Email), since)?;
    let list = email_numbers(alloc, state, &asked.list)?;
    reply(
        alloc,
        EMAIL_LETTER,
        since,
        asked.most,
        asked.counts,
        &touched,
        &list,
    )
}

/// What is answered to what is asked of Mailboxes.
fn answer_mailboxes(
    alloc: Global,
    state: &MailState,
    asked: &AskedQueryChanges<MailboxCondition, MailboxComparator>,
) -> Result<Value, MethodError>
    ensures exact { (h : MailHistory) → IsStateOf h state.now → Meets Memory view result (AnswersMailboxes h (changes_seen asked.now)) }
    ensures whole { IfOk result (λ value. has_float (view value) ≡ false) }
{
    let since = asked.since.as_str();
    let touched = touched_since(state.epoch(), state.list(MailType::Mailbox), since)?;
    let list = mailbox_numbers(alloc, state, &asked.list)?;
    reply(
        alloc,
        MAILBOX_LETTER,
        since,
        asked.most,
        asked.counts,
        &touched,
        &list,
    )
}

/// Email/queryChanges (RFC 8621 section 4.5). Refused, in this order: by the arguments; `CannotCalculateChanges` exactly where the query
/// reads more than each record, or the state named is none of this epoch whose changes are still kept; `TooManyChanges` exactly where
/// `maxChanges` is less than the ids that would be told.
pub fn email_query_changes(
    alloc: Global,
    state: &MailState,
    arguments: &Value,
) -> Result<Value, MethodError>
    ensures exact { (h : MailHistory) → IsStateOf h state.now → Meets Memory view result (RepliesEmailQueryChanges h (view arguments.now)) }
    ensures splices { IfOk result (λ value. (h : MailHistory) → IsStateOf h state.now → SplicesEmails h (view arguments.now) (view value)) }
    ensures whole { IfOk result (λ value. has_float (view value) ≡ false) }
{
    let asked = email_query_changes_asked(alloc, arguments)?;
    answer_emails(alloc, state, &asked)
}

/// Mailbox/queryChanges (RFC 8621 section 2.4), refused as `email_query_changes` is; each query of Mailboxes reads each record alone.
pub fn mailbox_query_changes(
    alloc: Global,
    state: &MailState,
    arguments: &Value,
) -> Result<Value, MethodError>
    ensures exact { (h : MailHistory) → IsStateOf h state.now → Meets Memory view result (RepliesMailboxQueryChanges h (view arguments.now)) }
    ensures splices { IfOk result (λ value. (h : MailHistory) → IsStateOf h state.now → SplicesMailboxes h (view arguments.now) (view value)) }
    ensures whole { IfOk result (λ value. has_float (view value) ≡ false) }
{
    let asked = mailbox_query_changes_asked(alloc, arguments)?;
    answer_mailboxes(alloc, state, &asked)
}
