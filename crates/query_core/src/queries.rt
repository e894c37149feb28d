// Email/query and Mailbox/query.
ghost use Rattle.std.specs.Prelude.{◌≡◌, false, IfOk};
ghost use Rattle.serde_json.specs.View.{view};
ghost use Rattle.serde_json.specs.Written.{has_float};
ghost use Rattle.jmap_arguments.specs.Outcome.{Agrees, Meets};
ghost use Rattle.jmap_arguments.specs.declared.method_error.MethodError.TheVariants.{Memory};
ghost use Rattle.mail_state.specs.History.{MailHistory};
ghost use Rattle.mail_state.specs.State.{IsStateOf};
ghost use Rattle.query_arguments.specs.Asked.{email_query_refused, mailbox_query_refused};
ghost use Rattle.query_core.specs.Answers.{RepliesEmailQuery, RepliesMailboxQuery};

use crate::answers::answer;
use crate::calculable::reads_record_alone;
use crate::email_list::email_numbers;
use crate::mailbox_list::mailbox_numbers;
use jmap_arguments::{EMAIL_LETTER, MAILBOX_LETTER, MethodError};
use mail_state::{MailState, MailType};
use query_arguments::{AskedQuery, email_query_asked, mailbox_query_asked};
use serde_json::Value;
use served_types::type_text;
use std::alloc::Global;

/// The refusal of an Email/query by its arguments alone, which stands whatever mail there is.
pub fn check_email_query(alloc: Global, arguments: &Value) -> Result<(), MethodError>
    ensures { Agrees Memory (λ u. u) result (email_query_refused (view arguments.now)) }
{
    // (only whether it is refused is told)
    let _asked = email_query_asked(alloc, arguments)?;
    Ok(())
}

/// The same of a Mailbox/query.
pub fn check_mailbox_query(alloc: Global, arguments: &Value) -> Result<(), MethodError>
    ensures { Agrees Memory (λ u. u) result (mailbox_query_refused (view arguments.now)) }
{
    // (only whether it is refused is told)
    let _asked = mailbox_query_asked(alloc, arguments)?;
    Ok(())
}

/// Email/query (RFC 8621 section 4.4). `AnchorNotFound` exactly where an anchor is asked that isn't in the list.
pub fn email_query(
    alloc: Global,
    state: &MailState,
    arguments: &Value,
) -> Result<Value, MethodError>
    ensures exact { (h : MailHistory) → IsStateOf h state.now → Meets Memory view result (RepliesEmailQuery h (view arguments.now)) }
    ensures whole { IfOk result (λ value. has_float (view value) ≡ false) }
{
    let AskedQuery { list, part, counts } = email_query_asked(alloc, arguments)?;
    let numbers = email_numbers(alloc, state, &list)?;
    let text = type_text(alloc, state, MailType::Email)?;
    let calculable = reads_record_alone(&list);
    answer(
        alloc,
        EMAIL_LETTER,
        text.as_str(),
        calculable,
        numbers.as_slice(),
        counts,
        &part,
    )
}

/// Mailbox/query (RFC 8621 section 2.3), refused as `email_query` is. The list is flat.
pub fn mailbox_query(
    alloc: Global,
    state: &MailState,
    arguments: &Value,
) -> Result<Value, MethodError>
    ensures exact { (h : MailHistory) → IsStateOf h state.now → Meets Memory view result (RepliesMailboxQuery h (view arguments.now)) }
    ensures whole { IfOk result (λ value. has_float (view value) ≡ false) }
{
    let AskedQuery { list, part, counts } = mailbox_query_asked(alloc, arguments)?;
    let numbers = mailbox_numbers(alloc, state, &list)?;
    let text = type_text(alloc, state, MailType::Mailbox)?;
    answer(
        alloc,
        MAILBOX_LETTER,
        text.as_str(),
        true,
        numbers.as_slice(),
        counts,
        &part,
    )
}
