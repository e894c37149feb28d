// The reply of a call (RFC 8620 section 5.3).
ghost use Rattle.std.specs.Prelude.{◌≡◌, IfOk, false, map};
ghost use Rattle.serde_json.specs.View.{view, members_view};
ghost use Rattle.serde_json.specs.Written.{has_float};
ghost use Rattle.mail_state.specs.History.{MailHistory};
ghost use Rattle.mail_state.specs.LookUps.{touches_kept};
ghost use Rattle.mail_state.specs.State.{IsStateOf};
ghost use Rattle.set_replies.specs.Lists.{lists_of};
ghost use Rattle.set_replies.specs.Replies as spec;
ghost use Rattle.set_replies.specs.Replies.{import_data, reply_data, set_data, set_reply};
ghost use Rattle.set_replies.specs.States.{state_at};
ghost use Rattle.set_replies.specs.reading.Items.{done_data};
ghost use Rattle.set_replies.specs.reading.Listing.{lists_data};
ghost use Rattle.set_replies.specs.reading.Types.{AreApart, served_in, type_of};

use crate::lists::{ReplyLists, lists_of};
use crate::states::type_of;
use jmap_arguments::{ACCOUNT_ID, State, state_text};
use mail_state::MailState;
use serde_json::{Map, Value, json};
use served_types::type_text;
use set_arguments::SetMethod;
use set_jobs::Done;
use set_order::Item;
use std::alloc::{AllocError, Global};

fn object_or_null(members: Map<String, Value>) -> Value
    ensures { view result ≡ spec.object_or_null (members_view members.entries) }
{
    if members.is_empty() {
        return Value::Null;
    }
    Value::Object(members)
}

fn list_or_null(items: Vec<Value>) -> Value
    ensures { view result ≡ spec.list_or_null (map view items.items) }
{
    if items.is_empty() {
        return Value::Null;
    }
    Value::Array(items)
}

/// The reply of these lists, between these two states.
fn set_value(alloc: Global, old: &str, new: &str, lists: ReplyLists) -> Result<Value, AllocError>
    ensures { IfOk result (λ value. view value ≡ set_data old.now new.now (lists_data lists)) }
{
    json!(in alloc; {
        "accountId": ACCOUNT_ID,
        "created": object_or_null(lists.created),
        "destroyed": list_or_null(lists.destroyed),
        "newState": new,
        "notCreated": object_or_null(lists.not_created),
        "notDestroyed": object_or_null(lists.not_destroyed),
        "notUpdated": object_or_null(lists.not_updated),
        "oldState": old,
        "updated": object_or_null(lists.updated),
    })
}

/// The reply of an import of these lists.
fn import_value(alloc: Global, old: &str, new: &str, lists: ReplyLists) -> Result<Value, AllocError>
    ensures { IfOk result (λ value. view value ≡ import_data old.now new.now (lists_data lists)) }
{
    json!(in alloc; {
        "accountId": ACCOUNT_ID,
        "created": object_or_null(lists.created),
        "newState": new,
        "notCreated": object_or_null(lists.not_created),
        "oldState": old,
    })
}

/// The reply of the method of these lists.
fn reply_value(
    alloc: Global,
    method: SetMethod,
    old: &str,
    new: &str,
    lists: ReplyLists,
) -> Result<Value, AllocError>
    ensures { IfOk result (λ value. view value ≡ reply_data method old.now new.now (lists_data lists)) }
{
    match method {
        SetMethod::EmailSet | SetMethod::MailboxSet => set_value(alloc, old, new, lists),
        SetMethod::EmailImport => import_value(alloc, old, new, lists),
    }
}

/// The reply over the rows of the state.
fn reply_over(
    alloc: Global,
    method: SetMethod,
    before: u64,
    state: &MailState,
    done: &[(Item<'_>, Done)],
) -> Result<Value, AllocError>
    ensures exact { AreApart state.now.rows.numbered.rows → IfOk result (λ value. view value ≡ reply_data method (state_at state.now.epoch before)
        (state_at state.now.epoch (touches_kept state.now (type_of method)).place) (lists_of method (served_in state.now) (map done_data done.now))) }
    ensures whole { IfOk result (λ value. has_float (view value) ≡ false) }
{
    let lists = lists_of(alloc, method, state, done)?;
    let old = State {
        epoch: state.epoch(),
        place: before,
    };
    let old = state_text(alloc, old)?;
    let new = type_text(alloc, state, type_of(method))?;
    reply_value(alloc, method, old.as_str(), new.as_str(), lists)
}

/// The reply of a call (RFC 8620 section 5.3) by what its items came to and the state after its commit. The type was at the place
/// `before` as the items began.
pub fn set_reply(
    alloc: Global,
    method: SetMethod,
    before: u64,
    state: &MailState,
    done: &[(Item<'_>, Done)],
) -> Result<Value, AllocError>
    ensures exact { (h : MailHistory) → IsStateOf h state.now → IfOk result (λ value. view value ≡ set_reply method before h (map done_data done.now)) }
    ensures whole { IfOk result (λ value. has_float (view value) ≡ false) }
{
    reply_over(alloc, method, before, state, done)
}
