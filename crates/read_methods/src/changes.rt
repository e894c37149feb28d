// The three /changes.
ghost use Rattle.std.specs.Prelude.{◌≡◌, ◌<◌, false, IfOk, OnOk};
ghost use Rattle.serde_json.specs.Data.{put as put_data, string, no_members};
ghost use Rattle.serde_json.specs.View.{view, members_view};
ghost use Rattle.serde_json.specs.Written.{has_float};
ghost use Rattle.jmap_arguments.specs.Ids.{mailbox_letter, id_list as ids_data};
ghost use Rattle.jmap_arguments.specs.Outcome.{IsJust, Meets};
ghost use Rattle.jmap_arguments.specs.State.{state_text as text_of_state};
ghost use Rattle.jmap_arguments.specs.declared.method_error.MethodError.TheVariants.{Memory};
ghost use Rattle.mail_state.specs.History.{MailHistory};
ghost use Rattle.mail_state.specs.LookUps.{touches_kept};
ghost use Rattle.mail_state.specs.State.{IsStateOf};
ghost use Rattle.read_methods.specs.Changes as spec;
ghost use Rattle.read_methods.specs.Changes.{no_further, updated_properties};
ghost use Rattle.read_methods.specs.Replies.{RepliesMailboxChanges, RepliesThreadChanges, RepliesEmailChanges, UpdatesMailboxes, UpdatesThreads, UpdatesEmails};
ghost use Rattle.read_methods.specs.reading.Found.{Finds, AnswersFound};

use change_list::{ChangeList, Changes, SinceError};
use jmap_arguments::{
    ACCOUNT_ID, EMAIL_LETTER, MAILBOX_LETTER, MethodError, State, THREAD_LETTER, check_account,
    id_list, most_or_null, put_text, read_place, state_text, text_at,
};
use mail_state::{MailState, MailType};
use serde_json::{Map, Value, json, put};
use std::alloc::{AllocError, Global};

/// What a call asks.
#[derive(Clone, Copy)]
struct Asked<'a> {
    since: &'a str,
    most: Option<u64>,
}

/// The checks in order: the arguments' kinds, the account.
fn asked_of(arguments: &Value) -> Result<Asked<'_>, MethodError>
    ensures { IsJust (λ a. record { since = a.since.now; most = a.most }) result (spec.changes_asked (view arguments.now)) }
{
    let account = text_at(arguments, "accountId")?;
    let since = text_at(arguments, "sinceState")?;
    let most = most_or_null(arguments, "maxChanges")?;
    check_account(account)?;
    Ok(Asked { since, most })
}

/// The refusal of a /changes by its arguments alone, which stands whatever mail there is.
pub fn check_changes(arguments: &Value) -> Result<(), MethodError>
    ensures { result ≡ spec.changes_refused (view arguments.now) }
{
    // (only whether it is refused is told)
    let _asked = asked_of(arguments)?;
    Ok(())
}

/// What changed since the state that was named.
#[derive(Drop)]
struct Found<'a> {
    /// The last state.
    last: State,
    since: &'a str,
    changes: Changes,
}

/// What changed since the state that is named, where the changes after it are still kept.
fn find<'a>(epoch: u64, list: &ChangeList, arguments: &'a Value) -> Result<Found<'a>, MethodError>
    ensures finds { Meets Memory (λ f. record { since = f.since.now; changes = f.changes }) result (Finds epoch list.now (view arguments.now)) }
    ensures last { IfOk result (λ f. f.last ≡ record { epoch = epoch; place = list.now.place }) }
{
    let Asked { since, most } = asked_of(arguments)?;
    let last = State {
        epoch,
        place: list.place(),
    };
    let Some(place) = read_place(epoch, since) else {
        return Err(MethodError::CannotCalculateChanges);
    };
    match list.since(place, most) {
        Ok(changes) => Ok(Found {
            last,
            since,
            changes,
        }),
        Err(SinceError::BeforeFront { .. }) => Err(MethodError::CannotCalculateChanges),
        Err(SinceError::AfterEnd { .. }) => Err(MethodError::CannotCalculateChanges),
        Err(SinceError::Memory) => Err(MethodError::Memory),
    }
}

fn put_ids(
    members: &mut Map<String, Value>,
    alloc: Global,
    key: &str,
    letter: char,
    numbers: &[u64],
) -> Result<(), AllocError>
    requires { letter < 128 }
    ensures { OnOk result (members_view members.new.entries ≡ put_data key.now (ids_data letter numbers.now) (members_view members.old.entries)) }
{
    put(members, alloc, key, id_list(alloc, letter, numbers)?)
}

/// The state to which the ids listed lead.
fn new_state(alloc: Global, found: &Found<'_>) -> Result<Value, AllocError>
    ensures { IfOk result (λ value. view value ≡ string (text_of_state (record { epoch = found.now.last.epoch; place = found.now.changes.to }))) }
{
    let state = State {
        epoch: found.last.epoch,
        place: found.changes.to,
    };
    Ok(Value::String(state_text(alloc, state)?))
}

/// The members of an answer that all types have.
fn members_of(
    alloc: Global,
    letter: char,
    found: &Found<'_>,
) -> Result<Map<String, Value>, AllocError>
    requires { letter < 128 }
    ensures { IfOk result (λ members. members_view members.entries
        ≡ spec.changes_members letter found.now.last.epoch found.now.last.place found.now.since.now found.now.changes no_members) }
{
    let changes = &found.changes;
    let state = new_state(alloc, found)?;
    let has_more = Value::from(changes.to < found.last.place);
    let mut members = Map::new(alloc);
    put_text(&mut members, alloc, "accountId", ACCOUNT_ID)?;
    put_ids(
        &mut members,
        alloc,
        "created",
        letter,
        changes.created.as_slice(),
    )?;
    put_ids(
        &mut members,
        alloc,
        "destroyed",
        letter,
        changes.destroyed.as_slice(),
    )?;
    put(&mut members, alloc, "hasMoreChanges", has_more)?;
    put(&mut members, alloc, "newState", state)?;
    put_text(&mut members, alloc, "oldState", found.since)?;
    put_ids(
        &mut members,
        alloc,
        "updated",
        letter,
        changes.updated.as_slice(),
    )?;
    Ok(members)
}

/// The answer of a type that adds no members.
fn plain_changes(
    alloc: Global,
    state: &MailState,
    kind: MailType,
    letter: char,
    arguments: &Value,
) -> Result<Value, MethodError>
    requires { letter < 128 }
    ensures { Meets Memory view result (AnswersFound letter state.now.epoch (touches_kept state.now kind) no_further (view arguments.now)) }
{
    let found = find(state.epoch(), state.list(kind), arguments)?;
    let members = members_of(alloc, letter, &found)?;
    Ok(Value::Object(members))
}

/// The properties that may have changed, where these are the counts alone.
fn names_if(alloc: Global, counts_only: bool) -> Result<Value, AllocError>
    ensures { IfOk result (λ value. view value ≡ spec.names_if counts_only) }
{
    if counts_only {
        json!(in alloc; ["totalEmails", "unreadEmails", "totalThreads", "unreadThreads"])
    } else {
        Ok(Value::Null)
    }
}

/// The answer of Mailboxes.
fn changes_with_names(
    alloc: Global,
    state: &MailState,
    arguments: &Value,
) -> Result<Value, MethodError>
    ensures { Meets Memory view result (AnswersFound mailbox_letter state.now.epoch state.now.lists.mailbox updated_properties (view arguments.now)) }
{
    let found = find(state.epoch(), state.list(MailType::Mailbox), arguments)?;
    let names = names_if(alloc, found.changes.counts_only)?;
    let mut members = members_of(alloc, MAILBOX_LETTER, &found)?;
    put(&mut members, alloc, "updatedProperties", names)?;
    Ok(Value::Object(members))
}

/// Mailbox/changes (RFC 8621 section 2.2). `CannotCalculateChanges` exactly where the state named is none of this epoch whose
/// changes are still kept.
pub fn mailbox_changes(
    alloc: Global,
    state: &MailState,
    arguments: &Value,
) -> Result<Value, MethodError>
    ensures exact { (h : MailHistory) → IsStateOf h state.now → Meets Memory view result (RepliesMailboxChanges h (view arguments.now)) }
    ensures copies { IfOk result (λ value. (h : MailHistory) → IsStateOf h state.now → UpdatesMailboxes h (view arguments.now) (view value)) }
    ensures whole { IfOk result (λ value. has_float (view value) ≡ false) }
{
    changes_with_names(alloc, state, arguments)
}

/// Thread/changes (RFC 8621 section 3.2), refused as `mailbox_changes` is.
pub fn thread_changes(
    alloc: Global,
    state: &MailState,
    arguments: &Value,
) -> Result<Value, MethodError>
    ensures exact { (h : MailHistory) → IsStateOf h state.now → Meets Memory view result (RepliesThreadChanges h (view arguments.now)) }
    ensures copies { IfOk result (λ value. (h : MailHistory) → IsStateOf h state.now → UpdatesThreads h (view arguments.now) (view value)) }
    ensures whole { IfOk result (λ value. has_float (view value) ≡ false) }
{
    plain_changes(alloc, state, MailType::Thread, THREAD_LETTER, arguments)
}

/// Email/changes (RFC 8621 section 4.3), refused as `mailbox_changes` is.
pub fn email_changes(
    alloc: Global,
    state: &MailState,
    arguments: &Value,
) -> Result<Value, MethodError>
    ensures exact { (h : MailHistory) → IsStateOf h state.now → Meets Memory view result (RepliesEmailChanges h (view arguments.now)) }
    ensures copies { IfOk result (λ value. (h : MailHistory) → IsStateOf h state.now → UpdatesEmails h (view arguments.now) (view value)) }
    ensures whole { IfOk result (λ value. has_float (view value) ≡ false) }
{
    plain_changes(alloc, state, MailType::Email, EMAIL_LETTER, arguments)
}
