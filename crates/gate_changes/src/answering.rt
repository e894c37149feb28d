// A call of a changing method is answered over the history after its commit.
ghost use Rattle.std.specs.Prelude.{◌≡◌, IfErr, IfOk, IsSome, List, OnOk, Some, false, map, true};
ghost use Rattle.gate_world.specs.Causes.{Faults, LinkAlone};
ghost use Rattle.gate_world.specs.Tape.{Adds};
ghost use Rattle.gate_world.specs.declared.event.Event.{Event};
ghost use Rattle.serde_json.specs.View.{view};
ghost use Rattle.serde_json.specs.Written.{has_float};
ghost use Rattle.mail_state.specs.History.{MailHistory};
ghost use Rattle.mail_state.specs.State.{IsStateOf};
ghost use Rattle.gate_machine.specs.History.{KnownMail};
ghost use Rattle.gate_machine.specs.Holding.{HoldsMachine};
ghost use Rattle.gate_machine.specs.Machine.{MachineState};
ghost use Rattle.gate_machine.specs.Progress.{CameTo};
ghost use Rattle.set_arguments.specs.Arguments.{SetAsked as SetAskedData};
ghost use Rattle.set_arguments.specs.reading.Asked.{asked_data};
ghost use Rattle.set_order.specs.Ordered.{Item as ItemData, ItemsOf, making};
ghost use Rattle.set_order.specs.reading.Creating.{HasKeys};
ghost use Rattle.set_order.specs.reading.Items.{item_data};
ghost use Rattle.set_calls.specs.reading.Calling.{done_data};
ghost use Rattle.set_replies.specs.Created.{created_with};
ghost use Rattle.set_replies.specs.Replies as replies;
ghost use Rattle.set_replies.specs.States as states;
ghost use Rattle.gate_changes.specs.Answering.{ChangeState, ItemChecks, call_of, is_current};
ghost use Rattle.gate_changes.specs.reading.Answers as answers;
ghost use Rattle.gate_changes.specs.reading.Answers.{AnswersTo, IsServed};
ghost use Rattle.gate_changes.specs.reading.Asking.{ChangesTo, call_rules};

use crate::changing::{CallChecks, Changed, change_mail};
use gate_machine::{Machine, MailStatus};
use gate_world::{Chance, Clock, Link};
use imap_client::Client;
use jmap_arguments::MethodError;
use jmap_core::CreatedIds;
use mail_state::{MailState, MailType};
use serde_json::Value;
use set_arguments::{SetAsked, SetMethod};
use set_calls::CallEnd;
use set_jobs::Done;
use set_order::{Item, creation_ids, ordered_items};
use set_replies::{is_at_state, put_created, set_reply};
use std::alloc::{AllocError, Global};
use std::collections::BTreeSet;

/// What a call of a changing method comes to.
#[derive(Drop)]
pub struct Answered {
    /// Its answer, or the error of the method. Out of memory is one.
    pub answer: Result<Value, MethodError>,
    /// Whether later calls of the request have the mail.
    pub status: MailStatus,
    /// The client, whose link life goes on as far as that stands.
    pub client: Client,
}

/// The reply over what is served after the commit, which adds the ids of what was made.
fn reply_over(
    alloc: Global,
    method: SetMethod,
    before: u64,
    state: &MailState,
    done: &[(Item<'_>, Done)],
    created: &mut CreatedIds,
) -> Result<Value, AllocError>
    ensures reply { (h : MailHistory) → IsStateOf h state.now → OnOk result (created.new ≡ created_with h created.old (map done_data done.now))
        × IfOk result (λ value. view value ≡ replies.set_reply method before h (map done_data done.now)) }
    ensures whole { IfOk result (λ value. has_float (view value) ≡ false) }
{
    let reply = set_reply(alloc, method, before, state, done)?;
    put_created(alloc, state, done, created)?;
    Ok(reply)
}

/// The place of the method's type.
fn place_of(method: SetMethod, state: &MailState) -> u64
    ensures { (h : MailHistory) → IsStateOf h state.now → result ≡ states.place_of method h }
{
    match method {
        SetMethod::EmailSet | SetMethod::EmailImport => state.list(MailType::Email).place(),
        SetMethod::MailboxSet => state.list(MailType::Mailbox).place(),
    }
}

/// The state that the machine serves.
fn state_of(machine: &Machine) -> &MailState
    requires { IsSome machine.now.known }
    ensures { (m : MachineState) (k : KnownMail) → HoldsMachine m machine.now → m.known ≡ Some k → IsStateOf k.history result.now }
{
    match &machine.known {
        Some(known) => known.state(),
        None => unreachable!(),
    }
}

/// The answer once the items are done and what they told is served.
fn reply_after(
    alloc: Global,
    machine: &Machine,
    method: SetMethod,
    before: u64,
    done: &[(Item<'_>, Done)],
    created: &mut CreatedIds,
) -> Result<Value, MethodError>
    requires { IsSome machine.now.known }
    ensures reply { (m : MachineState) (k : KnownMail) → HoldsMachine m machine.now → m.known ≡ Some k → OnOk result (created.new ≡ created_with k.history created.old (map done_data done.now))
        × IfOk result (λ value. view value ≡ replies.set_reply method before k.history (map done_data done.now)) }
    ensures memory { IfErr result (λ e. e ≡ MethodError.Memory) }
    ensures whole { IfOk result (λ value. has_float (view value) ≡ false) }
{
    match reply_over(alloc, method, before, state_of(machine), done, created) {
        Ok(reply) => Ok(reply),
        Err(_) => Err(MethodError::Memory),
    }
}

/// The error that a call ends with.
fn error_of(end: CallEnd) -> MethodError
    ensures { result ≡ answers.error_of end }
{
    match end {
        CallEnd::Fails(error) => error,
        CallEnd::Memory => MethodError::Memory,
    }
}

/// The answer by what the items came to. The method's type was at the place `before` as they began.
fn answered_by(
    alloc: Global,
    machine: &Machine,
    method: SetMethod,
    before: u64,
    changed: Changed<'_>,
    created: &mut CreatedIds,
) -> Answered
    requires { OnOk changed.came (IsSome machine.now.known) }
    ensures answers { (checks : ItemChecks) (a : SetAskedData) (h : MailHistory) (start : ChangeState) (items : List ItemData) (was now : Faults) (es : List Event)
        → before ≡ states.place_of method h → start.created ≡ created.old → is_current method a h ≡ true → ItemsOf method start.created a items
        → ChangesTo (call_of checks method a h start.created) items start.progress changed.entry.came machine.now changed.entry.client changed.entry.status was now es
        → AnswersTo checks method a h start result.answer created.new machine.now result.client result.status was now es }
    ensures status { result.status ≡ changed.entry.status }
    ensures whole { IfOk result.answer (λ value. has_float (view value) ≡ false) }
{
    let Changed {
        came,
        status,
        client,
    } = changed;
    match came {
        Ok(done) => Answered {
            answer: reply_after(alloc, machine, method, before, done.as_slice(), created),
            status,
            client,
        },
        Err(end) => Answered {
            answer: Err(error_of(end)),
            status,
            client,
        },
    }
}

/// The creation ids of what a call is to make, and its items in order.
#[derive(Drop)]
struct Prepared<'k> {
    keys: BTreeSet<&'k str>,
    items: Vec<Item<'k>>,
}

fn prepare<'k>(
    alloc: Global,
    method: SetMethod,
    created: &CreatedIds,
    asked: &SetAsked<'k>,
) -> Result<Prepared<'k>, AllocError>
    ensures { IfOk result (λ r. HasKeys r.keys (making (asked_data asked.now).create) × ItemsOf method created.now (asked_data asked.now) (map item_data r.items.items)) }
{
    let keys = creation_ids(alloc, &asked.create)?;
    let items = ordered_items(alloc, method, created, asked)?;
    Ok(Prepared { keys, items })
}

/// Does the items, and answers.
fn answer_items<'k, L: Link + Clock + Chance>(
    alloc: Global,
    machine: &mut Machine,
    client: Client,
    link: &mut L,
    method: SetMethod,
    before: u64,
    keys: &BTreeSet<&'k str>,
    checks: CallChecks<'_>,
    items: &[Item<'k>],
    created: &mut CreatedIds,
) -> Answered
    requires { IsSome machine.old.known }
    ensures run { Adds (L.tape link.old) (L.tape link.new) (λ es. (all : ItemChecks) (a : SetAskedData) (h : MailHistory) (start : ChangeState) (was : Faults)
        → all method a ≡ call_rules checks.entry → start.created ≡ created.old → before ≡ states.place_of method h → is_current method a h ≡ true
        → HasKeys keys.now (making a.create) → ItemsOf method start.created a (map item_data items.now) → IsServed h start.progress
        → CameTo machine.old client MailStatus.Stands was (L.faults link.old) start.progress
        → AnswersTo all method a h start result.answer created.new machine.new result.client result.status was (L.faults link.new) es) }
    ensures ready { result.status ≡ MailStatus.Stands → IsSome machine.new.known }
    ensures whole { IfOk result.answer (λ value. has_float (view value) ≡ false) }
    ensures alone { LinkAlone (L.faults link.old) (L.faults link.new) }
    ensures hidden { L.hidden link.new ≡ L.hidden link.old }
{
    let changed = change_mail(alloc, machine, client, link, created, keys, checks, items);
    answered_by(alloc, machine, method, before, changed, created)
}

/// Answers a call that names the state that there is, or none.
fn answer_current<L: Link + Clock + Chance>(
    alloc: Global,
    machine: &mut Machine,
    client: Client,
    link: &mut L,
    method: SetMethod,
    asked: &SetAsked<'_>,
    checks: CallChecks<'_>,
    created: &mut CreatedIds,
) -> Answered
    requires { IsSome machine.old.known }
    ensures run { Adds (L.tape link.old) (L.tape link.new) (λ es. (all : ItemChecks) (h : MailHistory) (start : ChangeState) (was : Faults)
        → all method (asked_data asked.now) ≡ call_rules checks.entry → start.created ≡ created.old → is_current method (asked_data asked.now) h ≡ true
        → IsServed h start.progress → CameTo machine.old client MailStatus.Stands was (L.faults link.old) start.progress
        → AnswersTo all method (asked_data asked.now) h start result.answer created.new machine.new result.client result.status was (L.faults link.new) es) }
    ensures ready { result.status ≡ MailStatus.Stands → IsSome machine.new.known }
    ensures whole { IfOk result.answer (λ value. has_float (view value) ≡ false) }
    ensures alone { LinkAlone (L.faults link.old) (L.faults link.new) }
    ensures hidden { L.hidden link.new ≡ L.hidden link.old }
{
    let before = place_of(method, state_of(machine));
    match prepare(alloc, method, created, asked) {
        Ok(Prepared { keys, items }) => answer_items(
            alloc,
            machine,
            client,
            link,
            method,
            before,
            &keys,
            checks,
            items.as_slice(),
            created,
        ),
        Err(_) => Answered {
            answer: Err(MethodError::Memory),
            status: MailStatus::Stands,
            client,
        },
    }
}

/// Answers a call of a changing method that asks this: its items are done over what the machine serves, in the client's link life, what
/// they told is served then, and the reply is read from that (RFC 8620 section 5.3). Where the state that it names isn't the one that
/// there is, nothing is asked of the outside.
pub fn answer_change<L: Link + Clock + Chance>(
    alloc: Global,
    machine: &mut Machine,
    client: Client,
    link: &mut L,
    method: SetMethod,
    asked: &SetAsked<'_>,
    checks: CallChecks<'_>,
    created: &mut CreatedIds,
) -> Answered
    requires { IsSome machine.old.known }
    ensures run { Adds (L.tape link.old) (L.tape link.new) (λ es. (all : ItemChecks) (h : MailHistory) (start : ChangeState) (was : Faults)
        → all method (asked_data asked.now) ≡ call_rules checks.entry → start.created ≡ created.old → IsServed h start.progress
        → CameTo machine.old client MailStatus.Stands was (L.faults link.old) start.progress
        → AnswersTo all method (asked_data asked.now) h start result.answer created.new machine.new result.client result.status was (L.faults link.new) es) }
    ensures ready { result.status ≡ MailStatus.Stands → IsSome machine.new.known }
    ensures whole { IfOk result.answer (λ value. has_float (view value) ≡ false) }
    ensures alone { LinkAlone (L.faults link.old) (L.faults link.new) }
    ensures hidden { L.hidden link.new ≡ L.hidden link.old }
{
    let current = is_at_state(method, asked, state_of(machine));
    if current {
        answer_current(alloc, machine, client, link, method, asked, checks, created)
    } else {
        Answered {
            answer: Err(MethodError::StateMismatch),
            status: MailStatus::Stands,
            client,
        }
    }
}
