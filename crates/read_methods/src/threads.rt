// Thread/get.
ghost use Rattle.std.specs.Prelude.{◌≡◌, false, IfOk, map, option_map, codes};
ghost use Rattle.std.specs.BTreeMap.{is_at};
ghost use Rattle.std.specs.List.{filter_map, list_all};
ghost use Rattle.std.specs.Map.{lookup};
ghost use Rattle.std.specs.Ordering.{nat_cmp};
ghost use Rattle.serde_json.specs.View.{view};
ghost use Rattle.serde_json.specs.Written.{has_float};
ghost use Rattle.jmap_arguments.specs.Arguments.{texts_at};
ghost use Rattle.jmap_arguments.specs.Outcome.{Agrees};
ghost use Rattle.jmap_arguments.specs.State.{state_text as text_of_state};
ghost use Rattle.jmap_arguments.specs.declared.method_error.MethodError.TheVariants.{Memory};
ghost use Rattle.served_maps.specs.Past.{served};
ghost use Rattle.mail_maps.specs.Serve.{thread_of};
ghost use Rattle.mail_state.specs.History.{MailHistory};
ghost use Rattle.mail_state.specs.State.{IsStateOf};
ghost use Rattle.read_methods.specs.Replies.{thread_get_reply};
ghost use Rattle.read_methods.specs.Threads as spec;
ghost use Rattle.read_methods.specs.Threads.{is_thread_property, thread_objects, threads_answer};

use jmap_arguments::{
    AskedNumbers, EMAIL_LETTER, MethodError, THREAD_LETTER, asked_numbers, check_account,
    check_count, count_of_ids, get_value, id_list, id_value, is_among, text_at, texts_or_null,
};
use mail_state::{MailState, MailType};
use serde_json::{Map, Value, put};
use served_types::{TypeNumbers, type_text};
use std::alloc::{AllocError, Global};

/// What a call asks.
#[derive(Drop)]
struct Asked<'a> {
    ids: Option<Vec<&'a str>>,
    /// Whether the ids of the Emails are wanted. The Thread's own id always is.
    emails: bool,
}

/// Whether they are all names of properties of a Thread.
fn are_properties(names: &Vec<&str>) -> bool
    ensures { result ≡ list_all is_thread_property (map (λ t. t.now) names.now.items) }
{
    for name in names {
        if *name != "id" && *name != "emailIds" {
            return false;
        }
    }
    true
}

fn emails_wanted(alloc: Global, arguments: &Value) -> Result<bool, MethodError>
    ensures { Agrees Memory (λ b. b) result (spec.emails_wanted_from (texts_at (codes "properties") (view arguments.now))) }
{
    let Some(names) = texts_or_null(alloc, arguments, "properties")? else {
        return Ok(true);
    };
    if are_properties(&names) {
        Ok(is_among("emailIds", &names))
    } else {
        Err(MethodError::InvalidArguments)
    }
}

/// The checks in order: the arguments' kinds, the account, the count of ids.
fn asked_of<'a>(alloc: Global, arguments: &'a Value) -> Result<Asked<'a>, MethodError>
    ensures { Agrees Memory (λ a. record {
      ids = option_map (λ v. map (λ t. t.now) v.items) a.ids;
      wanted = a.emails;
    }) result (spec.threads_asked (view arguments.now)) }
{
    let account = text_at(arguments, "accountId")?;
    let ids = texts_or_null(alloc, arguments, "ids")?;
    let emails = emails_wanted(alloc, arguments)?;
    check_account(account)?;
    check_count(count_of_ids(&ids))?;
    Ok(Asked { ids, emails })
}

/// The refusal of a Thread/get by its arguments alone, which stands whatever mail there is.
pub fn check_thread_get(alloc: Global, arguments: &Value) -> Result<(), MethodError>
    ensures { Agrees Memory (λ u. u) result (spec.threads_refused (view arguments.now)) }
{
    // (only whether it is refused is told)
    let _asked = asked_of(alloc, arguments)?;
    Ok(())
}

fn thread_value(
    alloc: Global,
    wanted: bool,
    number: u64,
    emails: &[u64],
) -> Result<Value, AllocError>
    ensures { IfOk result (λ value. view value ≡ spec.thread_data wanted (number, emails.now)) }
{
    let id = id_value(alloc, THREAD_LETTER, number)?;
    let mut members = Map::new(alloc);
    put(&mut members, alloc, "id", id)?;
    if wanted {
        let ids = id_list(alloc, EMAIL_LETTER, emails)?;
        put(&mut members, alloc, "emailIds", ids)?;
    }
    Ok(Value::Object(members))
}

/// The Thread of this number, with the ids of its Emails where these are wanted, where there is one.
fn thread_at(
    alloc: Global,
    state: &MailState,
    wanted: bool,
    number: u64,
) -> Result<Option<Value>, AllocError>
    ensures { IfOk result (λ o. option_map view o
        ≡ lookup (is_at (nat_cmp number)) (thread_objects (served thread_of state.now.rows.threads) wanted)) }
{
    match state.thread(number) {
        None => Ok(None),
        Some(emails) => Ok(Some(thread_value(alloc, wanted, number, emails)?)),
    }
}

/// The Threads of these numbers.
fn threads_at(
    alloc: Global,
    state: &MailState,
    wanted: bool,
    numbers: &[u64],
) -> Result<Vec<Value>, AllocError>
    ensures { IfOk result (λ v. map view v.items
        ≡ filter_map (λ n. lookup (is_at (nat_cmp n)) (thread_objects (served thread_of state.now.rows.threads) wanted)) numbers.now) }
{
    let mut list = Vec::with_capacity(alloc, numbers.len())?;
    for number in numbers {
        match thread_at(alloc, state, wanted, *number)? {
            None => {}
            Some(object) => list.push(object)?,
        }
    }
    Ok(list)
}

/// The answer over the rows of the state.
fn answer(alloc: Global, state: &MailState, arguments: &Value) -> Result<Value, MethodError>
    ensures { Agrees Memory view result (threads_answer (text_of_state (record { epoch = state.now.epoch; place = state.now.lists.thread.place }))
        (served thread_of state.now.rows.threads) (view arguments.now)) }
{
    let Asked { ids, emails } = asked_of(alloc, arguments)?;
    let kind = MailType::Thread;
    let there = TypeNumbers { state, kind };
    let AskedNumbers { numbers, missing } = asked_numbers(alloc, THREAD_LETTER, &there, &ids)?;
    let list = threads_at(alloc, state, emails, numbers.as_slice())?;
    let text = type_text(alloc, state, kind)?;
    Ok(get_value(alloc, text.as_str(), list, &missing)?)
}

/// Thread/get (RFC 8621 section 3.1): as `mailbox_get`, of Threads, each with its Emails by when they were received.
pub fn thread_get(alloc: Global, state: &MailState, arguments: &Value) -> Result<Value, MethodError>
    ensures exact { (h : MailHistory) → IsStateOf h state.now → Agrees Memory view result (thread_get_reply h (view arguments.now)) }
    ensures whole { IfOk result (λ value. has_float (view value) ≡ false) }
{
    answer(alloc, state, arguments)
}
