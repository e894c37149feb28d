// Mailbox/get.
ghost use Rattle.std.specs.Prelude.{◌≡◌, false, IfOk, map, option_map, codes};
ghost use Rattle.std.specs.BTreeMap.{is_at};
ghost use Rattle.std.specs.List.{filter_map};
ghost use Rattle.std.specs.Map.{lookup};
ghost use Rattle.std.specs.Ordering.{nat_cmp};
ghost use Rattle.serde_json.specs.View.{view};
ghost use Rattle.serde_json.specs.Written.{has_float};
ghost use Rattle.jmap_arguments.specs.Arguments.{texts_at};
ghost use Rattle.jmap_arguments.specs.Outcome.{Agrees};
ghost use Rattle.jmap_arguments.specs.State.{state_text as text_of_state};
ghost use Rattle.jmap_arguments.specs.declared.method_error.MethodError.TheVariants.{Memory};
ghost use Rattle.served_maps.specs.Past.{served};
ghost use Rattle.mail_maps.specs.Serve.{mailbox_of};
ghost use Rattle.mail_state.specs.History.{MailHistory};
ghost use Rattle.mail_state.specs.State.{IsStateOf};
ghost use Rattle.read_methods.specs.Mailboxes as spec;
ghost use Rattle.read_methods.specs.Mailboxes.{mailbox_objects, mailboxes_answer};
ghost use Rattle.read_methods.specs.Replies.{mailbox_get_reply};

use crate::mailbox_property::{MailboxProperty, all_properties, are_names_in, those_named};
use crate::mailbox_values::mailbox_value;
use jmap_arguments::{
    AskedNumbers, MAILBOX_LETTER, MethodError, asked_numbers, check_account, check_count,
    count_of_ids, get_value, text_at, texts_or_null,
};
use mail_state::{MailState, MailType};
use serde_json::Value;
use served_types::{TypeNumbers, type_text};
use std::alloc::{AllocError, Global};

/// What a call asks.
#[derive(Drop)]
struct Asked<'a> {
    ids: Option<Vec<&'a str>>,
    properties: Vec<MailboxProperty>,
}

/// The properties that are wanted: all, where none are named.
fn properties_at(alloc: Global, arguments: &Value) -> Result<Vec<MailboxProperty>, MethodError>
    ensures { Agrees Memory (λ v. v.items) result (spec.wanted_from (texts_at (codes "properties") (view arguments.now))) }
{
    let all = all_properties(alloc)?;
    let Some(names) = texts_or_null(alloc, arguments, "properties")? else {
        return Ok(all);
    };
    if are_names_in(all.as_slice(), &names) {
        Ok(those_named(alloc, all.as_slice(), &names)?)
    } else {
        Err(MethodError::InvalidArguments)
    }
}

/// The checks in order: the arguments' kinds, the account, the count of ids.
fn asked_of<'a>(alloc: Global, arguments: &'a Value) -> Result<Asked<'a>, MethodError>
    ensures { Agrees Memory (λ a. record {
      ids = option_map (λ v. map (λ t. t.now) v.items) a.ids;
      wanted = a.properties.items;
    }) result (spec.mailboxes_asked (view arguments.now)) }
{
    let account = text_at(arguments, "accountId")?;
    let ids = texts_or_null(alloc, arguments, "ids")?;
    let properties = properties_at(alloc, arguments)?;
    check_account(account)?;
    check_count(count_of_ids(&ids))?;
    Ok(Asked { ids, properties })
}

/// The refusal of a Mailbox/get by its arguments alone, which stands whatever mail there is.
pub fn check_mailbox_get(alloc: Global, arguments: &Value) -> Result<(), MethodError>
    ensures { Agrees Memory (λ u. u) result (spec.mailboxes_refused (view arguments.now)) }
{
    // (only whether it is refused is told)
    let _asked = asked_of(alloc, arguments)?;
    Ok(())
}

/// The Mailbox of this number with the properties that are wanted, where there is one.
fn mailbox_at(
    alloc: Global,
    state: &MailState,
    wanted: &[MailboxProperty],
    number: u64,
) -> Result<Option<Value>, AllocError>
    ensures { IfOk result (λ o. option_map view o
        ≡ lookup (is_at (nat_cmp number)) (mailbox_objects (served mailbox_of state.now.rows.mailboxes) wanted.now)) }
{
    match state.mailbox(number) {
        None => Ok(None),
        Some(mailbox) => Ok(Some(mailbox_value(alloc, wanted, number, mailbox)?)),
    }
}

/// The Mailboxes of these numbers.
fn mailboxes_at(
    alloc: Global,
    state: &MailState,
    wanted: &[MailboxProperty],
    numbers: &[u64],
) -> Result<Vec<Value>, AllocError>
    ensures { IfOk result (λ v. map view v.items
        ≡ filter_map (λ n. lookup (is_at (nat_cmp n)) (mailbox_objects (served mailbox_of state.now.rows.mailboxes) wanted.now)) numbers.now) }
{
    let mut list = Vec::with_capacity(alloc, numbers.len())?;
    for number in numbers {
        match mailbox_at(alloc, state, wanted, *number)? {
            None => {}
            Some(object) => list.push(object)?,
        }
    }
    Ok(list)
}

/// The answer over the rows of the state.
fn answer(alloc: Global, state: &MailState, arguments: &Value) -> Result<Value, MethodError>
    ensures { Agrees Memory view result (mailboxes_answer (text_of_state (record { epoch = state.now.epoch; place = state.now.lists.mailbox.place }))
        (served mailbox_of state.now.rows.mailboxes) (view arguments.now)) }
{
    let Asked { ids, properties } = asked_of(alloc, arguments)?;
    let kind = MailType::Mailbox;
    let there = TypeNumbers { state, kind };
    let AskedNumbers { numbers, missing } = asked_numbers(alloc, MAILBOX_LETTER, &there, &ids)?;
    let list = mailboxes_at(alloc, state, properties.as_slice(), numbers.as_slice())?;
    let text = type_text(alloc, state, kind)?;
    Ok(get_value(alloc, text.as_str(), list, &missing)?)
}

/// Mailbox/get (RFC 8621 section 2.1): the Mailboxes asked, each once, in the order asked, with the properties asked, and the ids
/// of which there is none. `InvalidArguments`, `AccountNotFound` and `RequestTooLarge` come in this order, the last for more than
/// `MAX_OBJECTS_IN_GET` ids, and for `ids` null where there are more Mailboxes.
pub fn mailbox_get(
    alloc: Global,
    state: &MailState,
    arguments: &Value,
) -> Result<Value, MethodError>
    ensures exact { (h : MailHistory) → IsStateOf h state.now → Agrees Memory view result (mailbox_get_reply h (view arguments.now)) }
    ensures whole { IfOk result (λ value. has_float (view value) ≡ false) }
{
    answer(alloc, state, arguments)
}
