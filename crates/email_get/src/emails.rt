// Email/get.
ghost use Rattle.std.specs.Prelude.{◌≡◌, ◌∷◌, ◌++◌, [], true, false, All, IfOk, IsSome, OnOk, map, option_map};
ghost use Rattle.std.specs.Map.{keys_of};
ghost use Rattle.std.specs.Option.{option_copied};
ghost use Rattle.serde_json.specs.Data.{string};
ghost use Rattle.serde_json.specs.View.{view, items_of};
ghost use Rattle.serde_json.specs.Written.{has_float, items_have_float};
ghost use Rattle.change_list.specs.Advance.{row_at};
ghost use Rattle.email_properties.specs.Wanted.{email_asked, needs_body as needs};
ghost use Rattle.jmap_arguments.specs.Gets.{get_data};
ghost use Rattle.jmap_arguments.specs.Outcome.{Agrees};
ghost use Rattle.jmap_arguments.specs.State.{state_text as text_of_state};
ghost use Rattle.jmap_arguments.specs.declared.method_error.MethodError.TheVariants.{Memory};
ghost use Rattle.mail_state.specs.History.{MailHistory};
ghost use Rattle.mail_state.specs.State.{IsStateOf};
ghost use Rattle.email_get.specs.Asked.{AsksAndMeets};
ghost use Rattle.email_get.specs.EmailGet.{AsksBody, RepliesEmailGet, ShowsEmail, ShowsRow, emails_asked, get_emails_asked, get_emails_refused};
ghost use Rattle.email_get.specs.Showing.{ShowsAll};

use crate::blobs::place_of;
use crate::refusals::error_of;
use email_bodies::BodySource;
use email_objects::email_value;
use email_properties::{Defaults, EmailWanted, email_wanted, needs_body};
use jmap_arguments::{
    AskedNumbers, EMAIL_LETTER, MethodError, asked_numbers, check_account, check_count,
    count_of_ids, get_value, text_at, texts_or_null,
};
use mail_maps::EmailRow;
use mail_state::{MailState, MailType};
use octets::Bytes;
use serde_json::Value;
use served_types::{TypeNumbers, type_text};
use std::alloc::{AllocError, Global};

/// What a call asks.
#[derive(Drop)]
struct Asked<'a> {
    ids: Option<Vec<&'a str>>,
    wanted: EmailWanted<'a>,
}

/// The checks in order: the arguments' kinds, the account, the count of ids.
fn asked_of<'a>(alloc: Global, arguments: &'a Value) -> Result<Asked<'a>, MethodError>
    ensures { Agrees Memory (λ a. record {
      ids = option_map (λ v. map (λ t. t.now) v.items) a.ids;
      wanted = email_asked a.wanted;
    }) result (get_emails_asked (view arguments.now)) }
{
    let account = text_at(arguments, "accountId")?;
    let ids = texts_or_null(alloc, arguments, "ids")?;
    let wanted = email_wanted(alloc, arguments, Defaults::Get)?;
    check_account(account)?;
    check_count(count_of_ids(&ids))?;
    Ok(Asked { ids, wanted })
}

/// The refusal of an Email/get by its arguments alone, which stands whatever mail there is.
pub fn check_email_get(alloc: Global, arguments: &Value) -> Result<(), MethodError>
    ensures { Agrees Memory (λ u. u) result (get_emails_refused (view arguments.now)) }
{
    // (only whether it is refused is told)
    let _asked = asked_of(alloc, arguments)?;
    Ok(())
}

/// The Emails that a call asks, and what of each.
#[derive(Drop)]
struct AskedEmails<'a> {
    asked: AskedNumbers<'a>,
    wanted: EmailWanted<'a>,
}

/// The Emails that are asked of the state.
fn asked_emails<'a>(
    alloc: Global,
    state: &MailState,
    arguments: &'a Value,
) -> Result<AskedEmails<'a>, MethodError>
    ensures asked { Agrees Memory (λ a. record {
      asked = record { numbers = a.asked.numbers.items; missing = map (λ t. t.now) a.asked.missing.items };
      wanted = email_asked a.wanted;
    }) result (emails_asked (keys_of state.now.rows.numbered.rows) (view arguments.now)) }
    ensures there { IfOk result (λ a. All (λ n. IsSome (row_at state.now.rows.numbered.rows n)) a.asked.numbers.items) }
{
    let Asked { ids, wanted } = asked_of(alloc, arguments)?;
    let kind = MailType::Email;
    let there = TypeNumbers { state, kind };
    let asked = asked_numbers(alloc, EMAIL_LETTER, &there, &ids)?;
    Ok(AskedEmails { asked, wanted })
}

/// The body of an Email, where a property that is wanted needs it.
fn body_for<W, B: BodySource<W>>(
    bodies: &mut B,
    world: &mut W,
    wanted: &EmailWanted<'_>,
    row: &EmailRow,
) -> Result<Option<Bytes>, MethodError>
    ensures asks { AsksAndMeets B.answers B.lacks (bodies.old, world.old) (bodies.new, world.new) Memory (λ o. o) result
        (AsksBody (email_asked wanted.now) row.now) }
    ensures there { IfOk result (λ o. needs (email_asked wanted.now) ≡ true → IsSome o) }
{
    if !needs_body(wanted) {
        return Ok(None);
    }
    match bodies.body(world, place_of(row)) {
        Ok(octets) => Ok(Some(octets)),
        Err(error) => Err(error_of(error)),
    }
}

/// An Email as an object.
fn row_value<W, B: BodySource<W>>(
    alloc: Global,
    bodies: &mut B,
    world: &mut W,
    wanted: &EmailWanted<'_>,
    row: &EmailRow,
) -> Result<Value, MethodError>
    ensures shows { AsksAndMeets B.answers B.lacks (bodies.old, world.old) (bodies.new, world.new) Memory view result
        (ShowsRow (email_asked wanted.now) row.now) }
    ensures whole { IfOk result (λ value. has_float (view value) ≡ false) }
{
    let body = body_for(bodies, world, wanted, row)?;
    Ok(email_value(alloc, row, octets_of(&body), wanted)?)
}

fn octets_of(body: &Option<Bytes>) -> Option<&[u8]>
    ensures { option_copied result ≡ body.now }
{
    match body {
        None => None,
        Some(octets) => Some(octets.as_slice()),
    }
}

fn add_object(list: &mut Vec<Value>, object: Value) -> Result<(), AllocError>
    ensures { OnOk result (list.new.items ≡ list.old.items ++ object ∷ []) }
{
    list.push(object)?;
    Ok(())
}

/// The Emails of these numbers as objects.
fn emails_at<W, B: BodySource<W>>(
    alloc: Global,
    state: &MailState,
    bodies: &mut B,
    world: &mut W,
    wanted: &EmailWanted<'_>,
    numbers: &[u64],
) -> Result<Vec<Value>, MethodError>
    requires { All (λ n. IsSome (row_at state.now.rows.numbered.rows n)) numbers.now }
    ensures shows { AsksAndMeets B.answers B.lacks (bodies.old, world.old) (bodies.new, world.new) Memory (λ v. map view v.items) result
        (ShowsAll (ShowsEmail state.now.rows.numbered.rows (email_asked wanted.now)) numbers.now) }
    ensures whole { IfOk result (λ v. items_have_float (items_of (map view v.items)) ≡ false) }
{
    let mut list = Vec::with_capacity(alloc, numbers.len())?;
    for number in numbers {
        let Some(row) = state.email(*number) else {
            unreachable!();
        };
        let object = row_value(alloc, bodies, world, wanted, row)?;
        add_object(&mut list, object)?;
    }
    Ok(list)
}

/// The answer, of these objects.
fn answer_of(
    alloc: Global,
    state: &MailState,
    list: Vec<Value>,
    missing: &Vec<&str>,
) -> Result<Value, AllocError>
    ensures { IfOk result (λ value. view value ≡ get_data
        (text_of_state (record { epoch = state.now.epoch; place = state.now.lists.email.place })) (map view list.items)
        (map string (map (λ t. t.now) missing.now.items))) }
{
    let text = type_text(alloc, state, MailType::Email)?;
    get_value(alloc, text.as_str(), list, missing)
}

/// Email/get (RFC 8621 section 4.2): as `mailbox_get`, of Emails. The body of each Email that is found is asked once, in the order asked,
/// where a property needs it, and let go before the next one is asked; `ServerUnavailable` comes where one doesn't come, and no further
/// one is asked.
pub fn email_get<W, B: BodySource<W>>(
    alloc: Global,
    state: &MailState,
    bodies: &mut B,
    world: &mut W,
    arguments: &Value,
) -> Result<Value, MethodError>
    ensures exact { AsksAndMeets B.answers B.lacks (bodies.old, world.old) (bodies.new, world.new) Memory view result
        (λ asks r. (h : MailHistory) → IsStateOf h state.now → RepliesEmailGet h (view arguments.now) asks r) }
    ensures whole { IfOk result (λ value. has_float (view value) ≡ false) }
{
    let AskedEmails { asked, wanted } = asked_emails(alloc, state, arguments)?;
    let AskedNumbers { numbers, missing } = asked;
    let list = emails_at(alloc, state, bodies, world, &wanted, numbers.as_slice())?;
    Ok(answer_of(alloc, state, list, &missing)?)
}
