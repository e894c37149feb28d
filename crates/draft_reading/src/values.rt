// Values of JSON by what they stand for; None stands for a value of another type (RFC 8621 section 4).
ghost use Rattle.std.specs.Prelude.{◌≡◌, true, option_map, IfOk, IfSome};
ghost use Rattle.std.specs.List.{list_all};
ghost use Rattle.std.specs.Str.{is_utf8};
ghost use Rattle.serde_json.specs.Find.{get, get_member, as_str};
ghost use Rattle.serde_json.specs.View.{view, items_view, members_view};
ghost use Rattle.mail_drafts.specs.Drafts.{is_text};
ghost use Rattle.mail_drafts.specs.Identifiers.{is_identifier, is_identifier_or_none};
ghost use Rattle.mail_drafts.specs.Lines.{is_line};
ghost use Rattle.mail_drafts.specs.Mailboxes.{is_line_or_none};
ghost use Rattle.draft_reading.specs.Values as values;

use crate::texts::{is_identifier, is_line};
use jmap_values::{moment_of_date, utc_seconds};
use octets::{Bytes, Names, Text};
use serde_json::{Map, Value};
use std::alloc::{AllocError, Global};
use zoned_moments::ZonedMoment;

/// The member of the name.
pub(crate) fn member<'a>(object: &'a Map<String, Value>, name: &str) -> Option<&'a Value>
    ensures { option_map (λ v. view v.now) result ≡ get_member name.now (members_view object.now.entries) }
{
    object.get(name)
}

/// An id.
fn id_in(value: &Value) -> Option<&str>
    ensures value { option_map (λ t. t.now) result ≡ values.id_in (view value.now) }
    ensures identifier { IfSome result (λ t. is_identifier t.now ≡ true) }
{
    let text = value.as_str()?;
    if is_identifier(text) {
        Some(text)
    } else {
        None
    }
}

/// A text without control characters.
fn line_in(value: &Value) -> Option<&str>
    ensures value { option_map (λ t. t.now) result ≡ values.line_in (view value.now) }
    ensures line { IfSome result (λ t. is_line t.now ≡ true) }
{
    let text = value.as_str()?;
    if is_line(text) { Some(text) } else { None }
}

/// The text at the key, which may be missing.
pub(crate) fn text_or_null<'a>(object: &'a Value, key: &str) -> Option<Option<&'a str>>
    ensures { option_map (λ o. option_map (λ t. t.now) o) result ≡ values.nullable as_str (get key.now (view object.now)) }
{
    match object.get(key) {
        None | Some(Value::Null) => Some(None),
        Some(value) => match value.as_str() {
            None => None,
            Some(text) => Some(Some(text)),
        },
    }
}

/// The text without control characters at the key, which may be missing.
pub(crate) fn line_or_null<'a>(object: &'a Value, key: &str) -> Option<Option<&'a str>>
    ensures value { option_map (λ o. option_map (λ t. t.now) o) result ≡ values.nullable values.line_in (get key.now (view object.now)) }
    ensures line { IfSome result (λ o. is_line_or_none (option_map (λ t. t.now) o) ≡ true) }
{
    match object.get(key) {
        None | Some(Value::Null) => Some(None),
        Some(value) => match line_in(value) {
            None => None,
            Some(text) => Some(Some(text)),
        },
    }
}

/// The id at the key, which may be missing.
pub(crate) fn id_or_null<'a>(object: &'a Value, key: &str) -> Option<Option<&'a str>>
    ensures value { option_map (λ o. option_map (λ t. t.now) o) result ≡ values.nullable values.id_in (get key.now (view object.now)) }
    ensures identifier { IfSome result (λ o. is_identifier_or_none (option_map (λ t. t.now) o) ≡ true) }
{
    match object.get(key) {
        None | Some(Value::Null) => Some(None),
        Some(value) => match id_in(value) {
            None => None,
            Some(text) => Some(Some(text)),
        },
    }
}

/// The text itself, where there is one.
pub(crate) fn text_of(alloc: Global, text: Option<&str>) -> Result<Option<Text>, AllocError>
    ensures value { IfOk result (λ o. o ≡ option_map (λ t. t.now) text.entry) }
    ensures utf8 { IfOk result (λ o. is_text o ≡ true) }
{
    match text {
        None => Ok(None),
        Some(text) => Ok(Some(copied(alloc, text)?)),
    }
}

fn copied(alloc: Global, text: &str) -> Result<Text, AllocError>
    ensures value { IfOk result (λ t. t ≡ text.now) }
    ensures utf8 { IfOk result (λ t. is_utf8 t ≡ true) }
{
    Text::copy_of(alloc, text)
}

/// A list of ids.
pub(crate) fn ids_in(alloc: Global, value: &Value) -> Result<Option<Names>, AllocError>
    ensures value { IfOk result (λ o. o ≡ values.list_in values.id_in (view value.now)) }
    ensures identifiers { IfOk result (λ o. IfSome o (λ ids. list_all is_identifier ids ≡ true)) }
{
    let Some(items) = value.as_array() else {
        return Ok(None);
    };
    each_id(alloc, items)
}

fn each_id(alloc: Global, items: &Vec<Value>) -> Result<Option<Names>, AllocError>
    ensures value { IfOk result (λ o. o ≡ values.each_in values.id_in (items_view items.now.items)) }
    ensures identifiers { IfOk result (λ o. IfSome o (λ ids. list_all is_identifier ids ≡ true)) }
{
    let mut ids = Names::new(alloc);
    for item in items {
        let Some(id) = id_in(item) else {
            return Ok(None);
        };
        ids.push(Bytes::copy_of(alloc, id.as_bytes())?)?;
    }
    Ok(Some(ids))
}

/// A date in its zone.
pub(crate) fn date_in(value: &Value) -> Option<ZonedMoment>
    ensures { option_map (λ z. z.moment) result ≡ values.date_in (view value.now) }
{
    moment_of_date(value.as_str()?.as_bytes())
}

/// Whether the value is a date in UTC.
pub(crate) fn is_utc_date(value: &Value) -> bool
    ensures { result ≡ values.is_utc_date (view value.now) }
{
    match value.as_str() {
        None => false,
        Some(text) => utc_seconds(text.as_bytes()).is_some(),
    }
}

pub(crate) fn is_true(value: &Value) -> bool
    ensures { result ≡ values.is_true (view value.now) }
{
    match value {
        Value::Bool(truth) => *truth,
        _ => false,
    }
}
