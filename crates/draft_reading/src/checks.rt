// Which values the properties of an Email that is to be created may have (RFC 8621 sections 4.1 and 4.6).
ghost use Rattle.std.specs.Prelude.{◌≡◌, ◌&&◌, ◌↔◌, IsTrue, IfOk, IfSome, IfNone, is_some};
ghost use Rattle.serde_json.specs.View.{view, members_view};
ghost use Rattle.draft_reading.specs.Parts as parts;
ghost use Rattle.draft_reading.specs.Properties.{AreSomeAddresses, Allows, IsAllowed, IsFirstRefused, NoneRefused, any_key};
ghost use Rattle.draft_reading.specs.Values as values;
ghost use Rattle.jmap_values.specs.Keywords.{is_keyword};

use crate::attachments::attachments_in;
use crate::mailboxes::mailboxes_in;
use crate::parts::{body_value_in, text_list_in};
use crate::property::{Property, property_named};
use crate::values::{date_in, ids_in, is_true, is_utc_date};
use jmap_values::is_keyword;
use serde_json::{Map, Value};
use std::alloc::{AllocError, Global};

fn is_keyword_set(members: &Map<String, Value>) -> bool
    ensures { result ≡ values.each_member (λ k v. is_keyword k && values.is_true v) (members_view members.now.entries) }
{
    for (key, value) in members.iter() {
        if !(is_keyword(key.as_bytes()) && is_true(value)) {
            return false;
        }
    }
    true
}

fn is_set(members: &Map<String, Value>) -> bool
    ensures { result ≡ values.each_member (λ k v. any_key k && values.is_true v) (members_view members.now.entries) }
{
    for (_key, value) in members.iter() {
        if !is_true(value) {
            return false;
        }
    }
    true
}

fn are_body_values(members: &Map<String, Value>) -> bool
    ensures { result ≡ values.each_member (λ k v. parts.is_body_value v) (members_view members.now.entries) }
{
    for (_key, value) in members.iter() {
        if body_value_in(value).is_none() {
            return false;
        }
    }
    true
}

fn are_keywords(value: &Value) -> bool
    ensures { result ≡ values.is_set_of is_keyword (view value.now) }
{
    match value.as_object() {
        None => false,
        Some(members) => is_keyword_set(members),
    }
}

fn are_mailbox_ids(value: &Value) -> bool
    ensures { result ≡ values.is_set_of any_key (view value.now) }
{
    match value.as_object() {
        None => false,
        Some(members) => is_set(members),
    }
}

fn are_values(value: &Value) -> bool
    ensures { result ≡ values.is_object_of (λ k v. parts.is_body_value v) (view value.now) }
{
    match value.as_object() {
        None => false,
        Some(members) => are_body_values(members),
    }
}

fn are_addresses(alloc: Global, value: &Value) -> Result<bool, AllocError>
    ensures { IfOk result (λ b. IsTrue b ↔ AreSomeAddresses (view value.now)) }
{
    Ok(mailboxes_in(alloc, value)?.is_some())
}

fn are_ids(alloc: Global, value: &Value) -> Result<bool, AllocError>
    ensures { IfOk result (λ b. IsTrue b ↔ IsTrue (is_some (values.list_in values.id_in (view value.now)))) }
{
    Ok(ids_in(alloc, value)?.is_some())
}

fn are_attachments(alloc: Global, value: &Value) -> Result<bool, AllocError>
    ensures { IfOk result (λ b. IsTrue b ↔ IsTrue (is_some (values.list_in parts.attachment_in (view value.now)))) }
{
    Ok(attachments_in(alloc, value)?.is_some())
}

fn is_text_list(all: &Map<String, Value>, wanted: &str, value: &Value) -> bool
    ensures { result ≡ is_some (parts.text_list_in (members_view all.now.entries) wanted.now (view value.now)) }
{
    text_list_in(all, wanted, value).is_some()
}

/// Whether the property may have the value, which isn't null.
#[tactic(auto, unfolding(crate::specs::Properties::Allows))]
fn allows(
    alloc: Global,
    all: &Map<String, Value>,
    property: Property,
    value: &Value,
) -> Result<bool, AllocError>
    ensures { IfOk result (λ b. IsTrue b ↔ Allows (members_view all.now.entries) property (view value.now)) }
{
    match property {
        Property::MessageId | Property::InReplyTo | Property::References => are_ids(alloc, value),
        Property::From
        | Property::Sender
        | Property::ReplyTo
        | Property::To
        | Property::Cc
        | Property::Bcc => are_addresses(alloc, value),
        Property::Attachments => are_attachments(alloc, value),
        Property::BodyValues => Ok(are_values(value)),
        Property::HtmlBody => Ok(is_text_list(all, "text/html", value)),
        Property::Keywords => Ok(are_keywords(value)),
        Property::MailboxIds => Ok(are_mailbox_ids(value)),
        Property::ReceivedAt => Ok(is_utc_date(value)),
        Property::SentAt => Ok(date_in(value).is_some()),
        Property::Subject => Ok(value.as_str().is_some()),
        Property::TextBody => Ok(is_text_list(all, "text/plain", value)),
    }
}

/// Whether the property is one of a draft's, with a value that it may have.
fn is_allowed(
    alloc: Global,
    all: &Map<String, Value>,
    key: &str,
    value: &Value,
) -> Result<bool, AllocError>
    ensures { IfOk result (λ b. IsTrue b ↔ IsAllowed (members_view all.now.entries) key.now (view value.now)) }
{
    let Some(property) = property_named(key) else {
        return Ok(false);
    };
    if value.is_null() {
        return Ok(true);
    }
    allows(alloc, all, property, value)
}

/// The first property that is refused, in the order of their names' octets.
pub(crate) fn first_refused<'a>(
    alloc: Global,
    all: &'a Map<String, Value>,
) -> Result<Option<&'a str>, AllocError>
    ensures none { IfOk result (λ o. IfNone o (NoneRefused (members_view all.now.entries))) }
    ensures some { IfOk result (λ o. IfSome o (λ key. IsFirstRefused (members_view all.now.entries) key.now)) }
{
    for (key, value) in all.iter() {
        let allowed = is_allowed(alloc, all, key.as_str(), value)?;
        if !allowed {
            return Ok(Some(key.as_str()));
        }
    }
    Ok(None)
}
