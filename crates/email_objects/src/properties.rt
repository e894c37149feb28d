// The properties of an Email for which its body isn't needed.
ghost use Rattle.std.specs.Prelude.{◌≡◌, true, false, None, IfOk, OnOk, MatchOption};
ghost use Rattle.serde_json.specs.View.{view, members_view};
ghost use Rattle.email_properties.specs.EmailProperties.{is_of_body};
ghost use Rattle.mail_header.specs.Fields.{names_and_raws};
ghost use Rattle.field_values.specs.HeaderProperties as headers;
ghost use Rattle.body_parts.specs.reading.StepsIf.{StepIf};
ghost use Rattle.email_objects.specs.EmailObjects.{needs_no_body, without_body};
ghost use Rattle.email_objects.specs.Properties.{IsConvenienceData, IsEmailPropertyData, PutsEmailProperty, PutsEmailProperties};
ghost use Rattle.email_objects.specs.reading.Views.{facts_data};

use crate::facts::Facts;
use crate::metadata::{blob_id, email_id, keywords, mailbox_ids, received_at, thread_id};
use email_properties::{EmailProperty, email_key};
use field_values::{convenience, header_property, headers_value, last_value};
use mail_header::Fields;
use serde_json::{Map, Value, put};
use std::alloc::{AllocError, Global};

/// The value of a convenience property (RFC 8621 section 4.1.3). None of another property.
fn convenience_value(
    alloc: Global,
    fields: &Fields<'_>,
    property: &EmailProperty<'_>,
) -> Option<Result<Value, AllocError>>
    ensures { MatchOption result
        (headers.convenience property.now ≡ None)
        (λ r. IfOk r (λ value. IsConvenienceData (names_and_raws fields.now) property.now (view value))) }
{
    let (name, form) = convenience(property)?;
    Some(last_value(alloc, fields, name, form))
}

/// The value of a property. None of one for which the body is needed.
fn property_value(
    alloc: Global,
    facts: &Facts<'_>,
    property: &EmailProperty<'_>,
) -> Option<Result<Value, AllocError>>
    ensures { MatchOption result
        (is_of_body property.now ≡ true)
        (λ r. IfOk r (λ value. (is_of_body property.now ≡ false) × IsEmailPropertyData (facts_data facts.now) property.now (view value))) }
{
    match property {
        EmailProperty::Id => Some(email_id(alloc, facts.row)),
        EmailProperty::BlobId => Some(blob_id(alloc, facts.blob_id)),
        EmailProperty::ThreadId => Some(thread_id(alloc, facts.row)),
        EmailProperty::MailboxIds => Some(mailbox_ids(alloc, facts.row)),
        EmailProperty::Keywords => Some(keywords(alloc, facts.row)),
        EmailProperty::Size => Some(Ok(Value::from(facts.size))),
        EmailProperty::ReceivedAt => Some(received_at(alloc, facts.row)),
        EmailProperty::Headers => Some(headers_value(alloc, facts.fields.fields())),
        EmailProperty::Header(asked) => Some(header_property(alloc, &facts.fields, asked)),
        _ => convenience_value(alloc, facts.fields.fields(), property),
    }
}

/// Puts the property at its key, where the body isn't needed for it.
pub(crate) fn put_property(
    members: &mut Map<String, Value>,
    alloc: Global,
    facts: &Facts<'_>,
    property: &EmailProperty<'_>,
) -> Result<(), AllocError>
    ensures { OnOk result (StepIf needs_no_body (PutsEmailProperty (facts_data facts.now)) property.now (members_view members.old.entries) (members_view members.new.entries)) }
{
    match property_value(alloc, facts, property) {
        None => Ok(()),
        Some(value) => put(members, alloc, email_key(property), value?),
    }
}

/// Puts those of these for which the body isn't needed.
pub(crate) fn put_properties(
    members: &mut Map<String, Value>,
    alloc: Global,
    facts: &Facts<'_>,
    properties: &[EmailProperty<'_>],
) -> Result<(), AllocError>
    ensures { OnOk result (PutsEmailProperties (facts_data facts.now) (without_body properties.now) (members_view members.old.entries) (members_view members.new.entries)) }
{
    for property in properties {
        put_property(members, alloc, facts, property)?;
    }
    Ok(())
}
