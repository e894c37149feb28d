// Emails, and octets that are no Email, as objects.
ghost use Rattle.std.specs.Prelude.{◌≡◌, true, false, IsSome, IfOk};
ghost use Rattle.std.specs.Option.{option_copied};
ghost use Rattle.serde_json.specs.View.{view, members_view};
ghost use Rattle.serde_json.specs.Written.{has_float};
ghost use Rattle.email_properties.specs.Wanted as wants;
ghost use Rattle.email_properties.specs.Wanted.{email_asked};
ghost use Rattle.body_parts.specs.Messages.{message_data};
ghost use Rattle.email_objects.specs.EmailObjects.{IsEmailObject, IsParsedObject};
ghost use Rattle.email_objects.specs.Facts.{row_blob_id};
ghost use Rattle.email_objects.specs.reading.ToldMembers.{TellsMessage, TellsRow};

use crate::bodies::{put_body, put_row_body};
use crate::facts::{message_facts, row_facts};
use crate::properties::{put_properties, put_property};
use body_parts::ParsedMessage;
use email_properties::{EmailProperty, EmailWanted};
use jmap_arguments::id_text;
use mail_maps::EmailRow;
use message_blobs::EMAIL_ROOT;
use serde_json::{Map, Value};
use std::alloc::{AllocError, Global};

/// The members of an Email that its row tells, its id among them.
fn row_members(
    alloc: Global,
    row: &EmailRow,
    blob_id: &[u8],
    properties: &[EmailProperty<'_>],
) -> Result<Map<String, Value>, AllocError>
    requires { blob_id.now ≡ row_blob_id row.now }
    ensures { IfOk result (λ members. TellsRow row.now properties.now (members_view members.entries)) }
{
    let facts = row_facts(alloc, row, blob_id, properties)?;
    let mut members = Map::new(alloc);
    put_property(&mut members, alloc, &facts, &EmailProperty::Id)?;
    put_properties(&mut members, alloc, &facts, properties)?;
    Ok(members)
}

/// The members of octets that are no Email for which their body isn't needed.
fn message_members(
    alloc: Global,
    blob_id: Option<&[u8]>,
    message: &ParsedMessage<'_>,
    properties: &[EmailProperty<'_>],
) -> Result<Map<String, Value>, AllocError>
    ensures { IfOk result (λ members. TellsMessage (option_copied blob_id.entry) (message_data message.now) properties.now (members_view members.entries)) }
{
    let facts = message_facts(alloc, blob_id, message, properties)?;
    let mut members = Map::new(alloc);
    put_properties(&mut members, alloc, &facts, properties)?;
    Ok(members)
}

/// The object of an Email with the properties that are asked, and with its id, as an Email/get answers it (RFC 8621 section 4.2). The
/// octets of its message are the body, which may be missing where no property of it is asked. The header is that of the row, and is read
/// where a property of the header is asked.
pub fn email_value(
    alloc: Global,
    row: &EmailRow,
    body: Option<&[u8]>,
    wanted: &EmailWanted<'_>,
) -> Result<Value, AllocError>
    requires { wants.needs_body (email_asked wanted.now) ≡ true → IsSome body }
    ensures object { IfOk result (λ value. IsEmailObject row.now (option_copied body.entry) (email_asked wanted.now) (view value)) }
    ensures whole { IfOk result (λ value. has_float (view value) ≡ false) }
{
    let blob_id = id_text(alloc, EMAIL_ROOT, row.number)?;
    let mut members = row_members(alloc, row, blob_id.as_bytes(), wanted.properties.as_slice())?;
    put_row_body(&mut members, alloc, body, blob_id.as_bytes(), wanted)?;
    Ok(Value::Object(members))
}

/// The object of octets that are no Email with the properties that are asked, as an Email/parse answers it (RFC 8621 section 4.9). Any
/// octets are a message. Its blob id may be one that leaves no number for its parts; they have their ids from the message's.
pub fn parsed_value(
    alloc: Global,
    blob_id: Option<&[u8]>,
    message: &ParsedMessage<'_>,
    wanted: &EmailWanted<'_>,
) -> Result<Value, AllocError>
    ensures object { IfOk result (λ value. IsParsedObject (option_copied blob_id.entry) (message_data message.now) (email_asked wanted.now) (view value)) }
    ensures whole { IfOk result (λ value. has_float (view value) ≡ false) }
{
    let mut members = message_members(alloc, blob_id, message, wanted.properties.as_slice())?;
    put_body(&mut members, alloc, message, wanted)?;
    Ok(Value::Object(members))
}
