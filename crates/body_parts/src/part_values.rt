// The properties of a part (RFC 8621 section 4.1.4, EmailBodyPart).
ghost use Rattle.std.specs.Prelude.{◌≡◌, ◌++◌, IfOk};
ghost use Rattle.std.specs.Option.{option_copied};
ghost use Rattle.serde_json.specs.View.{view};
ghost use Rattle.mime_tree.specs.Parts.{IsWithin};
ghost use Rattle.json_texts.specs.Texts.{text_data};
ghost use Rattle.message_blobs.specs.BlobIds.{leaf_text};
ghost use Rattle.body_parts.specs.Messages.{message_data};
ghost use Rattle.body_parts.specs.PartObjects as objects;
ghost use Rattle.body_parts.specs.reading.OwnHeaders.{HasHeaderIf, is_of_header};

use crate::languages::language_value;
use crate::message::ParsedMessage;
use email_properties::PartProperty;
use field_values::{NamedFields, header_property, headers_value};
use json_texts::{optional_text_value, owned_text_value, text_value};
use message_blobs::LEAF_MARK;
use mime_tree::{Part, part_len};
use serde_json::Value;
use std::alloc::{AllocError, Global};

/// The number of a leaf as a text, or null.
pub(crate) fn part_id_value(alloc: Global, number: Option<u64>) -> Result<Value, AllocError>
    ensures { IfOk result (λ v. view v ≡ objects.part_id number) }
{
    match number {
        None => Ok(Value::Null),
        Some(number) => Ok(Value::String(format!(in alloc; "{number}")?)),
    }
}

/// The blob id of the leaf of this number in the message with this one.
fn leaf_id_value(alloc: Global, id: &[u8], number: u64) -> Result<Value, AllocError>
    ensures { IfOk result (λ v. view v ≡ text_data (id.now ++ leaf_text number)) }
{
    let number = format!(in alloc; "{number}")?;
    let len = id.len().saturating_add(number.len()).saturating_add(1);
    let mut text = Vec::with_capacity(alloc, len)?;
    text.extend_from_slice(id)?;
    text.push(LEAF_MARK)?;
    text.extend_from_slice(number.as_bytes())?;
    owned_text_value(alloc, text)
}

/// The blob id of a part of this number, or null.
fn blob_id_value(alloc: Global, id: Option<&[u8]>, number: Option<u64>) -> Result<Value, AllocError>
    ensures { IfOk result (λ v. view v ≡ objects.part_blob_id (option_copied id.entry) number) }
{
    let Some(id) = id else {
        return Ok(Value::Null);
    };
    match number {
        None => Ok(Value::Null),
        Some(number) => leaf_id_value(alloc, id, number),
    }
}

/// How many octets a part spells.
fn size_value(octets: &[u8], part: &Part) -> Value
    requires { IsWithin part.now octets.now }
    ensures { objects.IsSizeData octets.now part.now (view result) }
{
    Value::from(part_len(octets, part) as u64)
}

/// The data of a property of a part of the message, but for the parts in it. The fields are those of the part's own header, where the
/// property needs them.
pub(crate) fn property_value(
    alloc: Global,
    message: &ParsedMessage<'_>,
    part: &Part,
    fields: &NamedFields<'_>,
    property: &PartProperty<'_>,
) -> Result<Value, AllocError>
    requires within { IsWithin part.now message.now.octets.now }
    requires header { HasHeaderIf (is_of_header property.now) message.now.octets.now part.now fields.now }
    ensures { IfOk result (λ v. objects.IsPropertyData (message_data message.now) part.now property.now (view v)) }
{
    match property {
        PartProperty::PartId => part_id_value(alloc, part.number),
        PartProperty::BlobId => blob_id_value(alloc, message.id, part.number),
        PartProperty::Size => Ok(size_value(message.octets, part)),
        PartProperty::Name => optional_text_value(alloc, &part.name),
        PartProperty::Type => text_value(alloc, part.media.as_slice()),
        PartProperty::Charset => optional_text_value(alloc, &part.charset),
        PartProperty::Disposition => optional_text_value(alloc, &part.disposition),
        PartProperty::Cid => optional_text_value(alloc, &part.cid),
        PartProperty::Language => language_value(alloc, &part.language),
        PartProperty::Location => optional_text_value(alloc, &part.location),
        PartProperty::SubParts => Ok(Value::Null),
        PartProperty::Headers => headers_value(alloc, fields.fields()),
        PartProperty::Header(asked) => header_property(alloc, fields, asked),
    }
}
