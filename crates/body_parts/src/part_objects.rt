// The objects of parts (RFC 8621 section 4.1.4, EmailBodyPart).
ghost use Rattle.std.specs.Prelude.{◌≡◌, ◌∷◌, [], IfOk, OnOk, map};
ghost use Rattle.serde_json.specs.Data.{no_members, object};
ghost use Rattle.serde_json.specs.View.{view, members_view};
ghost use Rattle.mime_tree.specs.Parts.{IsWithin};
ghost use Rattle.body_parts.specs.Messages.{message_data};
ghost use Rattle.body_parts.specs.PartObjects as objects;
ghost use Rattle.body_parts.specs.PartObjects.{AreObjects};
ghost use Rattle.body_parts.specs.reading.LeafLists.{parts_of, parts_at, IsAllWithin, AreAllWithin};
ghost use Rattle.body_parts.specs.reading.OwnHeaders.{HasHeaderIf, is_of_header};

use crate::leaves::leaf_at;
use crate::message::ParsedMessage;
use crate::own_headers::own_fields;
use crate::part_values::property_value;
use email_properties::{PartProperty, part_key};
use field_values::NamedFields;
use mime_tree::Part;
use serde_json::{Map, Value, put};
use std::alloc::{AllocError, Global};

/// Puts a property of a part at its key.
fn put_property(
    members: &mut Map<String, Value>,
    alloc: Global,
    message: &ParsedMessage<'_>,
    part: &Part,
    fields: &NamedFields<'_>,
    property: &PartProperty<'_>,
) -> Result<(), AllocError>
    requires within { IsWithin part.now message.now.octets.now }
    requires header { HasHeaderIf (is_of_header property.now) message.now.octets.now part.now fields.now }
    ensures { OnOk result (objects.PutsProperty (message_data message.now) part.now property.now (members_view members.old.entries) (members_view members.new.entries)) }
{
    let value = property_value(alloc, message, part, fields, property)?;
    put(members, alloc, part_key(property), value)
}

/// The asked properties of a part, but for the parts in it. Its header is read once, where one of them needs it.
fn own_members(
    alloc: Global,
    message: &ParsedMessage<'_>,
    part: &Part,
    asked: &[PartProperty<'_>],
) -> Result<Map<String, Value>, AllocError>
    requires { IsWithin part.now message.now.octets.now }
    ensures { IfOk result (λ ms. objects.PutsProperties (message_data message.now) part.now asked.now no_members (members_view ms.entries)) }
{
    let fields = own_fields(alloc, message.octets, part, asked)?;
    let mut members = Map::new(alloc);
    for property in asked {
        put_property(&mut members, alloc, message, part, &fields, property)?;
    }
    Ok(members)
}

/// The object of a multipart with these members, and the objects of the parts in it.
fn with_sub_parts(
    members: Map<String, Value>,
    alloc: Global,
    inner: Vec<Value>,
) -> Result<Value, AllocError>
    ensures { IfOk result (λ v. view v ≡ object (objects.with_sub_parts (map view inner.items) (members_view members.entries))) }
{
    let mut members = members;
    put(&mut members, alloc, "subParts", Value::Array(inner))?;
    Ok(Value::Object(members))
}

/// The object of a part, with those of the parts in it.
#[cycle(objects)]
pub(crate) fn part_object(
    alloc: Global,
    message: &ParsedMessage<'_>,
    part: &Part,
    asked: &[PartProperty<'_>],
) -> Result<Value, AllocError>
    requires { IsAllWithin message.now.octets.now part.now }
    ensures { IfOk result (λ v. AreObjects (message_data message.now) asked.now (part.now ∷ []) (view v ∷ [])) }
{
    let members = own_members(alloc, message, part, asked)?;
    if part.number.is_some() {
        return Ok(Value::Object(members));
    }
    let inner = part_objects(alloc, message, &part.children, asked)?;
    with_sub_parts(members, alloc, inner)
}

/// The objects of parts that stand side by side.
#[cycle(objects)]
fn part_objects(
    alloc: Global,
    message: &ParsedMessage<'_>,
    parts: &[Part],
    asked: &[PartProperty<'_>],
) -> Result<Vec<Value>, AllocError>
    requires { AreAllWithin message.now.octets.now parts.now }
    ensures { IfOk result (λ v. AreObjects (message_data message.now) asked.now parts.now (map view v.items)) }
{
    let mut objects = Vec::with_capacity(alloc, parts.len())?;
    for part in parts {
        objects.push(part_object(alloc, message, part, asked)?)?;
    }
    Ok(objects)
}

/// The objects of the leaves of these numbers.
pub(crate) fn objects_at(
    alloc: Global,
    message: &ParsedMessage<'_>,
    leaves: &[&Part],
    numbers: &[u64],
    asked: &[PartProperty<'_>],
) -> Result<Vec<Value>, AllocError>
    requires { AreAllWithin message.now.octets.now (parts_of leaves.now) }
    ensures { IfOk result (λ v. AreObjects (message_data message.now) asked.now (parts_at (parts_of leaves.now) numbers.now) (map view v.items)) }
{
    let mut objects = Vec::with_capacity(alloc, numbers.len())?;
    for number in numbers {
        match leaf_at(leaves, *number) {
            None => {}
            Some(part) => objects.push(part_object(alloc, message, part, asked)?)?,
        }
    }
    Ok(objects)
}
