// The properties of an Email that its body gives.
ghost use Rattle.std.specs.Prelude.{◌≡◌, false, IfOk, OnOk, MatchOption};
ghost use Rattle.serde_json.specs.View.{view, members_view};
ghost use Rattle.email_properties.specs.EmailProperties.{is_of_body};
ghost use Rattle.email_properties.specs.Wanted.{body_asked, email_asked};
ghost use Rattle.body_parts.specs.BodyProperties as spec;
ghost use Rattle.body_parts.specs.BodyProperties.{AddsBodyProperties};
ghost use Rattle.body_parts.specs.Messages.{message_data};
ghost use Rattle.body_parts.specs.reading.LeafLists.{parts_of, parts_at};
ghost use Rattle.body_parts.specs.reading.Readings.{IsOfBody, IsReadBody};
ghost use Rattle.body_parts.specs.reading.StepsIf.{StepIf};

use crate::body_values::values_value;
use crate::leaves::leaves_of;
use crate::message::ParsedMessage;
use crate::part_objects::{objects_at, part_object};
use crate::previews::preview_value;
use email_properties::{BodyWanted, EmailProperty, EmailWanted, PartProperty, email_key};
use mime_tree::{BodyLists, Part, body_lists, parse};
use serde_json::{Map, Value, put};
use std::alloc::{AllocError, Global};

/// A message as it is read.
#[derive(Drop)]
pub(crate) struct Body<'a> {
    pub message: &'a ParsedMessage<'a>,
    pub root: &'a Part,
    /// The leaves, in the order of their numbers.
    pub leaves: &'a [&'a Part],
    pub lists: &'a BodyLists,
}

/// The objects of the leaves of these numbers as a list.
fn list_value(
    alloc: Global,
    body: &Body<'_>,
    numbers: &[u64],
    asked: &[PartProperty<'_>],
) -> Result<Value, AllocError>
    requires { IsReadBody body.now }
    ensures { IfOk result (λ v. spec.IsPartListData (message_data body.now.message.now) asked.now (parts_at (parts_of body.now.leaves.now) numbers.now) (view v)) }
{
    let objects = objects_at(alloc, body.message, body.leaves, numbers, asked)?;
    Ok(Value::Array(objects))
}

/// The data of a property of the body. None of another property.
fn body_value(
    alloc: Global,
    body: &Body<'_>,
    asked: &BodyWanted<'_>,
    property: &EmailProperty<'_>,
) -> Result<Option<Value>, AllocError>
    requires { IsReadBody body.now }
    ensures { IfOk result (λ o. MatchOption o
        (is_of_body property.now ≡ false)
        (λ v. IsOfBody (message_data body.now.message.now) (body_asked asked.now) property.now (view v))) }
{
    let parts = asked.parts.as_slice();
    let octets = body.message.octets;
    let lists = body.lists;
    match property {
        EmailProperty::BodyStructure => {
            Ok(Some(part_object(alloc, body.message, body.root, parts)?))
        }
        EmailProperty::BodyValues => {
            Ok(Some(values_value(alloc, octets, body.leaves, lists, asked)?))
        }
        EmailProperty::TextBody => {
            Ok(Some(list_value(alloc, body, lists.text.as_slice(), parts)?))
        }
        EmailProperty::HtmlBody => {
            Ok(Some(list_value(alloc, body, lists.html.as_slice(), parts)?))
        }
        EmailProperty::Attachments => Ok(Some(list_value(
            alloc,
            body,
            lists.attachments.as_slice(),
            parts,
        )?)),
        EmailProperty::HasAttachment => Ok(Some(Value::Bool(lists.has_attachment))),
        EmailProperty::Preview => Ok(Some(preview_value(
            alloc,
            octets,
            body.leaves,
            lists.text.as_slice(),
        )?)),
        _ => Ok(None),
    }
}

/// Puts a property of the body at its key. Another property isn't put.
fn put_property(
    members: &mut Map<String, Value>,
    alloc: Global,
    body: &Body<'_>,
    asked: &BodyWanted<'_>,
    property: &EmailProperty<'_>,
) -> Result<(), AllocError>
    requires { IsReadBody body.now }
    ensures { OnOk result (StepIf is_of_body (spec.PutsBodyProperty (message_data body.now.message.now) (body_asked asked.now)) property.now
        (members_view members.old.entries) (members_view members.new.entries)) }
{
    match body_value(alloc, body, asked, property)? {
        None => Ok(()),
        Some(value) => put(members, alloc, email_key(property), value),
    }
}

/// Puts the asked properties of the body.
fn put_properties(
    members: &mut Map<String, Value>,
    alloc: Global,
    body: &Body<'_>,
    wanted: &EmailWanted<'_>,
) -> Result<(), AllocError>
    requires { IsReadBody body.now }
    ensures { OnOk result (AddsBodyProperties (message_data body.now.message.now) (email_asked wanted.now) (members_view members.old.entries) (members_view members.new.entries)) }
{
    for property in &wanted.properties {
        put_property(members, alloc, body, &wanted.body, property)?;
    }
    Ok(())
}

/// Puts the asked properties of the body into the members of an Email object, each at its key. The message is read as a tree once.
pub fn put_body_properties(
    members: &mut Map<String, Value>,
    alloc: Global,
    message: &ParsedMessage<'_>,
    wanted: &EmailWanted<'_>,
) -> Result<(), AllocError>
    ensures { OnOk result (AddsBodyProperties (message_data message.now) (email_asked wanted.now) (members_view members.old.entries) (members_view members.new.entries)) }
{
    let root = parse(alloc, message.octets)?;
    let lists = body_lists(alloc, &root)?;
    let leaves = leaves_of(alloc, &root)?;
    let body = Body {
        message,
        root: &root,
        leaves: leaves.as_slice(),
        lists: &lists,
    };
    put_properties(members, alloc, &body, wanted)
}
