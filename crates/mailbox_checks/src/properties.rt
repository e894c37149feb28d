// The properties that an item of Mailbox/set may name, and their values (RFC 8621 sections 2 and 2.5, RFC 8620 section 5.3).
ghost use Rattle.std.specs.Prelude.{◌≡◌, IfOk};
ghost use Rattle.std.specs.Option.{option_copied, option_map};
ghost use Rattle.serde_json.specs.Find.{get, get_member};
ghost use Rattle.serde_json.specs.View.{view, members_view};
ghost use Rattle.set_given.specs.Given.{Given as Facts};
ghost use Rattle.set_given.specs.reading.Givens.{IsGiven};
ghost use Rattle.mailbox_checks.specs.Properties as spec;
ghost use Rattle.mailbox_checks.specs.reading.Places.{asked_parent};
ghost use Rattle.mailbox_checks.specs.reading.Tests.{TestsNew, TestsChange};

use mailbox_objects::whole_mailbox;
use octets::{Listed, Text};
use serde_json::{Map, Value};
use set_given::{Given, folder_named};
use set_jobs::SetError;
use set_patches::{Pointer, PropertyTest, same_value};
use std::alloc::{AllocError, Global};
use told_mail::Folder;

/// The property of a Mailbox that has members.
pub(crate) const MAILBOX_OBJECTS: [&str; 1] = ["myRights"];

// ---- values that a client sets

/// Whether a value may stand at a property that a client sets.
fn can_be_set(given: &Given<'_, '_>, property: &str, value: &Value) -> bool
    ensures { (g : Facts) → IsGiven given.now g → result ≡ spec.can_be_set g property.now (view value.now) }
{
    match property {
        "name" => value.is_string(),
        "parentId" => is_parent(given, value),
        "isSubscribed" => value.is_boolean(),
        _ => false,
    }
}

/// Whether the value is null, or names a Mailbox.
fn is_parent(given: &Given<'_, '_>, value: &Value) -> bool
    ensures { (g : Facts) → IsGiven given.now g → result ≡ spec.is_parent g (view value.now) }
{
    match value {
        Value::Null => true,
        Value::String(text) => folder_named(given, text.as_str()).is_some(),
        _ => false,
    }
}

/// The same of a Mailbox that is to be made: its role is none, and its place among others is 0.
fn can_be_made(given: &Given<'_, '_>, property: &str, value: &Value) -> bool
    ensures { (g : Facts) → IsGiven given.now g → result ≡ spec.can_be_made g property.now (view value.now) }
{
    match property {
        "role" => value.is_null(),
        "sortOrder" => value.as_u64() == Some(0),
        _ => can_be_set(given, property, value),
    }
}

/// The test of the properties of a Mailbox that is to be made.
#[derive(Drop)]
pub(crate) struct NewTest<'g, 'k> {
    pub(crate) given: Given<'g, 'k>,
}

impl<'g, 'k> PropertyTest for NewTest<'g, 'k> {
    ghost Tests = { λ test is_right. TestsNew test.given is_right };

    fn is_right(&self, pointer: &Pointer, value: &Value) -> Result<bool, AllocError> {
        match pointer {
            Pointer::Whole(property) => Ok(can_be_made(&self.given, property.as_str(), value)),
            _ => Ok(false),
        }
    }
}

// ---- values that are sent back

/// The Mailbox as it was served as the call began.
pub(crate) fn served_value(
    alloc: Global,
    given: &Given<'_, '_>,
    number: u64,
) -> Result<Option<Value>, AllocError>
    ensures { (g : Facts) → IsGiven given.now g → IfOk result (λ o. option_map view o ≡ spec.served_data g number) }
{
    match given.state.mailbox(number) {
        None => Ok(None),
        Some(mailbox) => Ok(Some(whole_mailbox(alloc, number, mailbox)?)),
    }
}

/// Whether the property has this value in the object.
fn is_value_of(object: &Value, property: &str, value: &Value) -> bool
    ensures { result ≡ spec.is_value (view value.now) (get property.now (view object.now)) }
{
    match object.get(property) {
        None => false,
        Some(was) => same_value(value, was),
    }
}

/// The test of the parts of an update of a Mailbox.
#[derive(Drop)]
pub(crate) struct ChangeTest<'g, 'k> {
    pub(crate) given: Given<'g, 'k>,
    pub(crate) folder: &'g Folder,
    /// The Mailbox as it was served as the call began.
    pub(crate) served: Option<Value>,
}

impl<'g, 'k> PropertyTest for ChangeTest<'g, 'k> {
    ghost Tests = { λ test is_right. TestsChange test.given test.folder.now (option_map view test.served) is_right };

    fn is_right(&self, pointer: &Pointer, value: &Value) -> Result<bool, AllocError> {
        let Pointer::Whole(property) = pointer else {
            return Ok(false);
        };
        let property = property.as_str();
        if can_be_set(&self.given, property, value) {
            return Ok(true);
        }
        match &self.served {
            None => Ok(can_be_made(&self.given, property, value)),
            Some(served) => Ok(is_value_of(served, property, value)),
        }
    }
}

// ---- refusals

/// One property has a wrong value.
fn wrong_property(alloc: Global, property: &str) -> Result<SetError, AllocError>
    ensures { IfOk result (λ error. error ≡ spec.wrong_property property.now) }
{
    let mut properties = Listed::from_vec(Vec::new(alloc));
    properties.push(Text::copy_of(alloc, property)?)?;
    Ok(SetError::InvalidProperties { properties })
}

/// The name is wrong.
pub(crate) fn wrong_name(alloc: Global) -> Result<SetError, AllocError>
    ensures { IfOk result (λ error. error ≡ spec.wrong_name) }
{
    wrong_property(alloc, "name")
}

/// The parent is wrong: also that of a Mailbox which is in a circle of creations.
pub fn wrong_parent(alloc: Global) -> Result<SetError, AllocError>
    ensures { IfOk result (λ error. error ≡ spec.wrong_parent) }
{
    wrong_property(alloc, "parentId")
}

// ---- what is asked

/// The parent that is asked.
#[derive(Clone, Copy)]
pub(crate) enum ParentAsked<'a> {
    /// None: the top level.
    Top,
    /// This folder.
    Under(&'a Folder),
    /// What no folder is.
    Nowhere,
}

/// The parent that a value names; none where there is no value.
pub(crate) fn parent_as<'g>(given: &Given<'g, '_>, value: Option<&Value>) -> ParentAsked<'g>
    ensures { (g : Facts) → IsGiven given.now g → asked_parent result ≡ spec.parent_as g (option_map view (option_copied value.entry)) }
{
    match value {
        None => ParentAsked::Top,
        Some(Value::Null) => ParentAsked::Top,
        Some(Value::String(text)) => match folder_named(given, text.as_str()) {
            Some(folder) => ParentAsked::Under(folder),
            None => ParentAsked::Nowhere,
        },
        Some(_) => ParentAsked::Nowhere,
    }
}

/// The value of a member, where it is there.
pub(crate) fn member<'a>(object: &'a Map<String, Value>, name: &str) -> Option<&'a Value>
    ensures { option_map view (option_copied result) ≡ get_member name.now (members_view object.now.entries) }
{
    object.get(name)
}

/// The text at `name`.
pub(crate) fn name_in(properties: &Map<String, Value>) -> Option<&str>
    ensures { option_map (λ t. t.now) result ≡ spec.name_in (members_view properties.now.entries) }
{
    match member(properties, "name") {
        None => None,
        Some(value) => value.as_str(),
    }
}

/// The Boolean at `isSubscribed`, or the other one where none stands there.
pub(crate) fn subscription_in(properties: &Map<String, Value>, otherwise: bool) -> bool
    ensures { result ≡ spec.subscription_in (members_view properties.now.entries) otherwise }
{
    match member(properties, "isSubscribed") {
        None => otherwise,
        Some(value) => value.as_bool().unwrap_or(otherwise),
    }
}
