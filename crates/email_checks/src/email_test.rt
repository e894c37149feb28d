// Values that an update of an Email may have.
ghost use Rattle.std.specs.Prelude.{◌≡◌};
ghost use Rattle.serde_json.specs.View.{view, members_view};
ghost use Rattle.set_given.specs.Given.{Given as GivenFacts};
ghost use Rattle.set_given.specs.reading.Givens.{IsGiven};
ghost use Rattle.set_patches.specs.Patches.{is_null, is_true};
ghost use Rattle.jmap_values.specs.Keywords.{is_keyword};
ghost use Rattle.email_checks.specs.Asked as spec;
ghost use Rattle.email_checks.specs.reading.Tests.{TestsEmail};

use jmap_values::is_keyword;
use serde_json::{Map, Value};
use set_given::{Given, folder_named};
use set_patches::{Pointer, PropertyTest};
use std::alloc::AllocError;

fn is_true(value: &Value) -> bool
    ensures { result ≡ is_true (view value.now) }
{
    match value {
        Value::Bool(truth) => *truth,
        _ => false,
    }
}

pub(crate) fn is_null(value: &Value) -> bool
    ensures { result ≡ is_null (view value.now) }
{
    value.is_null()
}

fn is_set_or_taken(value: &Value) -> bool
    ensures { result ≡ spec.is_set_or_taken (view value.now) }
{
    is_null(value) || is_true(value)
}

fn names_folder(given: &Given<'_, '_>, text: &str) -> bool
    ensures { (g : GivenFacts) → IsGiven given.now g → result ≡ spec.names_folder g text.now }
{
    folder_named(given, text).is_some()
}

/// Whether each member is a keyword that is true.
fn are_keywords(members: &Map<String, Value>) -> bool
    ensures { result ≡ spec.are_right is_keyword (members_view members.now.entries) }
{
    for (key, value) in members.iter() {
        if !(is_keyword(key.as_bytes()) && is_true(value)) {
            return false;
        }
    }
    true
}

/// Whether each member names a folder and is true.
fn are_folders(given: &Given<'_, '_>, members: &Map<String, Value>) -> bool
    ensures { (g : GivenFacts) → IsGiven given.now g → result ≡ spec.are_right (spec.names_folder g) (members_view members.now.entries) }
{
    for (key, value) in members.iter() {
        if !(names_folder(given, key.as_str()) && is_true(value)) {
            return false;
        }
    }
    true
}

/// Whether the value is a set of keywords; null is the empty one (RFC 8621 section 4.1.1).
pub fn is_map_of_keywords(value: &Value) -> bool
    ensures { result ≡ spec.is_map_of is_keyword (view value.now) }
{
    match value {
        Value::Null => true,
        Value::Object(members) => are_keywords(members),
        _ => false,
    }
}

/// Whether the value is a set of texts that name Mailboxes; null is the empty one.
pub fn is_map_of_folders(given: &Given<'_, '_>, value: &Value) -> bool
    ensures { (g : GivenFacts) → IsGiven given.now g → result ≡ spec.is_map_of (spec.names_folder g) (view value.now) }
{
    match value {
        Value::Null => true,
        Value::Object(members) => are_folders(given, members),
        _ => false,
    }
}

fn is_right_whole(given: &Given<'_, '_>, property: &str, value: &Value) -> bool
    ensures { (g : GivenFacts) → IsGiven given.now g → result ≡ spec.is_right_whole g property.now (view value.now) }
{
    if property == "keywords" {
        return is_map_of_keywords(value);
    }
    if property == "mailboxIds" {
        return is_map_of_folders(given, value);
    }
    false
}

fn is_right_within(given: &Given<'_, '_>, property: &str, key: &str, value: &Value) -> bool
    ensures { (g : GivenFacts) → IsGiven given.now g → result ≡ spec.is_right_within g property.now key.now (view value.now) }
{
    if property == "keywords" {
        return is_keyword(key.as_bytes()) && is_set_or_taken(value);
    }
    if property == "mailboxIds" {
        return is_null(value) || (names_folder(given, key) && is_true(value));
    }
    false
}

fn is_right_at(given: &Given<'_, '_>, pointer: &Pointer, value: &Value) -> bool
    ensures { (g : GivenFacts) → IsGiven given.now g → result ≡ spec.is_right g pointer.now (view value.now) }
{
    match pointer {
        Pointer::Whole(property) => is_right_whole(given, property.as_str(), value),
        Pointer::Within(property, key) => {
            is_right_within(given, property.as_str(), key.as_str(), value)
        }
        Pointer::Deeper(_) => false,
    }
}

/// The test of the parts of an update.
#[derive(Drop)]
pub(crate) struct EmailTest<'g, 'k> {
    pub(crate) given: Given<'g, 'k>,
}

impl<'g, 'k> PropertyTest for EmailTest<'g, 'k> {
    ghost Tests = { λ test is_right. TestsEmail test.given is_right };

    fn is_right(&self, pointer: &Pointer, value: &Value) -> Result<bool, AllocError> {
        Ok(is_right_at(&self.given, pointer, value))
    }
}
