// The members of an EmailImport (RFC 8621 section 4.8).
ghost use Rattle.std.specs.Prelude.{◌≡◌, MatchOption, option_map};
ghost use Rattle.serde_json.specs.View.{view, members_view};
ghost use Rattle.set_given.specs.Given.{Given as GivenFacts};
ghost use Rattle.set_given.specs.reading.Givens.{IsGiven};
ghost use Rattle.email_import.specs.Asked as spec;
ghost use Rattle.email_import.specs.Asked.{AreNone, IsFirst, IsWrongMember};

use email_checks::{is_map_of_folders, is_map_of_keywords};
use email_creation::member;
use jmap_values::utc_seconds;
use serde_json::{Map, Value};
use set_given::Given;

fn is_utc_date(value: &Value) -> bool
    ensures { result ≡ spec.is_utc_date (view value.now) }
{
    match value.as_str() {
        None => false,
        Some(text) => utc_seconds(text.as_bytes()).is_some(),
    }
}

fn is_date_or_null(value: &Value) -> bool
    ensures { result ≡ spec.is_date_or_null (view value.now) }
{
    match value {
        Value::Null => true,
        other => is_utc_date(other),
    }
}

/// Whether an import has the property, and may have the value.
fn is_import_value(given: &Given<'_, '_>, key: &str, value: &Value) -> bool
    ensures { (g : GivenFacts) → IsGiven given.now g → result ≡ spec.is_import_value g key.now (view value.now) }
{
    match key {
        "blobId" => value.as_str().is_some(),
        "keywords" => is_map_of_keywords(value),
        "mailboxIds" => is_map_of_folders(given, value),
        "receivedAt" => is_date_or_null(value),
        _ => false,
    }
}

/// The first member that an import can't have, in the order of their names' octets.
pub(crate) fn wrong_member<'a>(
    given: &Given<'_, '_>,
    properties: &'a Map<String, Value>,
) -> Option<&'a str>
    ensures { (g : GivenFacts) → IsGiven given.now g → MatchOption result
        (AreNone (IsWrongMember g (members_view properties.now.entries)))
        (λ key. IsFirst (IsWrongMember g (members_view properties.now.entries)) key.now) }
{
    for (key, value) in properties.iter() {
        if !is_import_value(given, key.as_str(), value) {
            return Some(key.as_str());
        }
    }
    None
}

/// The blob that is named.
pub(crate) fn blob_asked(properties: &Map<String, Value>) -> Option<&str>
    ensures { option_map (λ t. t.now) result ≡ spec.blob_asked (members_view properties.now.entries) }
{
    member(properties, "blobId")?.as_str()
}
