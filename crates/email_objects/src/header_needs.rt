// Which properties need the header.
ghost use Rattle.std.specs.Prelude.{◌≡◌, ◌≤◌, ◌↔◌, IsTrue, count_by};
ghost use Rattle.email_objects.specs.Properties as spec;
ghost use Rattle.email_objects.specs.reading.Indexing as reading;

use email_properties::EmailProperty;
use field_values::{INDEXED_FROM, convenience};

/// Whether the header tells the property.
fn is_of_header(property: &EmailProperty<'_>) -> bool
    ensures { result ≡ spec.is_of_email_header property.now }
{
    match property {
        EmailProperty::Headers => true,
        EmailProperty::Header(_) => true,
        _ => convenience(property).is_some(),
    }
}

/// Whether the header tells one of the properties.
pub(crate) fn needs_header(properties: &[EmailProperty<'_>]) -> bool
    ensures { result ≡ spec.needs_email_header properties.now }
{
    for property in properties {
        if is_of_header(property) {
            return true;
        }
    }
    false
}

/// Whether the property is a field by its name.
fn is_named(property: &EmailProperty<'_>) -> bool
    ensures { result ≡ reading.is_named property.now }
{
    matches!(property, EmailProperty::Header(_))
}

/// Whether so many of the properties are fields by their names that an index of the fields is made.
pub(crate) fn needs_index(properties: &[EmailProperty<'_>]) -> bool
    ensures { IsTrue result ↔ (INDEXED_FROM ≤ count_by reading.is_named properties.now) }
{
    let named = properties.iter().filter(|property| is_named(*property));
    named.count() >= INDEXED_FROM
}
