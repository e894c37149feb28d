// Headers of parts, which are read where a property asks them.
ghost use Rattle.std.specs.Prelude.{◌≡◌, ◌≤◌, ◌↔◌, true, IfOk, IsTrue, count_by, slice_range};
ghost use Rattle.mime_tree.specs.declared.part.Part.{out-Part};
ghost use Rattle.mime_tree.specs.Parts.{IsWithin};
ghost use Rattle.body_parts.specs.reading.OwnHeaders as headers;

use email_properties::PartProperty;
use field_values::{INDEXED_FROM, NamedFields};
use mail_header::fields;
use mime_tree::Part;
use std::alloc::{AllocError, Global};

/// Whether the part's header is needed for the property.
fn is_of_header(property: &PartProperty<'_>) -> bool
    ensures { result ≡ headers.is_of_header property.now }
{
    matches!(property, PartProperty::Headers | PartProperty::Header(_))
}

/// Whether it is needed for one of these.
fn needs_header(asked: &[PartProperty<'_>]) -> bool
    ensures { result ≡ headers.needs_header asked.now }
{
    for property in asked {
        if is_of_header(property) {
            return true;
        }
    }
    false
}

/// The octets of a part from its own header on, where one of these properties needs that; else none.
fn header_on<'a>(octets: &'a [u8], part: &Part, asked: &[PartProperty<'_>]) -> &'a [u8]
    requires { IsWithin part.now octets.now }
    ensures { headers.needs_header asked.now ≡ true → result.now ≡ slice_range octets.now (out-Part part.now).head_start (out-Part part.now).end }
{
    if needs_header(asked) {
        &octets[part.head_start..part.end]
    } else {
        &[]
    }
}

/// Whether the property is a field by its name.
fn is_named(property: &PartProperty<'_>) -> bool
    ensures { result ≡ headers.is_named property.now }
{
    matches!(property, PartProperty::Header(_))
}

/// Whether so many of these are fields by their names that an index of the fields is made.
fn needs_index(asked: &[PartProperty<'_>]) -> bool
    ensures { IsTrue result ↔ (INDEXED_FROM ≤ count_by headers.is_named asked.now) }
{
    let named = asked.iter().filter(|property| is_named(*property));
    named.count() >= INDEXED_FROM
}

/// The fields of a part's own header, where one of these properties needs them.
pub(crate) fn own_fields<'a>(
    alloc: Global,
    octets: &'a [u8],
    part: &Part,
    asked: &[PartProperty<'_>],
) -> Result<NamedFields<'a>, AllocError>
    requires { IsWithin part.now octets.now }
    ensures { IfOk result (λ f. headers.HasHeaderIf (headers.needs_header asked.now) octets.now part.now f) }
{
    let fields = fields(alloc, header_on(octets, part, asked))?;
    NamedFields::new(alloc, fields, needs_index(asked))
}
