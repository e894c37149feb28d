// The properties that a header gives of an Email or a body part.
ghost use Rattle.std.specs.Prelude.{◌≡◌, ◌++◌, None, Some, IfOk, OnOk, MatchOption, map, slice_get, option_to_list};
ghost use Rattle.serde_json.specs.View.{view};
ghost use Rattle.mail_header.specs.Fields.{field_view, names_and_raws};
ghost use Rattle.field_values.specs.HeaderProperties as spec;
ghost use Rattle.field_values.specs.reading.Gathering as reading;

use crate::forms::form_value;
use crate::named_fields::NamedFields;
use crate::raw_values::field_at;
use email_properties::{HeaderForm, HeaderProperty};
use json_texts::text_value;
use mail_header::{Field, Fields};
use serde_json::{Value, json};
use std::alloc::{AllocError, Global};

/// The data of the last field of this name in a form; null where there is no such field.
pub fn last_value(
    alloc: Global,
    fields: &Fields<'_>,
    name: &[u8],
    form: HeaderForm,
) -> Result<Value, AllocError>
    ensures { IfOk result (λ value. spec.IsLastData form name.now (names_and_raws fields.now) (view value)) }
{
    match fields.last(name) {
        None => Ok(Value::Null),
        Some(raw) => form_value(alloc, form, raw),
    }
}

/// The data of a property `header:{name}` (RFC 8621 section 4.1.3). With `:all` it is an array with the data of each field of the
/// name, in their order, where one that can't be read in the form is null; else it is that of the last field of the name, and null
/// where there is none. Names are compared without regard to case. Where the fields have an index it costs one look-up beside what is
/// read; properties whose names are equal but for case find the same list of raw values there.
pub fn header_property(
    alloc: Global,
    fields: &NamedFields<'_>,
    property: &HeaderProperty<'_>,
) -> Result<Value, AllocError>
    ensures { IfOk result (λ value. spec.IsHeaderPropertyData property.now fields.now (view value)) }
{
    let name = property.name();
    let form = property.form();
    if property.all() {
        list_value(alloc, fields, name, form)
    } else {
        fields.last_value(alloc, name, form)
    }
}

/// An array of the data of each field of this name in a form, in their order.
fn list_value(
    alloc: Global,
    fields: &NamedFields<'_>,
    name: &[u8],
    form: HeaderForm,
) -> Result<Value, AllocError>
    ensures { IfOk result (λ value. spec.IsListData form name.now fields.now (view value)) }
{
    Ok(Value::Array(fields.values(alloc, name, form)?))
}

fn header_value(alloc: Global, field: Field<'_>) -> Result<Value, AllocError>
    ensures { IfOk result (λ value. view value ≡ spec.header_data (field_view field.entry)) }
{
    let name = text_value(alloc, field.name)?;
    let raw = form_value(alloc, HeaderForm::Raw, field.raw)?;
    json!(in alloc; {"name": name, "value": raw})
}

/// Adds the EmailHeader of the field at this place.
fn push_header(
    headers: &mut Vec<Value>,
    alloc: Global,
    fields: &Fields<'_>,
    at: usize,
) -> Result<(), AllocError>
    ensures { OnOk result (map view headers.new.items ≡ map view headers.old.items ++ map spec.header_data (option_to_list (slice_get (names_and_raws fields.now) at))) }
{
    let Some(field) = field_at(fields, at) else {
        return Ok(());
    };
    headers.push(header_value(alloc, field)?)?;
    Ok(())
}

/// The property `headers` (RFC 8621 section 4.1.3): an array of EmailHeader objects, one for each field in their order, with the
/// name as it is spelled and the value in Raw.
pub fn headers_value(alloc: Global, fields: &Fields<'_>) -> Result<Value, AllocError>
    ensures { IfOk result (λ value. view value ≡ spec.headers_data (names_and_raws fields.now)) }
{
    let mut headers = Vec::new(alloc);
    for at in 0..fields.len() {
        push_header(&mut headers, alloc, fields, at)?;
    }
    Ok(Value::Array(headers))
}
