// Fields of headers, and their values in each form.
use crate::written::{put_field, put_given};
use email_properties::HeaderForm;
use field_values::form_value;
use mail_header::{fields, last_field};
use mime_fields::{PartHeader, part_header};
use std::alloc::{AllocError, Global};

/// Adds how many fields the header has, and where it ends.
pub(crate) fn put_count(alloc: Global, octets: &[u8], out: &mut String) -> Result<(), AllocError> {
    let header = fields(alloc, octets)?;
    write!(out, "{} fields up to {}", header.len(), header.end())
}

/// Adds the name and the value of the field at a place.
pub(crate) fn put_place(
    alloc: Global,
    place: &str,
    octets: &[u8],
    out: &mut String,
) -> Result<(), AllocError> {
    let header = fields(alloc, octets)?;
    let place = place.parse::<usize>().unwrap_or(0);
    put_given(out, header.name(place))?;
    out.push('|')?;
    put_given(out, header.raw(place))
}

/// Adds the value of the last field of a name, looked up among the fields, and in the octets.
pub(crate) fn put_last(
    alloc: Global,
    name: &str,
    octets: &[u8],
    out: &mut String,
) -> Result<(), AllocError> {
    let header = fields(alloc, octets)?;
    put_given(out, header.last(name.as_bytes()))?;
    out.push('|')?;
    put_given(out, last_field(octets, name.as_bytes()))
}

/// Adds the type, boundary, charset, disposition, name, id, language, location and encoding, with `|` after each.
fn put_header(out: &mut String, header: &PartHeader) -> Result<(), AllocError> {
    put_field(out, &header.media)?;
    put_field(out, &header.boundary)?;
    put_field(out, &header.charset)?;
    put_field(out, &header.disposition)?;
    put_field(out, &header.name)?;
    put_field(out, &header.cid)?;
    put_field(out, &header.language)?;
    put_field(out, &header.location)?;
    put_field(out, &header.encoding)
}

/// Adds what the header of a part says.
pub(crate) fn put_part_header(
    alloc: Global,
    octets: &[u8],
    out: &mut String,
) -> Result<(), AllocError> {
    let fields = fields(alloc, octets)?;
    put_header(out, &part_header(alloc, &fields)?)
}

/// The form of which header properties speak so.
fn form_of(name: &str) -> Option<HeaderForm> {
    match name {
        "asRaw" => Some(HeaderForm::Raw),
        "asText" => Some(HeaderForm::Text),
        "asAddresses" => Some(HeaderForm::Addresses),
        "asGroupedAddresses" => Some(HeaderForm::GroupedAddresses),
        "asMessageIds" => Some(HeaderForm::MessageIds),
        "asDate" => Some(HeaderForm::Date),
        "asURLs" => Some(HeaderForm::Urls),
        _ => None,
    }
}

/// Adds the data of a raw value in a form.
pub(crate) fn put_form(
    alloc: Global,
    name: &str,
    raw: &[u8],
    out: &mut String,
) -> Result<(), AllocError> {
    let Some(form) = form_of(name) else {
        return out.push_str("no form");
    };
    let value = form_value(alloc, form, raw)?;
    out.push_str(&value.to_string(alloc)?)
}
