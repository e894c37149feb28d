// Properties of Emails and of the parts of their bodies.
use email_properties::{
    BodyWanted, EmailWanted, HeaderForm, email_key, email_property_named, header_property_named,
    is_permitted, needs_body, part_key, part_property_named,
};
use jmap_arguments::MethodError;
use std::alloc::{AllocError, Global};
use test_rows::put_octets;

const FORMS: [HeaderForm; 7] = [
    HeaderForm::Raw,
    HeaderForm::Text,
    HeaderForm::Addresses,
    HeaderForm::GroupedAddresses,
    HeaderForm::MessageIds,
    HeaderForm::Date,
    HeaderForm::Urls,
];

/// Adds the forms that a field may take.
pub(crate) fn put_forms(name: &str, out: &mut String) -> Result<(), AllocError> {
    out.push_str("forms:")?;
    for form in FORMS.iter() {
        if is_permitted(name.as_bytes(), *form) {
            write!(out, " {form:?}")?;
        }
    }
    Ok(())
}

/// Adds the key, the field, the form and whether all are asked, where the text is a property that a header field gives.
pub(crate) fn put_header(key: &str, out: &mut String) -> Result<(), AllocError> {
    let Some(header) = header_property_named(key) else {
        return out.push('-');
    };
    put_octets(out, header.key().as_bytes())?;
    out.push(' ')?;
    put_octets(out, header.name())?;
    write!(out, " {:?} {}", header.form(), header.all())
}

/// Adds the kind of a property, which its text begins with, and its key.
fn put_kind(out: &mut String, property: &str, key: &str) -> Result<(), AllocError> {
    let (kind, _) = property.split_once('(').unwrap_or((property, ""));
    write!(out, "{kind} {key}")
}

/// Adds the property of an Email that the text is.
pub(crate) fn put_email(alloc: Global, key: &str, out: &mut String) -> Result<(), AllocError> {
    match email_property_named(key) {
        Some(property) => {
            let text = format!(in alloc; "{property:?}")?;
            put_kind(out, &text, email_key(&property))
        }
        None => out.push('-'),
    }
}

/// Adds the property of a part that the text is.
pub(crate) fn put_part(alloc: Global, key: &str, out: &mut String) -> Result<(), AllocError> {
    match part_property_named(key) {
        Some(property) => {
            let text = format!(in alloc; "{property:?}")?;
            put_kind(out, &text, part_key(&property))
        }
        None => out.push('-'),
    }
}

/// Adds the keys of properties of Emails.
fn put_emails_wanted(out: &mut String, wanted: &EmailWanted<'_>) -> Result<(), AllocError> {
    for property in &wanted.properties {
        write!(out, "{} ", email_key(property))?;
    }
    Ok(())
}

/// Adds the keys of properties of parts, the flags and the most octets.
fn put_body_wanted(out: &mut String, body: &BodyWanted<'_>) -> Result<(), AllocError> {
    out.push_str("/ ")?;
    for property in &body.parts {
        write!(out, "{} ", part_key(property))?;
    }
    let (texts, htmls, all) = (body.text_values, body.html_values, body.all_values);
    write!(out, "/ {texts} {htmls} {all} {}", body.max_octets)
}

/// Adds what is asked of each Email, and whether that needs the body; or why it is refused.
pub(crate) fn put_wanted(
    asked: Result<EmailWanted<'_>, MethodError>,
    out: &mut String,
) -> Result<(), AllocError> {
    match asked {
        Ok(wanted) => {
            put_emails_wanted(out, &wanted)?;
            put_body_wanted(out, &wanted.body)?;
            write!(out, " {}", needs_body(&wanted))
        }
        Err(error) => write!(out, "{error}"),
    }
}
