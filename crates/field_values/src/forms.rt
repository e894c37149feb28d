// Raw values as values of JSON, by their forms.
ghost use Rattle.std.specs.Prelude.{◌≡◌, IfOk, map};
ghost use Rattle.serde_json.specs.View.{view};
ghost use Rattle.json_texts.specs.Texts.{text_data};
ghost use Rattle.field_values.specs.Forms as spec;

use crate::moment_text::moment_text;
use email_properties::HeaderForm;
use header_addresses::{Address, Group};
use header_dates::as_date;
use json_texts::{optional_text_value, owned_text_value, text_value};
use loose_addresses::{as_loose_addresses, as_loose_groups};
use mail_header::{as_message_ids, as_raw, as_text, as_urls};
use octets::{Bytes, Names};
use serde_json::{Value, json};
use std::alloc::{AllocError, Global};

fn address_value(alloc: Global, address: &Address) -> Result<Value, AllocError>
    ensures { IfOk result (λ value. view value ≡ spec.address_data address.now) }
{
    let email = text_value(alloc, address.email.as_slice())?;
    let name = optional_text_value(alloc, &address.name)?;
    json!(in alloc; {"email": email, "name": name})
}

fn address_values(alloc: Global, addresses: &[Address]) -> Result<Vec<Value>, AllocError>
    ensures { IfOk result (λ values. map view values.items ≡ map spec.address_data addresses.now) }
{
    let mut values = Vec::new(alloc);
    for address in addresses {
        values.push(address_value(alloc, address)?)?;
    }
    Ok(values)
}

fn address_list(alloc: Global, addresses: &[Address]) -> Result<Value, AllocError>
    ensures { IfOk result (λ value. view value ≡ spec.address_list addresses.now) }
{
    Ok(Value::Array(address_values(alloc, addresses)?))
}

fn group_value(alloc: Global, group: &Group) -> Result<Value, AllocError>
    ensures { IfOk result (λ value. view value ≡ spec.group_data group.now) }
{
    let addresses = address_list(alloc, group.members.as_slice())?;
    let name = optional_text_value(alloc, &group.name)?;
    json!(in alloc; {"addresses": addresses, "name": name})
}

fn group_values(alloc: Global, groups: &[Group]) -> Result<Vec<Value>, AllocError>
    ensures { IfOk result (λ values. map view values.items ≡ map spec.group_data groups.now) }
{
    let mut values = Vec::new(alloc);
    for group in groups {
        values.push(group_value(alloc, group)?)?;
    }
    Ok(values)
}

fn text_values(alloc: Global, texts: &[Bytes]) -> Result<Vec<Value>, AllocError>
    ensures { IfOk result (λ values. map view values.items ≡ map text_data texts.now) }
{
    let mut values = Vec::new(alloc);
    for text in texts {
        values.push(text_value(alloc, text.as_slice())?)?;
    }
    Ok(values)
}

fn names_value(alloc: Global, names: &Option<Names>) -> Result<Value, AllocError>
    ensures { IfOk result (λ value. view value ≡ spec.names_data names.now) }
{
    match names {
        None => Ok(Value::Null),
        Some(names) => Ok(Value::Array(text_values(alloc, names.as_slice())?)),
    }
}

fn raw_value(alloc: Global, raw: &[u8]) -> Result<Value, AllocError>
    ensures { IfOk result (λ value. spec.IsFormData HeaderForm.Raw raw.now (view value)) }
{
    owned_text_value(alloc, as_raw(alloc, raw)?.into_vec()?)
}

fn decoded_value(alloc: Global, raw: &[u8]) -> Result<Value, AllocError>
    ensures { IfOk result (λ value. spec.IsFormData HeaderForm.Text raw.now (view value)) }
{
    owned_text_value(alloc, as_text(alloc, raw)?.into_vec()?)
}

fn addresses_value(alloc: Global, raw: &[u8]) -> Result<Value, AllocError>
    ensures { IfOk result (λ value. spec.IsFormData HeaderForm.Addresses raw.now (view value)) }
{
    match as_loose_addresses(alloc, raw)? {
        None => Ok(Value::Null),
        Some(found) => address_list(alloc, found.as_slice()),
    }
}

fn groups_value(alloc: Global, raw: &[u8]) -> Result<Value, AllocError>
    ensures { IfOk result (λ value. spec.IsFormData HeaderForm.GroupedAddresses raw.now (view value)) }
{
    match as_loose_groups(alloc, raw)? {
        None => Ok(Value::Null),
        Some(found) => Ok(Value::Array(group_values(alloc, found.as_slice())?)),
    }
}

fn message_ids_value(alloc: Global, raw: &[u8]) -> Result<Value, AllocError>
    ensures { IfOk result (λ value. spec.IsFormData HeaderForm.MessageIds raw.now (view value)) }
{
    names_value(alloc, &as_message_ids(alloc, raw)?)
}

fn urls_value(alloc: Global, raw: &[u8]) -> Result<Value, AllocError>
    ensures { IfOk result (λ value. spec.IsFormData HeaderForm.Urls raw.now (view value)) }
{
    names_value(alloc, &as_urls(alloc, raw)?)
}

fn date_value(alloc: Global, raw: &[u8]) -> Result<Value, AllocError>
    ensures { IfOk result (λ value. spec.IsFormData HeaderForm.Date raw.now (view value)) }
{
    match as_date(alloc, raw)? {
        None => Ok(Value::Null),
        Some(moment) => Ok(Value::String(moment_text(alloc, moment)?)),
    }
}

/// The data of a raw value in a form (RFC 8621 section 4.1.2): a text in Raw and Text; an array of EmailAddress objects, of
/// EmailAddressGroup objects, or of texts without their angle brackets; a text as `2024-01-02T10:00:00+01:00` in Date. It is null
/// where the value can't be read in the form.
pub fn form_value(alloc: Global, form: HeaderForm, raw: &[u8]) -> Result<Value, AllocError>
    ensures { IfOk result (λ value. spec.IsFormData form raw.now (view value)) }
{
    match form {
        HeaderForm::Raw => raw_value(alloc, raw),
        HeaderForm::Text => decoded_value(alloc, raw),
        HeaderForm::Addresses => addresses_value(alloc, raw),
        HeaderForm::GroupedAddresses => groups_value(alloc, raw),
        HeaderForm::MessageIds => message_ids_value(alloc, raw),
        HeaderForm::Date => date_value(alloc, raw),
        HeaderForm::Urls => urls_value(alloc, raw),
    }
}
