// Values in filters: ids, numbers, dates, keywords and texts.
ghost use Rattle.std.specs.Prelude.{◌≡◌, ◌∷◌, [], IfOk, OnOk, map, option_map};
ghost use Rattle.std.specs.Char.{to_ascii_lowercase};
ghost use Rattle.std.specs.Ordering.{nat_cmp};
ghost use Rattle.mail_maps.specs.Keywords.{sorted_into};
ghost use Rattle.serde_json.specs.Find.{as_str};
ghost use Rattle.serde_json.specs.View.{view};
ghost use Rattle.jmap_arguments.specs.Ids.{mailbox_letter};
ghost use Rattle.query_arguments.specs.Values as values;

use jmap_arguments::{MAILBOX_LETTER, read_id, texts_in, whole_in};
use jmap_values::{first_second_from, is_keyword};
use octets::Bytes;
use serde_json::Value;
use std::alloc::{AllocError, Global};
use std::collections::BTreeSet;

/// The number of the Mailbox whose id this is.
pub(crate) fn mailbox_number(id: &str) -> Option<u64>
    ensures { result ≡ values.number_of_id mailbox_letter id.now }
{
    match read_id(MAILBOX_LETTER, id) {
        None => None,
        Some(number) => Some(number),
    }
}

/// Adds the number of the Mailbox with the id, where there can be one.
fn add_mailbox(numbers: &mut BTreeSet<u64>, id: &str) -> Result<(), AllocError>
    ensures { OnOk result (numbers.new.keys ≡ sorted_into nat_cmp numbers.old.keys (values.numbers_of_ids (id.now ∷ []))) }
{
    match mailbox_number(id) {
        None => Ok(()),
        Some(number) => {
            numbers.insert(number)?;
            Ok(())
        }
    }
}

/// The numbers of the Mailboxes with these ids. An id that no Mailbox can have is passed over.
pub(crate) fn numbers_of_ids(alloc: Global, ids: &Vec<&str>) -> Result<BTreeSet<u64>, AllocError>
    ensures { IfOk result (λ set. set ≡ values.mailboxes_of_ids (map (λ t. t.now) ids.now.items)) }
{
    let mut numbers = BTreeSet::new(alloc);
    for id in ids {
        add_mailbox(&mut numbers, *id)?;
    }
    Ok(numbers)
}

/// The texts of a list, or none where it is no list of texts.
pub(crate) fn list_of_texts(alloc: Global, value: &Value) -> Result<Option<Vec<&str>>, AllocError>
    ensures { IfOk result (λ o. option_map (λ v. map (λ t. t.now) v.items) o ≡ values.list_of_texts (view value.now)) }
{
    match value {
        Value::Array(items) => texts_in(alloc, items),
        _ => Ok(None),
    }
}

/// An integer from 0 to `MAX_WHOLE_NUMBER`.
pub(crate) fn natural_of(value: &Value) -> Option<u64>
    ensures { result ≡ values.natural_of (view value.now) }
{
    let number = whole_in(value)?;
    if number < 0 {
        None
    } else {
        Some(number as u64)
    }
}

/// The first whole second from a date in UTC on, in seconds since 1970-01-01T00:00:00Z.
pub(crate) fn second_from(value: &Value) -> Option<i64>
    ensures { result ≡ values.second_from (view value.now) }
{
    first_second_from(value.as_str()?.as_bytes())
}

fn lower_case(alloc: Global, octets: &[u8]) -> Result<Bytes, AllocError>
    ensures { IfOk result (λ text. text ≡ map to_ascii_lowercase octets.now) }
{
    let lower = octets
        .iter()
        .map(|octet| octet.to_ascii_lowercase())
        .collect(alloc)?;
    Bytes::from_vec(lower)
}

/// The keyword that a value is, in lower case.
pub(crate) fn keyword_given(alloc: Global, value: &Value) -> Result<Option<Bytes>, AllocError>
    ensures { IfOk result (λ keyword. keyword ≡ values.keyword_given (view value.now)) }
{
    let Some(text) = value.as_str() else {
        return Ok(None);
    };
    if is_keyword(text.as_bytes()) {
        Ok(Some(lower_case(alloc, text.as_bytes())?))
    } else {
        Ok(None)
    }
}

/// The octets of a text.
pub(crate) fn word_of(alloc: Global, value: &Value) -> Result<Option<Bytes>, AllocError>
    ensures { IfOk result (λ word. word ≡ as_str (view value.now)) }
{
    match value.as_str() {
        None => Ok(None),
        Some(text) => Ok(Some(Bytes::copy_of(alloc, text.as_bytes())?)),
    }
}
