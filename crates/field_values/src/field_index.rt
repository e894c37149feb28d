// The raw values of fields by the fields' names.
ghost use Rattle.std.specs.Prelude.{◌≡◌, ◌++◌, ◌∷◌, [], ℕ, List, IfOk, OnOk, bytes_eq, map, option_to_list, if◌then◌else◌};
ghost use Rattle.std.specs.Char.{to_ascii_lowercase};
ghost use Rattle.std.specs.Option.{option_map_or};
ghost use Rattle.mail_header.specs.Fields.{names_and_raws};
ghost use Rattle.field_values.specs.reading.FieldIndex.{IsIndexOf, raws_at};
ghost use Rattle.field_values.specs.reading.Gathering.{raw_at};

use crate::raw_values::field_at;
use mail_header::Fields;
use std::alloc::{AllocError, Global};
use std::collections::BTreeMap;

/// At each name in lower case the raw values of its fields, in their order.
pub(crate) type FieldIndex<'a> = BTreeMap<Vec<u8>, Vec<&'a [u8]>>;

/// A name in lower case.
fn in_lower_case(alloc: Global, name: &[u8]) -> Result<Vec<u8>, AllocError>
    ensures { IfOk result (λ v. v.items ≡ map to_ascii_lowercase name.now) }
{
    name.to_ascii_lowercase(alloc)
}

/// The list that was found, or a new one.
fn list_or_new<'a>(alloc: Global, found: Option<Vec<&'a [u8]>>) -> Vec<&'a [u8]>
    ensures { map (λ r. r.now) result.items ≡ option_map_or (λ v. map (λ r. r.now) v.items) found.entry [] }
{
    match found {
        None => Vec::new(alloc),
        Some(raws) => raws,
    }
}

/// Adds a raw value to those of the name, which is in lower case.
fn add_raw<'a>(
    index: &mut FieldIndex<'a>,
    alloc: Global,
    name: Vec<u8>,
    raw: &'a [u8],
) -> Result<(), AllocError>
    ensures { OnOk result ((q : List ℕ) → raws_at index.new q ≡ (if bytes_eq name.items q then raws_at index.old q ++ raw.now ∷ [] else raws_at index.old q)) }
{
    let mut raws = list_or_new(alloc, index.remove(name.as_slice()));
    raws.push(raw)?;
    index.insert(name, raws)?;
    Ok(())
}

/// Adds the raw value of the field at this place.
fn add_field<'a>(
    index: &mut FieldIndex<'a>,
    alloc: Global,
    fields: &Fields<'a>,
    at: usize,
) -> Result<(), AllocError>
    ensures { OnOk result ((name : List ℕ) → raws_at index.new (map to_ascii_lowercase name)
        ≡ raws_at index.old (map to_ascii_lowercase name) ++ option_to_list (raw_at name (names_and_raws fields.now) at)) }
{
    let Some(field) = field_at(fields, at) else {
        return Ok(());
    };
    let name = in_lower_case(alloc, field.name)?;
    add_raw(index, alloc, name, field.raw)
}

/// An index of the fields: it costs a look-up for each.
pub(crate) fn index_of<'a>(alloc: Global, fields: &Fields<'a>) -> Result<FieldIndex<'a>, AllocError>
    ensures { IfOk result (λ index. IsIndexOf index (names_and_raws fields.now)) }
{
    let mut index = BTreeMap::new(alloc);
    for at in 0..fields.len() {
        add_field(&mut index, alloc, fields, at)?;
    }
    Ok(index)
}

/// The list of raw values at a name, without regard to case.
pub(crate) fn raws_of<'i, 'a>(
    index: &'i FieldIndex<'a>,
    alloc: Global,
    name: &[u8],
) -> Result<Option<&'i Vec<&'a [u8]>>, AllocError>
    ensures { IfOk result (λ raws. option_map_or (λ v. map (λ r. r.now) v.now.items) raws [] ≡ raws_at index.now (map to_ascii_lowercase name.now)) }
{
    let name = in_lower_case(alloc, name)?;
    Ok(index.get(name.as_slice()))
}
