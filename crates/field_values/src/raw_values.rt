// The raw values of fields.
ghost use Rattle.std.specs.Prelude.{◌≡◌, ◌++◌, None, Some, IfOk, OnOk, MatchOption, map, slice_get, option_to_list};
ghost use Rattle.mail_header.specs.Fields.{field_view, names_and_raws};
ghost use Rattle.field_values.specs.HeaderProperties as spec;
ghost use Rattle.field_values.specs.reading.Gathering as reading;

use mail_header::{Field, Fields};
use std::alloc::{AllocError, Global};
use text_words::same_text;

/// The field at this place, from 0 on.
pub(crate) fn field_at<'a>(fields: &Fields<'a>, at: usize) -> Option<Field<'a>>
    ensures { MatchOption result (slice_get (names_and_raws fields.now) at ≡ None) (λ f. slice_get (names_and_raws fields.now) at ≡ Some (field_view f)) }
{
    let name = fields.name(at)?;
    let raw = fields.raw(at)?;
    Some(Field { name, raw })
}

/// Adds the raw value of the field at this place, where it has this name.
fn push_raw<'a>(
    raws: &mut Vec<&'a [u8]>,
    fields: &Fields<'a>,
    at: usize,
    name: &[u8],
) -> Result<(), AllocError>
    ensures { OnOk result (map (λ r. r.now) raws.new.items
        ≡ map (λ r. r.now) raws.old.items ++ option_to_list (reading.raw_at name.now (names_and_raws fields.now) at)) }
{
    let Some(field) = field_at(fields, at) else {
        return Ok(());
    };
    if !same_text(field.name, name) {
        return Ok(());
    }
    raws.push(field.raw)?;
    Ok(())
}

/// The raw values of the fields of this name, in their order.
pub(crate) fn raws_in<'a>(
    alloc: Global,
    fields: &Fields<'a>,
    name: &[u8],
) -> Result<Vec<&'a [u8]>, AllocError>
    ensures { IfOk result (λ raws. map (λ r. r.now) raws.items ≡ spec.raws_named name.now (names_and_raws fields.now)) }
{
    let mut raws = Vec::new(alloc);
    for at in 0..fields.len() {
        push_raw(&mut raws, fields, at, name)?;
    }
    Ok(raws)
}
