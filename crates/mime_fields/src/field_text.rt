// The octets and texts of fields.
ghost use Rattle.std.specs.Prelude.{◌≡◌, IfOk};
ghost use Rattle.std.specs.Option.{option_map};
ghost use Rattle.mail_header.specs.Fields.{names_and_raws, last_named};
ghost use Rattle.mail_header.specs.RawForms.{raw_form};
ghost use Rattle.mime_fields.specs.PartHeaders as headers;

use crate::parameters::trimmed;
use mail_header::{Fields, as_raw, as_text};
use octets::Bytes;
use std::alloc::{AllocError, Global};

/// The octets of the last field of this name, none where there is no such field.
pub(crate) fn octets_of<'a>(fields: &Fields<'a>, name: &[u8]) -> &'a [u8]
    ensures { result.now ≡ headers.field_octets (names_and_raws fields.now) name.now }
{
    match fields.last(name) {
        None => &[],
        Some(raw) => raw,
    }
}

/// The last field of this name as it is written.
pub(crate) fn raw_of(
    alloc: Global,
    fields: &Fields<'_>,
    name: &[u8],
) -> Result<Option<Bytes>, AllocError>
    ensures { IfOk result (λ t. t ≡ option_map raw_form (last_named name.now (names_and_raws fields.now))) }
{
    match fields.last(name) {
        None => Ok(None),
        Some(raw) => Ok(Some(as_raw(alloc, raw)?)),
    }
}

/// The last field of this name as a text without white space at its ends.
pub(crate) fn trimmed_text_of(
    alloc: Global,
    fields: &Fields<'_>,
    name: &[u8],
) -> Result<Option<Bytes>, AllocError>
    ensures { IfOk result (λ t. headers.IsTrimmedTextOf (last_named name.now (names_and_raws fields.now)) t) }
{
    match fields.last(name) {
        None => Ok(None),
        Some(raw) => {
            let text = as_text(alloc, raw)?;
            Ok(Some(Bytes::copy_of(alloc, trimmed(text.as_slice()))?))
        }
    }
}
