// Fields that are found by their names.
ghost use Rattle.std.specs.Prelude.{◌≡◌, None, Some, IfOk, MatchOption, map};
ghost use Rattle.std.specs.List.{AllZip};
ghost use Rattle.serde_json.specs.View.{view};
ghost use Rattle.mail_header.specs.Fields.{last_named, names_and_raws};
ghost use Rattle.field_values.specs.Forms.{IsFormData};
ghost use Rattle.field_values.specs.HeaderProperties as spec;
ghost use Rattle.field_values.specs.HeaderProperties.{raws_named};
ghost use Rattle.field_values.specs.reading.Gathering.{last_raw};

use crate::field_index::{FieldIndex, index_of, raws_of};
use crate::forms::form_value;
use crate::raw_values::raws_in;
use email_properties::HeaderForm;
use mail_header::Fields;
use serde_json::Value;
use std::alloc::{AllocError, Global};
use std::marker::Model;

/// From how many properties on that ask fields by their names an index costs less than looking at each field for each of them.
pub const INDEXED_FROM: usize = 8;

/// The fields of a header, and an index by which they are found by their names, where one was asked for. Contracts see the fields.
#[derive(Drop)]
pub struct NamedFields<'a> {
    fields: Fields<'a>,
    index: Option<FieldIndex<'a>>,
}

impl<'a> Model for NamedFields<'a> {
    ghost use Rattle.std.specs.Prelude.{List};
    ghost use Rattle.std.specs.Option.{ForSome};
    ghost use Rattle.mail_header.specs.Fields.{NameAndRaw, names_and_raws};
    ghost use Rattle.field_values.specs.reading.FieldIndex.{IsIndexOf};

    ghost Value = { List NameAndRaw };

    ghost view = { λ n. names_and_raws n.fields };

    ghost invariant = { λ n. ForSome n.index (λ index. IsIndexOf index (names_and_raws n.fields)) };
}

/// The last of these.
fn last_of<'a>(raws: &[&'a [u8]]) -> Option<&'a [u8]>
    ensures { MatchOption result (last_raw (map (λ r. r.now) raws.now) ≡ None) (λ r. last_raw (map (λ r. r.now) raws.now) ≡ Some r.now) }
{
    raws.last().copied()
}

/// The data of each of these raw values in a form.
fn values_of(alloc: Global, raws: &[&[u8]], form: HeaderForm) -> Result<Vec<Value>, AllocError>
    ensures { IfOk result (λ values. AllZip (IsFormData form) (map (λ r. r.now) raws.now) (map view values.items)) }
{
    let mut values = Vec::with_capacity(alloc, raws.len())?;
    for raw in raws {
        values.push(form_value(alloc, form, *raw)?)?;
    }
    Ok(values)
}

impl<'a> NamedFields<'a> {
    /// The fields, with an index of them where it is asked for.
    pub fn new(
        alloc: Global,
        fields: Fields<'a>,
        indexed: bool,
    ) -> Result<NamedFields<'a>, AllocError>
        ensures { IfOk result (λ named. named ≡ names_and_raws fields.entry) }
    {
        let index = if indexed {
            Some(index_of(alloc, &fields)?)
        } else {
            None
        };
        Ok(NamedFields { fields, index })
    }

    /// The fields themselves.
    pub fn fields(&self) -> &Fields<'a>
        ensures { names_and_raws result.now ≡ self.now }
    {
        &self.fields
    }

    /// The raw value of the last field of this name, without regard to case.
    fn last(&self, alloc: Global, name: &[u8]) -> Result<Option<&'a [u8]>, AllocError>
        ensures { IfOk result (λ raw. MatchOption raw (last_named name.now self.now ≡ None) (λ r. last_named name.now self.now ≡ Some r.now)) }
    {
        match &self.index {
            None => Ok(self.fields.last(name)),
            Some(index) => match raws_of(index, alloc, name)? {
                None => Ok(None),
                Some(raws) => Ok(last_of(raws.as_slice())),
            },
        }
    }

    /// The data of the last field of this name in a form; null where there is no such field.
    pub(crate) fn last_value(
        &self,
        alloc: Global,
        name: &[u8],
        form: HeaderForm,
    ) -> Result<Value, AllocError>
        ensures { IfOk result (λ value. spec.IsLastData form name.now self.now (view value)) }
    {
        match self.last(alloc, name)? {
            None => Ok(Value::Null),
            Some(raw) => form_value(alloc, form, raw),
        }
    }

    /// The data of each field of this name in a form, in their order.
    pub(crate) fn values(
        &self,
        alloc: Global,
        name: &[u8],
        form: HeaderForm,
    ) -> Result<Vec<Value>, AllocError>
        ensures { IfOk result (λ values. AllZip (IsFormData form) (raws_named name.now self.now) (map view values.items)) }
    {
        match &self.index {
            None => {
                let raws = raws_in(alloc, &self.fields, name)?;
                values_of(alloc, raws.as_slice(), form)
            }
            Some(index) => match raws_of(index, alloc, name)? {
                None => Ok(Vec::new(alloc)),
                Some(raws) => values_of(alloc, raws.as_slice(), form),
            },
        }
    }
}
