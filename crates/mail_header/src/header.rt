// The fields of a header, which lend their names and values.
ghost use Rattle.std.specs.Prelude.{◌≡◌, ◌≤◌, None, Some, length, MatchOption, slice_get};
ghost use Rattle.mail_header.specs.Fields as fields;

use text_words::same_text;

/// A field of a header: its name, and its raw value, which is what follows the colon with its inner line ends and
/// without the last one. Both are parts of the header's octets.
#[derive(Clone, Copy)]
pub struct Field<'a> {
    /// One or more octets from 33 to 126 other than the colon, as they are spelled.
    pub name: &'a [u8],
    /// With the white space after the colon.
    pub raw: &'a [u8],
}

/// The fields of a header in their order, and where the header ends. Names and values are lent by the header's octets.
#[derive(Drop)]
pub struct Fields<'a> {
    pub(crate) list: Vec<Field<'a>>,
    pub(crate) end: usize,
}

impl<'a> Fields<'a> {
    /// How many fields there are.
    pub fn len(&self) -> usize
        ensures { result ≡ length (fields.names_and_raws self.now) }
    {
        self.list.len()
    }

    /// The name of the field at this place, from 0 on.
    pub fn name(&self, at: usize) -> Option<&'a [u8]>
        ensures { MatchOption result (slice_get (fields.names_and_raws self.now) at ≡ None) (λ n. (f : fields.NameAndRaw) × (slice_get (fields.names_and_raws self.now) at ≡ Some f) × (n.now ≡ f.0)) }
    {
        match self.list.as_slice().get(at) {
            None => None,
            Some(field) => Some(field.name),
        }
    }

    /// The raw value of the field at this place, from 0 on.
    pub fn raw(&self, at: usize) -> Option<&'a [u8]>
        ensures { MatchOption result (slice_get (fields.names_and_raws self.now) at ≡ None) (λ r. (f : fields.NameAndRaw) × (slice_get (fields.names_and_raws self.now) at ≡ Some f) × (r.now ≡ f.1)) }
    {
        match self.list.as_slice().get(at) {
            None => None,
            Some(field) => Some(field.raw),
        }
    }

    /// The raw value of the last field of this name, without regard to case.
    pub fn last(&self, name: &[u8]) -> Option<&'a [u8]>
        ensures { MatchOption result (fields.last_named name.now (fields.names_and_raws self.now) ≡ None)
            (λ r. fields.last_named name.now (fields.names_and_raws self.now) ≡ Some r.now) }
    {
        last_in(self.list.as_slice(), name)
    }

    /// The place after the empty line that ends the header, or the length of the octets where there is none.
    pub fn end(&self) -> usize
        ensures { result ≡ self.now.end }
    {
        self.end
    }
}

/// The raw value of the last field of this name.
fn last_in<'a>(list: &[Field<'a>], name: &[u8]) -> Option<&'a [u8]>
    ensures { MatchOption result (fields.last_named name.now (fields.fields_view list.now) ≡ None)
        (λ r. fields.last_named name.now (fields.fields_view list.now) ≡ Some r.now) }
{
    let mut at = list.len();
    while at > 0 {
        at -= 1;
        let field = &list[at];
        if same_text(field.name, name) {
            return Some(field.raw);
        }
    }
    None
}
