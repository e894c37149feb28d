// The blocks of lines of a header, and the fields that they are.
ghost use Rattle.std.specs.Prelude.{◌≡◌, ◌≤◌, ℕ, List, length, None, Some, IfOk, OnOk, MatchOption};
ghost use Rattle.std.specs.Option.{option_map};
ghost use Rattle.mail_header.specs.Fields as fields;
ghost use Rattle.mail_header.specs.reading.HeaderLines as reading;

use crate::header::{Field, Fields};
use crate::lines::without_end;
use std::alloc::{AllocError, Global};
use text_words::{Blank, Class, behind, cut, is_blank, line_end_len, same_text};

/// The octets of a field's name.
struct NameOctet;

impl Class<u8> for NameOctet {
    ghost test = { fields.is_name };

    fn has(&self, item: &u8) -> bool {
        b'!' <= *item && *item <= b'~' && *item != b':'
    }
}

/// The fields of the header at the front of the octets (RFC 5322 section 2.2), which may be any. The header ends at
/// the first empty line or at the end. Lines that are no field's are passed over with those that continue them. It takes
/// 32 octets of memory for each field.
pub fn fields(alloc: Global, bytes: &[u8]) -> Result<Fields<'_>, AllocError>
    ensures { IfOk result (λ f. fields.IsHeader (fields.names_and_raws f) f.end bytes.now) }
{
    let mut list = Vec::new(alloc);
    let mut rest = bytes;
    while let Some((block, more)) = block_at(rest) {
        push_field(&mut list, block)?;
        rest = more;
    }
    let end = bytes.len() - rest.len() + line_end_len(rest);
    Ok(Fields { list, end })
}

/// The raw value of the last field of this name in the header at the front of the octets, without regard to case. It
/// takes no memory.
pub fn last_field<'a>(bytes: &'a [u8], name: &[u8]) -> Option<&'a [u8]>
    ensures { MatchOption result (fields.IsLastField name.now bytes.now None) (λ r. fields.IsLastField name.now bytes.now (Some r.now)) }
{
    let mut found = None;
    let mut rest = bytes;
    while let Some((block, more)) = block_at(rest) {
        found = later(found, name, block);
        rest = more;
    }
    found
}

/// The raw value of the block, where it is a field of this name, and else what was found before it.
fn later<'a>(found: Option<&'a [u8]>, name: &[u8], block: &'a [u8]) -> Option<&'a [u8]>
    ensures { reading.LaterField name.now block.now (option_map (λ t. t.now) found.entry) (option_map (λ t. t.now) result) }
{
    match field_of(block) {
        None => found,
        Some((its_name, raw)) => {
            if same_text(its_name, name) {
                Some(raw)
            } else {
                found
            }
        }
    }
}

/// The block of lines at the front, and what follows it. There is none at the end and at an empty line.
fn block_at(text: &[u8]) -> Option<(&[u8], &[u8])>
    ensures { MatchOption result (reading.EndsHeader text.now) (λ r. reading.IsBlockAt text.now r.0.now r.1.now) }
{
    if text.is_empty() {
        return None;
    }
    if line_end_len(text) > 0 {
        return None;
    }
    Some(text.split_at(block_len(text)))
}

/// Adds the block's field, where it is one.
fn push_field<'a>(list: &mut Vec<Field<'a>>, block: &'a [u8]) -> Result<(), AllocError>
    ensures { OnOk result (reading.AddsField block.now (fields.fields_view list.old.items) (fields.fields_view list.new.items)) }
{
    match field_of(block) {
        None => Ok(()),
        Some((name, raw)) => Ok(list.push(Field { name, raw })?),
    }
}

/// The name and the raw value of a block of lines, where it is a field.
fn field_of(block: &[u8]) -> Option<(&[u8], &[u8])>
    ensures { MatchOption result ((name raw : List ℕ) → fields.IsField name raw block.now → ⊥) (λ f. fields.IsField f.0.now f.1.now block.now) }
{
    let (name, rest) = cut(&NameOctet, block);
    if name.is_empty() {
        return None;
    }
    let (_, rest) = cut(&Blank, rest);
    match behind(b':', rest) {
        None => None,
        Some(value) => Some((name, without_end(value))),
    }
}

/// How many octets the block at the front has: a line and those that continue it.
fn block_len(text: &[u8]) -> usize
    ensures value { result ≡ reading.block_len text.now }
    ensures within { result ≤ length text.now }
{
    for (i, octet) in text.iter().enumerate() {
        let (_, rest) = text.split_at(i + 1);
        if *octet == b'\n' && !begins_with_blank(rest) {
            return i + 1;
        }
    }
    text.len()
}

fn begins_with_blank(text: &[u8]) -> bool
    ensures { result ≡ fields.begins_with_blank text.now }
{
    match text {
        [] => false,
        [first, ..] => is_blank(*first),
    }
}
