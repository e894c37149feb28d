// Trees of parts, and body lists.
use crate::written::{put_field, put_given, put_octets, put_problem};
use mime_tree::{Part, body_lists, parse, part_bytes};
use std::alloc::{AllocError, Global};

fn put_number(out: &mut String, number: Option<u64>) -> Result<(), AllocError> {
    match number {
        None => out.push('-'),
        Some(number) => write!(out, "{number}"),
    }
}

/// Adds the number, the type and, where there is one, the charset.
fn put_kind(out: &mut String, part: &Part) -> Result<(), AllocError> {
    put_number(out, part.number)?;
    out.push(' ')?;
    put_octets(out, part.media.as_slice())?;
    match &part.charset {
        None => Ok(()),
        Some(charset) => {
            out.push(';')?;
            put_octets(out, charset.as_slice())
        }
    }
}

fn put_body(out: &mut String, octets: &[u8], part: &Part) -> Result<(), AllocError> {
    out.push('[')?;
    put_given(out, octets.get(part.start..part.end))?;
    out.push(']')
}

/// Adds a leaf as `1 type/subtype;charset[body]`, a multipart as `- multipart/subtype(parts)`.
fn put_part(out: &mut String, octets: &[u8], part: &Part) -> Result<(), AllocError> {
    put_kind(out, part)?;
    if part.number.is_some() {
        return put_body(out, octets, part);
    }
    out.push('(')?;
    for child in &part.children {
        put_part(out, octets, child)?;
    }
    out.push(')')
}

/// Adds the tree of the octets.
pub(crate) fn put_tree(alloc: Global, octets: &[u8], out: &mut String) -> Result<(), AllocError> {
    put_part(out, octets, &parse(alloc, octets)?)
}

/// Adds the charset, disposition, name, id, language and location.
fn put_texts(out: &mut String, part: &Part) -> Result<(), AllocError> {
    put_field(out, &part.charset)?;
    put_field(out, &part.disposition)?;
    put_field(out, &part.name)?;
    put_field(out, &part.cid)?;
    put_field(out, &part.language)?;
    put_field(out, &part.location)
}

/// Adds what a part has beside its children: its number, type, texts and encoding, and where its header begins and ends and its
/// body begins and ends.
fn put_facts(out: &mut String, part: &Part) -> Result<(), AllocError> {
    put_number(out, part.number)?;
    out.push(' ')?;
    put_octets(out, part.media.as_slice())?;
    out.push('|')?;
    put_texts(out, part)?;
    put_octets(out, part.encoding.as_slice())?;
    let (start, end) = (part.start, part.end);
    write!(out, "|{} {} {start} {end}", part.head_start, part.head_end)
}

/// Adds what the root has.
pub(crate) fn put_root(alloc: Global, octets: &[u8], out: &mut String) -> Result<(), AllocError> {
    put_facts(out, &parse(alloc, octets)?)
}

/// Adds what a leaf has, and the octets that it spells.
pub(crate) fn put_leaf(
    alloc: Global,
    number: &str,
    octets: &[u8],
    out: &mut String,
) -> Result<(), AllocError> {
    let root = parse(alloc, octets)?;
    let Some(part) = root.leaf(number.parse::<u64>().unwrap_or(0)) else {
        return out.push('-');
    };
    put_facts(out, part)?;
    let (spelled, problem) = part_bytes(alloc, octets, part)?;
    out.push('|')?;
    put_octets(out, &spelled)?;
    put_problem(out, problem)
}

/// Adds the numbers with a comma before each but the first, and `|` after them.
fn put_numbers(out: &mut String, numbers: &[u64]) -> Result<(), AllocError> {
    let mut comma = "";
    for number in numbers {
        write!(out, "{comma}{number}")?;
        comma = ",";
    }
    out.push('|')
}

/// Adds the leaves of each body list, and whether there is an attachment.
pub(crate) fn put_lists(alloc: Global, octets: &[u8], out: &mut String) -> Result<(), AllocError> {
    let lists = body_lists(alloc, &parse(alloc, octets)?)?;
    put_numbers(out, lists.text.as_slice())?;
    put_numbers(out, lists.html.as_slice())?;
    put_numbers(out, lists.attachments.as_slice())?;
    out.push_str(if lists.has_attachment { "yes" } else { "no" })
}

/// Adds how many leaves each body list has.
pub(crate) fn put_list_lengths(
    alloc: Global,
    octets: &[u8],
    out: &mut String,
) -> Result<(), AllocError> {
    let lists = body_lists(alloc, &parse(alloc, octets)?)?;
    let (text, html) = (lists.text.len(), lists.html.len());
    write!(out, "{text}|{html}|{}", lists.attachments.len())
}
