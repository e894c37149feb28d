// Base subjects.
use mail_header::as_text;
use std::alloc::{AllocError, Global};
use test_rows::{first_number, octets_of, put_octets};
use thread_rule::{base_of, base_subject};

/// Of `TIMES FRONT|BACK` the front so many times, and then the back as often.
fn nested(alloc: Global, text: &str) -> Result<Vec<u8>, AllocError> {
    let (times, text) = first_number(text);
    let (front, back) = text.split_once('|').unwrap_or((text, ""));
    let front = front.repeat(alloc, times as usize)?;
    let back = back.repeat(alloc, times as usize)?;
    octets_of(alloc, &format!(in alloc; "{front}{back}")?)
}

/// Adds the base subject of a text; of a long one only how many octets it has, and whether they are all of the text.
fn put(base: &[u8], octets: &[u8], out: &mut String) -> Result<(), AllocError> {
    out.push_str(" ->|")?;
    if base.len() <= 100 {
        return put_octets(out, base);
    }
    let part = if base == octets { "all" } else { "some" };
    write!(out, "{} octets, {part} of the text", base.len())
}

/// Adds the base subject of a text, of a raw value, or of a text whose white space is left as it is.
pub(crate) fn put_base(
    alloc: Global,
    word: &str,
    text: &str,
    out: &mut String,
) -> Result<(), AllocError> {
    let octets = match text.strip_prefix('#') {
        Some(parts) => nested(alloc, parts)?,
        None => octets_of(alloc, text)?,
    };
    if word == "form" {
        return put(base_of(&octets), &octets, out);
    }
    let base = match word {
        "raw" => base_subject(alloc, as_text(alloc, &octets)?.as_slice())?,
        _ => base_subject(alloc, &octets)?,
    };
    put(base.as_slice(), &octets, out)
}
