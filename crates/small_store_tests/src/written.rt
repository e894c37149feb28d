// Octets as text.
use std::alloc::{AllocError, Global};
use test_rows::{first_number, octets_of, put_octets};

/// The octets of a text, in which `|` stands for CR LF, `%` and two hexadecimal digits for one octet, and `^COUNT TEXT^` for a text so
/// many times.
pub(crate) fn written(alloc: Global, text: &str) -> Result<Vec<u8>, AllocError> {
    let text = text.replace(alloc, "|", "%0D%0A")?;
    let mut octets = Vec::new(alloc);
    let mut is_counted = false;
    for part in text.split('^') {
        let (count, part) = if is_counted {
            first_number(part)
        } else {
            (1, part)
        };
        let piece = octets_of(alloc, part)?;
        let count = usize::try_from(count).unwrap_or(0);
        octets.extend_from_slice(&piece.repeat(alloc, count)?)?;
        is_counted = !is_counted;
    }
    Ok(octets)
}

/// Adds octets as text, with this text for each CR LF.
pub(crate) fn put_told(
    alloc: Global,
    octets: &[u8],
    line_end: &str,
    out: &mut String,
) -> Result<(), AllocError> {
    let mut text = String::new(alloc);
    put_octets(&mut text, octets)?;
    out.push_str(&text.replace(alloc, "%0D%0A", line_end)?)
}
