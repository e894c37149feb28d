// Octets as text.
use octets::Bytes;
use std::alloc::{AllocError, Global};
use test_rows::{first_number, octets_of, put_octets};

/// The most octets of a value that are printed.
const MAX_PRINTED_OCTETS: usize = 200;

/// The octets of a text, in which `^COUNT TEXT^` stands for a text so many times.
pub(crate) fn written(alloc: Global, text: &str) -> Result<Vec<u8>, AllocError> {
    let mut octets = Vec::new(alloc);
    let mut is_counted = false;
    for part in text.split('^') {
        let (count, part) = if is_counted {
            first_number(part)
        } else {
            (1, part)
        };
        let piece = octets_of(alloc, part)?;
        let count = usize::try_from(count).unwrap_or(0);
        octets.extend_from_slice(&piece.repeat(alloc, count)?)?;
        is_counted = !is_counted;
    }
    Ok(octets)
}

/// Adds octets, or how many they are.
pub(crate) fn put_short(out: &mut String, octets: &[u8]) -> Result<(), AllocError> {
    if octets.len() > MAX_PRINTED_OCTETS {
        return write!(out, "{} octets", octets.len());
    }
    put_octets(out, octets)
}

/// Adds a word, and texts with `,` before each.
pub(crate) fn put_all(out: &mut String, word: &str, texts: &[&[u8]]) -> Result<(), AllocError> {
    out.push_str(word)?;
    for text in texts {
        out.push(',')?;
        put_short(out, text)?;
    }
    Ok(())
}

/// The octets of a value that may be missing.
pub(crate) fn or_dash(octets: &Option<Bytes>) -> &[u8] {
    match octets {
        Some(octets) => octets.as_slice(),
        None => b"-",
    }
}
