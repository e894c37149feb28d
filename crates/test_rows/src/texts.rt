// Words, numbers and octets of a text.
use percent_encoding::{CONTROLS, percent_decode, percent_encode};
use std::alloc::{AllocError, Global};

/// The text up to its first space, and what follows that space.
pub fn first_word(text: &str) -> (&str, &str) {
    match text.split_once(' ') {
        Some(words) => words,
        None => (text, ""),
    }
}

/// The number that the text begins with, 0 where it is none, and what follows the space behind it.
pub fn first_number(text: &str) -> (u64, &str) {
    let (word, rest) = first_word(text);
    (word.parse::<u64>().unwrap_or(0), rest)
}

/// The same, where the number is a UID.
pub fn first_uid(text: &str) -> (u32, &str) {
    let (word, rest) = first_word(text);
    (word.parse::<u32>().unwrap_or(0), rest)
}

/// The octets of a text, in which `%` and two hexadecimal digits stand for one octet.
pub fn octets_of(alloc: Global, text: &str) -> Result<Vec<u8>, AllocError> {
    let mut octets = Vec::new(alloc);
    percent_decode(text.as_bytes()).append_to(&mut octets)?;
    Ok(octets)
}

/// Adds octets as text: those outside 32 to 126, and `%`, as `%` and two hexadecimal digits.
pub fn put_octets(out: &mut String, octets: &[u8]) -> Result<(), AllocError> {
    percent_encode(octets, CONTROLS.add(b'%')).append_to(out)
}
