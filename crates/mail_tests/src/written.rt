// Octets that are written down as text.
use blob_store::blob_id::blob_id;
use octets::Bytes;
use std::alloc::{AllocError, Global};
use test_rows::octets_of;

/// The most octets that are spelled.
const MAX_SPELLED_OCTETS: usize = 3_000;

/// Adds these octets; of many their number and the id of an upload of them, which has their digest.
pub(crate) fn put_octets(out: &mut String, octets: &[u8]) -> Result<(), AllocError> {
    if octets.len() <= MAX_SPELLED_OCTETS {
        return test_rows::put_octets(out, octets);
    }
    write!(out, "{} octets ", octets.len())?;
    test_rows::put_octets(out, &blob_id(octets))
}

/// Adds these octets, or `-` for none.
pub(crate) fn put_given(out: &mut String, octets: Option<&[u8]>) -> Result<(), AllocError> {
    match octets {
        None => out.push('-'),
        Some(octets) => put_octets(out, octets),
    }
}

/// Adds this text and `|`, or `-|` for none.
pub(crate) fn put_field(out: &mut String, text: &Option<Bytes>) -> Result<(), AllocError> {
    match text {
        None => out.push('-')?,
        Some(text) => put_octets(out, text.as_slice())?,
    }
    out.push('|')
}

/// Adds whether there was a problem.
pub(crate) fn put_problem(out: &mut String, problem: bool) -> Result<(), AllocError> {
    out.push_str(if problem { "|problem" } else { "|well" })
}

/// The octets that are written down.
#[derive(Drop)]
pub(crate) struct Written {
    octets: Vec<u8>,
    alloc: Global,
}

impl Written {
    pub(crate) fn new(alloc: Global) -> Written {
        let octets = Vec::new(alloc);
        Written { octets, alloc }
    }

    pub(crate) fn clear(&mut self) {
        self.octets.clear();
    }

    /// The octets, and those of the text after them.
    pub(crate) fn with(&self, text: &str) -> Result<Vec<u8>, AllocError> {
        let mut octets = self.octets.to_vec(self.alloc)?;
        octets.extend_from_slice(&octets_of(self.alloc, text)?)?;
        Ok(octets)
    }

    fn put(&mut self, text: &str, end: &[u8]) -> Result<(), AllocError> {
        let octets = octets_of(self.alloc, text)?;
        self.octets.extend_from_slice(&octets)?;
        self.octets.extend_from_slice(end)?;
        Ok(())
    }

    /// Adds the text this often.
    fn repeat(&mut self, count: u64, text: &str) -> Result<(), AllocError> {
        let piece = octets_of(self.alloc, text)?;
        for _ in 0..count {
            self.octets.extend_from_slice(&piece)?;
        }
        Ok(())
    }

    /// Adds the text for each number from 0 up to this many, in place of each `%n`.
    fn put_numbered(&mut self, count: u64, text: &str) -> Result<(), AllocError> {
        for number in 0..count {
            let number = format!(in self.alloc; "{number:02}")?;
            self.put(&text.replace(self.alloc, "%n", &number)?, b"")?;
        }
        Ok(())
    }

    /// Does what a line says of the octets.
    pub(crate) fn take(&mut self, word: &str, text: &str) -> Result<(), AllocError> {
        let (count, piece) = text.split_once(' ').unwrap_or((text, ""));
        let count = count.parse::<u64>().unwrap_or(0);
        match word {
            "part" => self.put(text, b""),
            "line" => self.put(text, b"\r\n"),
            "lf" => self.put(text, b"\n"),
            "repeat" => self.repeat(count, piece),
            _ => self.put_numbered(count, piece),
        }
    }
}
