// The octets that a store sends, as they are written down.
use std::alloc::{AllocError, Global};
use std::mem;
use test_rows::{first_number, octets_of};

/// The octets that a store sends next, and those with which its lives begin.
#[derive(Drop)]
pub(crate) struct Sent {
    octets: Vec<u8>,
    opening: Vec<u8>,
    alloc: Global,
}

impl Sent {
    pub(crate) fn new(alloc: Global) -> Sent {
        Sent {
            octets: Vec::new(alloc),
            opening: Vec::new(alloc),
            alloc,
        }
    }

    pub(crate) fn as_slice(&self) -> &[u8] {
        &self.octets
    }

    pub(crate) fn clear(&mut self) {
        self.octets.clear();
    }

    /// The octets, of which none is left.
    pub(crate) fn taken(&mut self) -> Vec<u8> {
        mem::replace(&mut self.octets, Vec::new(self.alloc))
    }

    fn put(&mut self, octets: &[u8]) -> Result<(), AllocError> {
        self.octets.extend_from_slice(octets)?;
        Ok(())
    }

    fn put_text(&mut self, text: &str) -> Result<(), AllocError> {
        let octets = octets_of(self.alloc, text)?;
        self.put(&octets)
    }

    /// Adds the text with this number in place of each `%n`.
    fn put_numbered(&mut self, text: &str, number: u64) -> Result<(), AllocError> {
        let number = format!(in self.alloc; "{number}")?;
        let text = text.replace(self.alloc, "%n", &number)?;
        self.put_text(&text)
    }

    /// Adds the text for each number from one to another, up or down.
    fn repeat(&mut self, text: &str) -> Result<(), AllocError> {
        let (first, text) = first_number(text);
        let (last, text) = first_number(text);
        for step in 0..=first.abs_diff(last) {
            let number = if first <= last {
                first.saturating_add(step)
            } else {
                first.saturating_sub(step)
            };
            self.put_numbered(text, number)?;
        }
        Ok(())
    }

    /// Does what a line says of the octets.
    pub(crate) fn take(&mut self, word: &str, text: &str) -> Result<(), AllocError> {
        match word {
            "store" => {
                self.put_text(text)?;
                self.put(b"\r\n")
            }
            "part" => self.put_text(text),
            "repeat" => self.repeat(text),
            "open" => {
                self.octets.extend_from_slice(&self.opening)?;
                Ok(())
            }
            _ => {
                self.opening = self.taken();
                Ok(())
            }
        }
    }
}
