// Rows of jobs.
use crate::cut_link::CutLink;
use crate::playing::{Played, play};
use std::alloc::{AllocError, Global};
use std::mem;
use test_rows::{TestRows, first_word, octets_of};

/// What the rows so far have left.
#[derive(Drop)]
pub(crate) struct Rows {
    /// What a store gives until the round is done.
    pub opening: Vec<u8>,
    /// What it gives then.
    pub octets: Vec<u8>,
    /// Steps, and ends of items.
    pub lines: Vec<String>,
    pub alloc: Global,
}

impl Rows {
    pub(crate) fn new(alloc: Global) -> Rows {
        Rows {
            opening: Vec::new(alloc),
            octets: Vec::new(alloc),
            lines: Vec::new(alloc),
            alloc,
        }
    }

    /// Adds a line of the store.
    fn store(&mut self, text: &str) -> Result<(), AllocError> {
        let octets = octets_of(self.alloc, text)?;
        self.octets.extend_from_slice(&octets)?;
        self.octets.extend_from_slice(b"\r\n")?;
        Ok(())
    }

    fn line(&mut self, line: &str) -> Result<(), AllocError> {
        self.lines.push(String::from_str(self.alloc, line)?)?;
        Ok(())
    }

    /// A link that gives so many octets after the opening, and takes so many.
    fn link(&self, gives: usize, takes: usize) -> Result<CutLink, AllocError> {
        let mut octets = self.opening.as_slice().to_vec(self.alloc)?;
        let given = self.octets.get(..gives).unwrap_or(self.octets.as_slice());
        octets.extend_from_slice(given)?;
        Ok(CutLink::new(self.alloc, octets, takes))
    }

    /// Does the items over such a link.
    pub(crate) fn play(&self, gives: usize, takes: usize) -> Result<Played, AllocError> {
        play(self.alloc, self.link(gives, takes)?, &self.lines)
    }

    /// Does the items, and prints what comes of them.
    fn play_whole(&self, out: &mut String) -> Result<(), AllocError> {
        let played = self.play(self.octets.len(), usize::MAX)?;
        write!(out, "{}\n{}", played.ends, played.took)
    }
}

impl TestRows for Rows {
    fn begin(&mut self) -> Result<(), AllocError> {
        self.octets.clear();
        self.lines.clear();
        Ok(())
    }

    fn take(&mut self, line: &str, out: &mut String) -> Result<(), AllocError> {
        let (word, text) = first_word(line);
        match word {
            "store" => self.store(text),
            "opening" => {
                self.opening = mem::replace(&mut self.octets, Vec::new(self.alloc));
                Ok(())
            }
            "do" => self.play_whole(out),
            "cuts" => self.cuts(out),
            _ => self.line(line),
        }
    }
}
