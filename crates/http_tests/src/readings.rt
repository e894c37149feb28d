// Rows of clients, each in pieces of several sizes.
use crate::clients::Client;
use crate::written::written;
use http_service::MAX_HEAD_OCTETS;
use std::alloc::{AllocError, Global};
use test_rows::{first_number, first_word};

/// How clients are read.
#[derive(Drop)]
pub(crate) struct Setting {
    /// What stands before the octets of each row.
    pub front: Vec<u8>,
    /// The most octets that one recv gives, each in turn.
    pub pieces: String,
    /// The most octets of a body.
    pub limit: u64,
    pub alloc: Global,
}

impl Setting {
    pub(crate) fn new(alloc: Global) -> Result<Setting, AllocError> {
        Ok(Setting {
            pieces: String::from_str(alloc, "1")?,
            front: Vec::new(alloc),
            limit: 0,
            alloc,
        })
    }

    pub(crate) fn set(&mut self, word: &str, text: &str) -> Result<(), AllocError> {
        match word {
            "pieces" => self.pieces = String::from_str(self.alloc, text)?,
            "limit" => self.limit = first_number(text).0,
            _ => self.front = written(self.alloc, text)?,
        }
        Ok(())
    }

    /// All octets of a row.
    fn octets(&self, text: &str) -> Result<Vec<u8>, AllocError> {
        let mut octets = self.front.to_vec(self.alloc)?;
        octets.extend_from_slice(&written(self.alloc, text)?)?;
        Ok(octets)
    }

    /// The client that gives these octets, of which this is read, in pieces of the first size that is named.
    fn read(
        &self,
        words: &str,
        octets: &[u8],
        pieces: &str,
        failing: u64,
    ) -> Result<Client, AllocError> {
        let (piece, _) = first_number(pieces);
        let piece = usize::try_from(piece).unwrap_or(0);
        let mut client = Client::new(self.alloc, octets, piece, failing)?;
        client.read(words, self.limit)?;
        client.put_taken()?;
        Ok(client)
    }

    /// Adds how many of the octets behind the front are asked for, and what comes of them, in pieces of the first size; and what
    /// comes in others, where it is something else, or more octets are asked for than in the first and than a head may have.
    fn put_octets(&self, words: &str, octets: &[u8], out: &mut String) -> Result<(), AllocError> {
        let first = self.read(words, octets, &self.pieces, 0)?;
        let asked = first.given().saturating_sub(self.front.len());
        writeln!(out, "{asked} asked for{}", first.said)?;
        let most = first.given().max(MAX_HEAD_OCTETS);
        for piece in self.pieces.split(' ') {
            let other = self.read(words, octets, piece, 0)?;
            let given = other.given();
            if other.said != first.said || given > most {
                writeln!(out, "in pieces of {piece} {given} given{}", other.said)?;
            }
        }
        Ok(())
    }

    /// Adds what comes of a row's octets.
    pub(crate) fn put_row(
        &self,
        words: &str,
        text: &str,
        out: &mut String,
    ) -> Result<(), AllocError> {
        let octets = self.octets(text)?;
        self.put_octets(words, &octets, out)
    }

    /// Adds what comes of the octets, where it isn't just that they are short.
    fn put_cut(&self, words: &str, octets: &[u8], out: &mut String) -> Result<(), AllocError> {
        let mut row = String::new(self.alloc);
        self.put_octets(words, octets, &mut row)?;
        if row.contains("for; Short") && row.lines().count() == 1 {
            return Ok(());
        }
        write!(out, "cut after {}: {row}", octets.len())
    }

    /// Adds what comes of the octets, and where they are cut what isn't just that they are short.
    pub(crate) fn put_cuts(&self, text: &str, out: &mut String) -> Result<(), AllocError> {
        let (words, text) = first_word(text);
        let octets = self.octets(text)?;
        self.put_octets(words, &octets, out)?;
        for cut in 0..octets.len() {
            let (front, _) = octets.split_at(cut);
            self.put_cut(words, front, out)?;
        }
        writeln!(out, "cut before each of {} octets", octets.len())
    }

    /// Adds what comes of the octets where each call from the first to the last fails in turn, at a call where it is something
    /// else than at the one before.
    pub(crate) fn put_fails(&self, text: &str, out: &mut String) -> Result<(), AllocError> {
        let (first, text) = first_number(text);
        let (last, text) = first_number(text);
        let (words, text) = first_word(text);
        let octets = self.octets(text)?;
        let mut before = String::new(self.alloc);
        for call in first..=last {
            let said = self.read(words, &octets, &self.pieces, call)?.said;
            if said != before {
                writeln!(out, "call {call} fails{said}")?;
                before = said;
            }
        }
        writeln!(out, "up to call {last}")
    }
}
