//! Drafts that are read and written: reads rows from standard input, the properties of Emails that are to be created, and prints
//! their messages, or why there is none. The legend stands at the top of the file `stdin`, and what has to come of its rows in the
//! file `stdout`.
#![tactic(auto)]

use blob_store::BlobStore;
use draft_reading::read_draft;
use mail_drafts::{BuildError, Draft};
use message_texts::build;
use serde_json::{Error, Map, Value};
use std::alloc::{AllocError, Global};
use std::io;
use test_rows::{TestRows, answer_rows, first_number, first_word, octets_of, put_octets};

/// Adds the lines of a message, each in a line of its own, behind how many octets it has.
fn put_message(octets: &[u8], out: &mut String) -> Result<(), AllocError> {
    write!(out, "a message of {} octets", octets.len())?;
    let mut line = octets;
    for _ in 0..octets.len() {
        let Some(end) = line.iter().position(|octet| *octet == b'\n') else {
            break;
        };
        let (front, behind) = line.split_at(end + 1);
        out.push_str("\n  | ")?;
        put_octets(out, front.strip_suffix(b"\r\n").unwrap_or(front))?;
        line = behind;
    }
    if !line.is_empty() {
        out.push_str("\n  . ")?;
        put_octets(out, line)?;
    }
    Ok(())
}

/// Adds why there is no message.
fn put_refusal(error: &BuildError, out: &mut String) -> Result<(), AllocError> {
    match error {
        BuildError::BadValue { property } => {
            out.push_str("a bad value: ")?;
            put_octets(out, property.as_str().as_bytes())
        }
        BuildError::BlobNotFound { ids } => {
            out.push_str("no upload:")?;
            for id in ids.as_slice() {
                out.push(' ')?;
                put_octets(out, id.as_str().as_bytes())?;
            }
            Ok(())
        }
        BuildError::TooLarge { size } => write!(out, "too large: {size}"),
        BuildError::Memory => out.push_str("out of memory"),
    }
}

/// What the rows so far have left.
#[derive(Drop)]
struct Rows {
    uploads: BlobStore,
    second: i64,
    word: u64,
    alloc: Global,
}

impl Rows {
    fn put_built(&self, draft: &Draft, out: &mut String) -> Result<(), AllocError> {
        match build(self.alloc, draft, self.second, self.word) {
            Err(error) => put_refusal(&error, out),
            Ok(text) => put_message(text.as_slice(), out),
        }
    }

    fn put_read(
        &self,
        properties: &Map<String, Value>,
        out: &mut String,
    ) -> Result<(), AllocError> {
        match read_draft(self.alloc, properties, &self.uploads) {
            Err(error) => put_refusal(&error, out),
            Ok(draft) => self.put_built(&draft, out),
        }
    }

    /// Adds what comes of the properties in a text.
    fn put_draft(&self, text: &str, out: &mut String) -> Result<(), AllocError> {
        match Value::from_str(self.alloc, text) {
            Ok(Value::Object(properties)) => self.put_read(&properties, out),
            Ok(_) => out.push_str("no object"),
            Err(_) => out.push_str("no JSON"),
        }
    }

    fn put_upload(&mut self, text: &str, out: &mut String) -> Result<(), AllocError> {
        match self.uploads.put(octets_of(self.alloc, text)?.as_slice()) {
            Err(_) => out.push_str("not kept"),
            Ok(id) => put_octets(out, id.as_slice()),
        }
    }
}

impl TestRows for Rows {
    fn begin(&mut self) -> Result<(), AllocError> {
        self.uploads = BlobStore::new(self.alloc);
        self.second = 0;
        self.word = 0;
        Ok(())
    }

    fn take(&mut self, line: &str, out: &mut String) -> Result<(), AllocError> {
        let (word, rest) = first_word(line);
        match word {
            "at" => {
                let (second, rest) = first_word(rest);
                self.second = second.parse::<i64>().unwrap_or(0);
                self.word = rest.parse::<u64>().unwrap_or(0);
                return Ok(());
            }
            "upload" => {
                write!(out, "{line} -> ")?;
                self.put_upload(rest, out)?;
            }
            "draft" => {
                write!(out, "{line} -> ")?;
                self.put_draft(rest, out)?;
            }
            _ => write!(out, "{line} -> no such word")?,
        }
        out.push('\n')
    }
}

fn main(rt: HostRuntime) -> io::Result<()> {
    let alloc = rt.alloc();
    let uploads = BlobStore::new(alloc);
    answer_rows(
        &rt,
        &mut Rows {
            uploads,
            second: 0,
            word: 0,
            alloc,
        },
    )
}
