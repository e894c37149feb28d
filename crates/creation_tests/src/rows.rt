// Rows of creations.
use crate::bodies::Bodies;
use crate::call::{Asked, Call};
use blob_store::BlobStore;
use jmap_core::CreatedIds;
use mail_state::MailState;
use octets::Bytes;
use serde_json::Value;
use std::alloc::{AllocError, Global};
use std::mem;
use test_rows::{TestRows, first_number, first_word, octets_of, put_octets};
use told_dialogues::exchange_of;
use told_mail::Mirror;

/// The epoch of each state.
const EPOCH: u64 = 1;

/// What the rows so far have left.
#[derive(Drop)]
pub(crate) struct Rows {
    call: Call,
    bodies: Bodies,
    /// The folder that was selected last.
    selected: String,
    alloc: Global,
}

impl Rows {
    pub(crate) fn new(alloc: Global) -> Result<Rows, AllocError> {
        Ok(Rows {
            call: Call {
                mirror: Mirror::new(alloc),
                state: MailState::new(alloc, EPOCH)?,
                uploads: BlobStore::new(alloc),
                created: CreatedIds::new(alloc),
                making: Vec::new(alloc),
                made: Vec::new(alloc),
                second: 0,
                word: 0,
                alloc,
            },
            bodies: Bodies::new(alloc),
            selected: String::from_str(alloc, "INBOX")?,
            alloc,
        })
    }

    /// Tells the exchange of a command; the command and what the store sends are parted by `|`.
    fn tell(&mut self, text: &str, out: &mut String) -> Result<(), AllocError> {
        let (asked, sent) = text.split_once('|').unwrap_or((text, ""));
        let mut octets = octets_of(self.alloc, sent)?;
        octets.extend_from_slice(b"a1 OK done\r\n")?;
        if let Some(name) = asked.strip_prefix("select ") {
            self.selected = String::from_str(self.alloc, name)?;
        }
        let selected = self.selected.as_bytes();
        let Some(exchange) = exchange_of(self.alloc, asked, selected, &octets)? else {
            return out.push_str("no exchange\n");
        };
        match self.call.mirror.tell(&exchange) {
            Ok(()) => Ok(()),
            Err(error) => writeln!(out, "not told: {error:?}"),
        }
    }

    /// Serves what was told.
    fn serve(&mut self, out: &mut String) -> Result<(), AllocError> {
        let fresh = MailState::new(self.alloc, EPOCH)?;
        let state = mem::replace(&mut self.call.state, fresh);
        match state.apply(&self.call.mirror) {
            Ok((next, _)) => {
                self.call.state = next;
                Ok(())
            }
            Err(error) => writeln!(out, "not served: {error}"),
        }
    }

    fn upload(&mut self, octets: &[u8], out: &mut String) -> Result<(), AllocError> {
        match self.call.uploads.put(octets) {
            Err(_) => out.push_str("not kept")?,
            Ok(id) => put_octets(out, id.as_slice())?,
        }
        out.push('\n')
    }

    fn ask_of(&mut self, value: &Value, asked: Asked, out: &mut String) -> Result<(), AllocError> {
        match value.as_object() {
            Some(properties) => self.call.put(&mut self.bodies, properties, asked, out),
            None => out.push_str("no object"),
        }
    }

    /// Adds what is asked of the properties of a text.
    fn ask(&mut self, text: &str, asked: Asked, out: &mut String) -> Result<(), AllocError> {
        match Value::from_str(self.alloc, text) {
            Ok(value) => self.ask_of(&value, asked, out)?,
            Err(_) => out.push_str("no JSON")?,
        }
        out.push('\n')
    }

    fn give_body(&mut self, text: &str) -> Result<(), AllocError> {
        let (email, octets) = first_number(text);
        let body = Bytes::from_vec(octets_of(self.alloc, octets)?)?;
        self.bodies.give(email, body)
    }

    /// Adds what is asked, or takes the body that is given.
    fn take_asked(&mut self, word: &str, rest: &str, out: &mut String) -> Result<(), AllocError> {
        match word {
            "body" => self.give_body(rest),
            "create" => self.ask(rest, Asked::Creation { lines: false }, out),
            "message" => self.ask(rest, Asked::Creation { lines: true }, out),
            "import" => self.ask(rest, Asked::Import, out),
            _ => writeln!(out, "no such word: {word}"),
        }
    }
}

impl TestRows for Rows {
    fn begin(&mut self) -> Result<(), AllocError> {
        self.call.created = CreatedIds::new(self.alloc);
        self.call.making.clear();
        self.call.made.clear();
        Ok(())
    }

    fn take(&mut self, line: &str, out: &mut String) -> Result<(), AllocError> {
        let (word, rest) = first_word(line);
        match word {
            "tell" => self.tell(rest, out),
            "serve" => self.serve(out),
            "at" => {
                let (second, number) = first_word(rest);
                self.call.second = second.parse::<i64>().unwrap_or(0);
                self.call.word = number.parse::<u64>().unwrap_or(0);
                Ok(())
            }
            "upload" => {
                let octets = octets_of(self.alloc, rest)?;
                self.upload(octets.as_slice(), out)
            }
            "large" => {
                let (count, piece) = first_number(rest);
                let octets = octets_of(self.alloc, piece)?.repeat(self.alloc, count as usize)?;
                self.upload(octets.as_slice(), out)
            }
            "created" => {
                let (key, id) = first_word(rest);
                self.call.created.put(self.alloc, key, id)
            }
            "making" => {
                self.call.making.push(String::from_str(self.alloc, rest)?)?;
                Ok(())
            }
            "made" => {
                let (number, key) = first_number(rest);
                self.call
                    .made
                    .push((String::from_str(self.alloc, key)?, number))?;
                Ok(())
            }
            _ => self.take_asked(word, rest, out),
        }
    }
}
