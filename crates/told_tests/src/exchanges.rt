// Rows of exchanges, and of calls of a mirror.
ghost use Rattle.std.specs.Prelude.{◌≡◌, ◌<◌, ◌≤◌, [], None};

use crate::sent::Sent;
use crate::showing::shown;
use octets::{Bytes, Names};
use std::alloc::{AllocError, Global};
use std::mem;
use test_rows::{first_number, first_uid, first_word};
use told_dialogues::{bytes_of, exchange_of};
use told_mail::{Folder, Message, Mirror};

/// The greatest number of a folder, and the greatest mark.
const LAST: u64 = 9_007_199_254_740_991;

fn folder(alloc: Global, number: u64, name: Bytes) -> Folder
    ensures { (result.number ≡ number) × (result.next ≡ 1) × (result.delimiter ≡ None) × (result.attributes ≡ []) }
{
    Folder {
        number,
        name,
        delimiter: None,
        attributes: Names::new(alloc),
        validity: 7,
        modseq: 0,
        next: 1,
    }
}

fn message(alloc: Global, mark: u64, header: Bytes) -> Message
    ensures { (result.uid ≡ 5) × (result.mark ≡ mark) × (result.flags ≡ []) }
{
    Message {
        uid: 5,
        mark,
        flags: Names::new(alloc),
        date: 0,
        size: 9,
        header,
    }
}

/// A mirror with an INBOX of this number, and in it message 5 with this mark.
fn filled(alloc: Global, number: u64, mark: u64) -> Result<Mirror, AllocError>
    requires number { 0 < number }
    requires last_number { number ≤ LAST }
    requires mark { 0 < mark }
    requires last_mark { mark ≤ LAST }
{
    let name = Bytes::copy_of(alloc, b"INBOX")?;
    let header = Bytes::copy_of(alloc, b"")?;
    let mut mirror = Mirror::new(alloc);
    mirror.put_folder(folder(alloc, number, name))?;
    mirror.put_message(number, message(alloc, mark, header))?;
    Ok(mirror)
}

/// The words of a text, as flags or attributes.
fn names_of(alloc: Global, text: &str) -> Result<Names, AllocError> {
    let mut names = Names::new(alloc);
    for word in text.split(' ') {
        names.push(bytes_of(alloc, word)?)?;
    }
    Ok(names)
}

fn number_of(folder: Option<&Folder>) -> Option<u64> {
    folder.map(|folder| folder.number)
}

/// The UID, the mark, and how many octets of the header are kept.
fn facts_of(message: Option<&Message>) -> Option<(u32, u64, usize)> {
    message.map(|message| (message.uid, message.mark, message.header.as_slice().len()))
}

/// The mail that exchanges tell, and a copy of mail.
#[derive(Drop)]
pub(crate) struct Told {
    mirror: Mirror,
    copy: Mirror,
    alloc: Global,
}

impl Told {
    pub(crate) fn new(alloc: Global) -> Told {
        Told {
            mirror: Mirror::new(alloc),
            copy: Mirror::new(alloc),
            alloc,
        }
    }

    /// Tells the mirror the exchange of a command, while INBOX is selected: whether that is other mail than before.
    fn tell(&mut self, asked: &str, octets: &[u8]) -> Result<&'static str, AllocError> {
        let Some(exchange) = exchange_of(self.alloc, asked, b"INBOX", octets)? else {
            return Ok("no exchange");
        };
        let before = self.mirror.changes();
        match self.mirror.tell(&exchange) {
            Ok(()) if self.mirror.changes() == before => Ok("same"),
            Ok(()) => Ok("other"),
            Err(_) => Ok("not told"),
        }
    }

    fn show(&self, out: &mut String) -> Result<(), AllocError> {
        let mail = shown(self.alloc, &self.mirror)?;
        writeln!(out, "{mail}")
    }

    /// Makes the mirror one with a folder and a message, where they may have these numbers.
    fn fill(&mut self, text: &str) -> Result<(), AllocError> {
        let (number, rest) = first_number(text);
        let (mark, _) = first_number(rest);
        if 0 < number && number <= LAST && 0 < mark && mark <= LAST {
            self.mirror = filled(self.alloc, number, mark)?;
        }
        Ok(())
    }

    /// How many folders are found by their names.
    fn found(&self) -> u64 {
        let mut found: u64 = 0;
        for held in self.mirror.folders() {
            let number = number_of(self.mirror.named(held.folder.name.as_slice()));
            if number == Some(held.folder.number) {
                found = found.saturating_add(1);
            }
        }
        found
    }

    /// A number that the mirror answers.
    fn number(&self, word: &str, text: &str) -> Option<u64> {
        let (number, _) = first_number(text);
        match word {
            "named" => number_of(self.mirror.named(text.as_bytes())),
            "folder-at" => number_of(self.mirror.folder_at(usize::try_from(number).unwrap_or(0))),
            "next" => self.mirror.folder(number).map(|folder| folder.next),
            "messages" => Some(self.mirror.messages(number).len() as u64),
            "folders" => Some(self.mirror.folders().len() as u64),
            "found" => Some(self.found()),
            "changes" => Some(self.mirror.changes()),
            _ => None,
        }
    }

    /// A message that the mirror answers.
    fn message(&self, word: &str, text: &str) -> Option<(u32, u64, usize)> {
        let (folder, rest) = first_number(text);
        let (at, _) = first_uid(rest);
        match word {
            "message" => facts_of(self.mirror.message(folder, at)),
            _ => facts_of(self.mirror.message_at(folder, at as usize)),
        }
    }

    /// Copies, exchanges and cuts mail.
    fn change(&mut self, word: &str, text: &str) -> Result<(), AllocError> {
        let (number, _) = first_number(text);
        match word {
            "copy" => {
                self.copy = self.mirror.copy()?;
                Ok(())
            }
            "swap" => {
                mem::swap(&mut self.mirror, &mut self.copy);
                Ok(())
            }
            _ => {
                self.mirror.cut_folder(number);
                Ok(())
            }
        }
    }

    /// Gives a message other flags, or a folder other attributes, or renames folders.
    fn set(&mut self, word: &str, text: &str) -> Result<(), AllocError> {
        let (folder, rest) = first_number(text);
        match word {
            "set-flags" => {
                let (uid, rest) = first_uid(rest);
                let flags = names_of(self.alloc, rest)?;
                self.mirror.set_flags(folder, uid, flags);
                Ok(())
            }
            "set-attributes" => {
                let attributes = names_of(self.alloc, rest)?;
                self.mirror.set_attributes(folder, attributes);
                Ok(())
            }
            _ => {
                let (from, to) = first_word(text);
                self.mirror.rename(from.as_bytes(), to.as_bytes())
            }
        }
    }

    /// Says what the mirror answers.
    fn answer(&mut self, word: &str, text: &str, out: &mut String) -> Result<(), AllocError> {
        let (number, _) = first_number(text);
        write!(out, "{word}: ")?;
        match word {
            "message" | "message-at" => writeln!(out, "{:?}", self.message(word, text)),
            "place" => writeln!(out, "{:?}", self.mirror.place_of(number)),
            "same" => writeln!(out, "{}", self.copy.same_mail(&self.mirror)),
            "cut-message" => writeln!(
                out,
                "{:?}",
                facts_of(self.mirror.cut_message(number).as_ref())
            ),
            _ => writeln!(out, "{:?}", self.number(word, text)),
        }
    }

    /// Does what a line says of the mail.
    pub(crate) fn take(
        &mut self,
        word: &str,
        text: &str,
        sent: &mut Sent,
        out: &mut String,
    ) -> Result<(), AllocError> {
        match word {
            "ask" => {
                let told = self.tell(text, &sent.taken())?;
                write!(out, "{told}: ")?;
                self.show(out)
            }
            "tell" => {
                let told = self.tell(text, &sent.taken())?;
                writeln!(out, "{told}")
            }
            "show" => self.show(out),
            "fresh" => {
                self.mirror = Mirror::new(self.alloc);
                Ok(())
            }
            "fill" => self.fill(text),
            "copy" | "swap" | "cut-folder" => self.change(word, text),
            "set-flags" | "set-attributes" | "rename" => self.set(word, text),
            _ => self.answer(word, text, out),
        }
    }
}
