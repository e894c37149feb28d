// Mail that changes at random: messages come, get flags, move and go; folders are made, renamed, emptied and removed, and get attributes.
use std::alloc::{AllocError, Global};
use std::collections::BTreeMap;
use std::str;
use told_mail::{Folder, Message, Mirror, NumberedFolder};

/// From this many messages on, one goes where else one would come.
const MANY: usize = 60;

/// No folder that is told by lines has a greater number.
const TOLD: u64 = 100;

/// A change, as a line: its word, and what belongs to it.
type Change = (&'static str, String);

/// What chooses the next change.
#[derive(Drop)]
pub struct Random {
    seed: u64,
    /// How many changes there were: what is made in one has this number.
    steps: u64,
    /// How often each word came.
    pub drawn: BTreeMap<&'static str, u64>,
    // Texts of which changes are made.
    headers: Vec<String>,
    flags: Vec<String>,
    names: Vec<String>,
    attributes: Vec<String>,
    alloc: Global,
}

/// The text with a digit from 0 to 7 in place of each `#`.
fn filled(alloc: Global, text: &str, mut chance: usize) -> Result<String, AllocError> {
    let mut filled = String::new(alloc);
    for letter in text.chars() {
        if letter == '#' {
            write!(filled, "{}", chance % 8)?;
            chance = chance / 8;
        } else {
            filled.push(letter)?;
        }
    }
    Ok(filled)
}

/// One of up to 64 texts, filled; empty where there is none.
fn one_of(alloc: Global, texts: &[String], chance: usize) -> Result<String, AllocError> {
    let text = match chance.checked_rem(texts.len()) {
        Some(at) => texts.get(at).map_or("", |text| text),
        None => "",
    };
    filled(alloc, text, chance / 64)
}

/// The name of a folder, which is ASCII.
fn name_of(folder: &Folder) -> &str {
    str::from_utf8(folder.name.as_slice()).unwrap_or("")
}

fn count(mirror: &Mirror) -> usize {
    let mut count: usize = 0;
    for held in mirror.folders() {
        count = count.saturating_add(held.messages.len());
    }
    count
}

impl Random {
    /// What draws changes from a seed on, once there are texts of which they are made.
    pub fn new(alloc: Global) -> Random {
        Random {
            seed: 0,
            steps: 0,
            drawn: BTreeMap::new(alloc),
            headers: Vec::new(alloc),
            flags: Vec::new(alloc),
            names: Vec::new(alloc),
            attributes: Vec::new(alloc),
            alloc,
        }
    }

    /// Takes a text of a kind, of which changes are made: `header`, `flags`, `name`, or `attributes` of a folder. When it is drawn, a
    /// digit from 0 to 7 stands in place of each `#`.
    pub fn add(&mut self, kind: &str, text: &str) -> Result<(), AllocError> {
        let text = String::from_str(self.alloc, text)?;
        match kind {
            "header" => self.headers.push(text)?,
            "flags" => self.flags.push(text)?,
            "name" => self.names.push(text)?,
            _ => self.attributes.push(text)?,
        }
        Ok(())
    }

    /// Draws from a seed on.
    pub fn begin(&mut self, seed: u64) {
        self.seed = seed;
    }

    /// A number below 2^31.
    pub fn next(&mut self) -> usize {
        self.seed = self
            .seed
            .wrapping_mul(6364136223846793005)
            .wrapping_add(1442695040888963407);
        (self.seed >> 33) as usize
    }

    /// One of the folders.
    fn folder<'a>(&mut self, mirror: &'a Mirror) -> Option<&'a NumberedFolder> {
        let folders = mirror.folders();
        let at = self.next().checked_rem(folders.len())?;
        folders.get(at)
    }

    /// One of the messages of a folder.
    fn message<'a>(&mut self, held: &'a NumberedFolder) -> Option<&'a Message> {
        let messages = held.messages.as_slice();
        let at = self.next().checked_rem(messages.len())?;
        messages.get(at)
    }

    /// A new message comes.
    fn deliver(&mut self, folder: &Folder) -> Result<String, AllocError> {
        let second = self.next() % 50;
        let chance = self.next();
        let flags = one_of(self.alloc, &self.flags, chance)?;
        let chance = self.next();
        let header = one_of(self.alloc, &self.headers, chance)?;
        let (name, uid) = (name_of(folder), self.steps);
        format!(in self.alloc; "{name} {uid} {second} {flags}|{header}")
    }

    /// The folder of a number, which may be new, gets a name, where no other has it.
    fn name(&mut self, mirror: &Mirror, number: u64) -> Result<Change, AllocError> {
        let chance = self.next();
        let name = one_of(self.alloc, &self.names, chance)?;
        let is_free = !name.is_empty() && mirror.named(name.as_bytes()).is_none();
        let word = if is_free { "renamed" } else { "" };
        Ok((word, format!(in self.alloc; "{number} {name}")?))
    }

    /// A folder is renamed, is removed, has another validity or other attributes. INBOX keeps its name, and stays.
    fn change_folder(
        &mut self,
        chance: usize,
        mirror: &Mirror,
        folder: &Folder,
    ) -> Result<Change, AllocError> {
        let (number, name) = (folder.number, name_of(folder));
        let chance = if name == "INBOX" && chance < 6 {
            6
        } else {
            chance
        };
        match chance {
            3..=4 => self.name(mirror, number),
            5 => Ok(("cut", format!(in self.alloc; "{number}")?)),
            6 => {
                let validity = self.steps;
                Ok((
                    "renewed",
                    format!(in self.alloc; "{number} {name} {validity}")?,
                ))
            }
            _ => {
                let chance = self.next();
                let attributes = one_of(self.alloc, &self.attributes, chance)?;
                Ok(("listed", format!(in self.alloc; "{number} {attributes}")?))
            }
        }
    }

    /// A message gets flags, moves to some folder, where it has a new UID, or goes.
    fn change_message(
        &mut self,
        chance: usize,
        mirror: &Mirror,
        held: &NumberedFolder,
    ) -> Result<Change, AllocError> {
        let Some(message) = self.message(held) else {
            return Ok(("", String::new(self.alloc)));
        };
        let (name, uid) = (name_of(&held.folder), message.uid);
        match chance {
            18..=44 => {
                let chance = self.next();
                let flags = one_of(self.alloc, &self.flags, chance)?;
                Ok(("flags", format!(in self.alloc; "{name} {uid} {flags}")?))
            }
            45..=59 => {
                let to = self.folder(mirror).map_or(0, |held| held.folder.number);
                let (mark, uid) = (message.mark, self.steps);
                Ok(("moved", format!(in self.alloc; "{mark} {to} {uid}")?))
            }
            _ => Ok(("gone", format!(in self.alloc; "{name} {uid}")?)),
        }
    }

    /// What is changed next.
    fn draw(&mut self, mirror: &Mirror) -> Result<Change, AllocError> {
        let chance = self.next() % 100;
        if chance < 3 || mirror.folders().is_empty() {
            return self.name(mirror, self.steps.saturating_add(TOLD));
        }
        let Some(held) = self.folder(mirror) else {
            return Ok(("", String::new(self.alloc)));
        };
        if chance < 8 {
            self.change_folder(chance, mirror, &held.folder)
        } else if chance < 60 || MANY <= count(mirror) {
            self.change_message(chance, mirror, held)
        } else {
            Ok(("mail", self.deliver(&held.folder)?))
        }
    }

    /// The next change of the mail, as a line for `Told`; its word is empty where what was chosen isn't there, or has its name.
    pub fn change(&mut self, mirror: &Mirror) -> Result<Change, AllocError> {
        self.steps = self.steps.saturating_add(1);
        let change = self.draw(mirror)?;
        let count = self.drawn.get(change.0).copied().unwrap_or(0);
        self.drawn.insert(change.0, count.saturating_add(1))?;
        Ok(change)
    }
}
