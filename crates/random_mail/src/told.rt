// Mail that a store tells.
use octets::{Bytes, Names};
use std::alloc::{AllocError, Global};
use std::mem;
use test_rows::{first_number, first_uid, first_word, octets_of};
use told_dialogues::exchange_of;
use told_mail::{Folder, Message, Mirror};

/// The greatest number of a folder, and the greatest mark.
const LAST: u64 = 9_007_199_254_740_991;

/// The mail that was told.
#[derive(Drop)]
pub struct Told {
    pub mirror: Mirror,
    /// Whether all was told, moved and named.
    pub is_right: bool,
    /// What was told last.
    pub last: Vec<u8>,
    /// What the store sends next, as it is written down.
    octets: Vec<u8>,
    alloc: Global,
}

/// The texts before and after the first `|`.
fn parted(text: &str) -> (&str, &str) {
    text.split_once('|').unwrap_or((text, ""))
}

/// Adds the attributes of a folder, between spaces.
fn put_attributes(lines: &mut Vec<u8>, folder: &Folder) -> Result<(), AllocError> {
    for (at, attribute) in folder.attributes.as_slice().iter().enumerate() {
        if at != 0 {
            lines.push(b' ')?;
        }
        lines.extend_from_slice(attribute.as_slice())?;
    }
    Ok(())
}

/// Adds the line of a folder: with these attributes, else with its own.
fn put_line(
    lines: &mut Vec<u8>,
    folder: &Folder,
    attributes: Option<&str>,
) -> Result<(), AllocError> {
    lines.extend_from_slice(b"* LIST (")?;
    match attributes {
        Some(text) => lines.extend_from_slice(text.as_bytes())?,
        None => put_attributes(lines, folder)?,
    }
    lines.extend_from_slice(b") \"/\" ")?;
    lines.extend_from_slice(folder.name.as_slice())?;
    lines.extend_from_slice(b"\r\n")?;
    Ok(())
}

impl Told {
    /// No mail.
    pub fn new(alloc: Global) -> Told {
        Told {
            mirror: Mirror::new(alloc),
            is_right: true,
            last: Vec::new(alloc),
            octets: Vec::new(alloc),
            alloc,
        }
    }

    /// Writes down what the store sends next.
    fn put(&mut self, text: &str) -> Result<(), AllocError> {
        let octets = octets_of(self.alloc, text)?;
        self.octets.extend_from_slice(&octets)?;
        Ok(())
    }

    /// Writes down a text so many times, with the number of each in place of `%n`.
    fn repeat(&mut self, text: &str) -> Result<(), AllocError> {
        let (count, text) = first_number(text);
        for at in 0..count {
            let number = format!(in self.alloc; "{}", at.saturating_add(1))?;
            let text = text.replace(self.alloc, "%n", &number)?;
            self.put(&text)?;
        }
        Ok(())
    }

    /// Writes down all of a message, as a store sends it. It came in this second of 1970, and has no body.
    fn put_message(
        &mut self,
        uid: u32,
        second: u64,
        flags: &str,
        header: &[u8],
    ) -> Result<(), AllocError> {
        let count = header.len();
        let front = format!(in self.alloc;
            "* 1 FETCH (UID {uid} FLAGS ({flags}) INTERNALDATE \"01-Jan-1970 00:00:{second:02} +0000\" RFC822.SIZE {count} BODY[HEADER]<0> {{{count}}}\r\n"
        )?;
        self.octets.extend_from_slice(front.as_bytes())?;
        self.octets.extend_from_slice(header)?;
        self.octets.extend_from_slice(b")\r\n")?;
        Ok(())
    }

    /// Tells the exchange of a command that what is written down answers, and that is OK, while the folder is selected.
    fn tell(&mut self, asked: &str, folder: &str) -> Result<(), AllocError> {
        self.put("a1 OK x%0D%0A")?;
        self.last = mem::replace(&mut self.octets, Vec::new(self.alloc));
        let folder = octets_of(self.alloc, folder)?;
        let is_told = match exchange_of(self.alloc, asked, &folder, &self.last)? {
            Some(exchange) => self.mirror.tell(&exchange).is_ok(),
            None => false,
        };
        self.is_right = self.is_right && is_told;
        Ok(())
    }

    /// Tells all of a message. Where its UID is held, its flags alone are taken.
    fn mail(&mut self, folder: &str, uid: u32, text: &str) -> Result<(), AllocError> {
        let (second, rest) = first_number(text);
        let (flags, header) = parted(rest);
        let header = octets_of(self.alloc, header)?;
        self.put_message(uid, second, flags, &header)?;
        self.tell("new 1", folder)
    }

    /// A message of a folder comes, gets flags or is gone.
    fn change_message(&mut self, word: &str, text: &str) -> Result<(), AllocError> {
        let (folder, rest) = first_word(text);
        let (uid, rest) = first_uid(rest);
        match word {
            "mail" => self.mail(folder, uid, rest),
            "flags" => {
                self.put_message(uid, 0, rest, b"")?;
                self.tell("new 1", folder)
            }
            _ => {
                let gone = format!(in self.alloc; "* VANISHED {uid}%0D%0A")?;
                self.put(&gone)?;
                self.tell("unselect", folder)
            }
        }
    }

    /// The messages of the folder of a number, without their flags.
    fn messages(&self, number: u64) -> Result<Told, AllocError> {
        let mut told = Told::new(self.alloc);
        for message in self.mirror.messages(number) {
            let second = message.date.unsigned_abs();
            told.put_message(message.uid, second, "", message.header.as_slice())?;
        }
        Ok(told)
    }

    /// The folder of a number and name has another validity: the same messages are new ones.
    fn renew(&mut self, number: u64, text: &str) -> Result<(), AllocError> {
        let (folder, validity) = first_word(text);
        let again = self.messages(number)?;
        let line = format!(in self.alloc; "* OK [UIDVALIDITY {validity}] x%0D%0A")?;
        let select = format!(in self.alloc; "select {folder}")?;
        self.put(&line)?;
        self.tell(&select, folder)?;
        self.octets.extend_from_slice(&again.octets)?;
        self.tell("new 1", folder)
    }

    /// Puts the message of a mark into a folder at this UID, without flags, where it may come there.
    fn put_moved(
        &mut self,
        folder: u64,
        uid: u32,
        mark: u64,
        message: Message,
    ) -> Result<(), AllocError> {
        if self.mirror.folder(folder).is_some()
            && self.mirror.message(folder, uid).is_none()
            && self.mirror.place_of(mark).is_none()
            && 0 < mark
            && mark <= LAST
        {
            let moved = Message {
                uid,
                mark,
                flags: Names::new(self.alloc),
                ..message
            };
            return self.mirror.put_message(folder, moved);
        }
        self.is_right = false;
        Ok(())
    }

    /// The message of a mark goes to a folder, where it has this UID. It loses its flags.
    fn move_message(&mut self, mark: u64, text: &str) -> Result<(), AllocError> {
        let (folder, rest) = first_number(text);
        let (uid, _) = first_uid(rest);
        if let Some(message) = self.mirror.cut_message(mark) {
            return self.put_moved(folder, uid, mark, message);
        }
        self.is_right = false;
        Ok(())
    }

    /// The folder of a number, which may be new, gets a name that no folder has.
    fn name_folder(&mut self, number: u64, name: &str) -> Result<(), AllocError> {
        let name = Bytes::from_vec(octets_of(self.alloc, name)?)?;
        self.mirror.one_named();
        if number == 0 || LAST < number {
            self.is_right = false;
            return Ok(());
        }
        let folder = Folder {
            number,
            name,
            delimiter: Some(b'/'),
            attributes: Names::new(self.alloc),
            validity: 0,
            modseq: 0,
            next: 1,
        };
        match self.mirror.named(folder.name.as_slice()) {
            None => self.mirror.put_folder(folder),
            Some(_) => {
                self.is_right = false;
                Ok(())
            }
        }
    }

    /// Tells all folders by their lines. That of this number has these attributes, the others have theirs.
    fn list(&mut self, number: u64, attributes: &str) -> Result<(), AllocError> {
        let mut lines = Vec::new(self.alloc);
        for held in self.mirror.folders() {
            let told = if held.folder.number == number {
                Some(attributes)
            } else {
                None
            };
            put_line(&mut lines, &held.folder, told)?;
        }
        self.octets.extend_from_slice(&lines)?;
        self.tell("list", "")
    }

    /// Does what a line says of a mark or of a folder's number.
    fn change_numbered(&mut self, word: &str, text: &str) -> Result<(), AllocError> {
        let (number, rest) = first_number(text);
        match word {
            "moved" => self.move_message(number, rest),
            "renamed" => self.name_folder(number, rest),
            "listed" => self.list(number, rest),
            "renewed" => self.renew(number, rest),
            "cut" => {
                self.mirror.cut_folder(number);
                Ok(())
            }
            _ => {
                self.is_right = false;
                Ok(())
            }
        }
    }

    /// Does what a line says of the mail: what the word is, and what belongs to it. UIDs, marks and folders' numbers are those of
    /// the mail; in what the store sends, in names and in headers `%` and two hexadecimal digits stand for one octet.
    ///
    /// - `store LINE`, `part TEXT` and `repeat COUNT TEXT` write down what the store sends: the line and CR LF, the text, and the
    ///   text so many times, with the number of each, from 1 on, in place of `%n`.
    /// - `tell COMMAND|FOLDER` tells the exchange of a command that what is written down, and an OK, answers, while the folder is
    ///   selected.
    /// - `mail FOLDER UID SECOND FLAGS|HEADER` tells all of a message, which came in this second of 1970, `flags FOLDER UID FLAGS` the
    ///   flags of one, and `gone FOLDER UID` that it is gone.
    /// - `listed NUMBER ATTRIBUTES` tells all folders by their lines, in which that of a number has these attributes.
    /// - `moved MARK NUMBER UID` puts the message of a mark, without its flags, into the folder of a number at this UID.
    /// - `renamed NUMBER NAME`: the folder of a number, which may be new, has this name. `cut NUMBER`: it is taken out.
    /// - `renewed NUMBER NAME VALIDITY` tells that it has another UIDVALIDITY, and its messages, without flags, as new ones.
    pub fn take(&mut self, word: &str, text: &str) -> Result<(), AllocError> {
        match word {
            "store" => {
                self.put(text)?;
                self.put("%0D%0A")
            }
            "part" => self.put(text),
            "repeat" => self.repeat(text),
            "tell" => {
                let (asked, folder) = parted(text);
                self.tell(asked, folder)
            }
            "mail" | "flags" | "gone" => self.change_message(word, text),
            _ => self.change_numbered(word, text),
        }
    }
}
