// Rows of link lives.
use crate::playing::{Played, Setting, play};
use crate::sent::Sent;
use std::alloc::{AllocError, Global};
use test_rows::{first_number, first_uid, octets_of};

/// The most octets that a read gives, where nothing else is said.
const PIECE: usize = 100_000;

/// What has come of a life once the store gave its first octets.
#[derive(Drop)]
pub(crate) struct Mark {
    /// How many octets.
    pub end: usize,
    pub answers: String,
    pub mail: String,
}

/// A row: lives of a link, and how they are played.
#[derive(Drop)]
pub(crate) struct Lives {
    pub setting: Setting,
    links: Vec<Vec<u8>>,
    pub marks: Vec<Mark>,
    /// Mail that is too long to be printed; it may be empty.
    mail: Vec<u8>,
    pub alloc: Global,
}

fn plain(alloc: Global) -> Setting {
    Setting {
        user: Vec::new(alloc),
        password: Vec::new(alloc),
        piece: PIECE,
        failing: 0,
        body: (1, 0),
        exchanges: Vec::new(alloc),
    }
}

fn put_played(out: &mut String, played: &Played) -> Result<(), AllocError> {
    writeln!(out, "{}|{}", played.answers, played.mail)?;
    writeln!(out, "{}", played.took)
}

impl Lives {
    pub(crate) fn new(alloc: Global) -> Lives {
        Lives {
            setting: plain(alloc),
            links: Vec::new(alloc),
            marks: Vec::new(alloc),
            mail: Vec::new(alloc),
            alloc,
        }
    }

    /// Forgets the row, but for the user and the password.
    pub(crate) fn clear(&mut self) {
        self.links.clear();
        self.marks.clear();
        self.mail.clear();
        self.setting.exchanges.clear();
        self.setting.piece = PIECE;
        self.setting.failing = 0;
        self.setting.body = (1, 0);
    }

    fn body_of(text: &str) -> (u64, u32) {
        let (folder, rest) = first_number(text);
        let (uid, _) = first_uid(rest);
        (folder, uid)
    }

    /// Sets how the lives are played.
    pub(crate) fn set(&mut self, word: &str, text: &str) -> Result<(), AllocError> {
        let setting = &mut self.setting;
        match word {
            "user" => setting.user = octets_of(self.alloc, text)?,
            "password" => setting.password = octets_of(self.alloc, text)?,
            "failing" => setting.failing = first_number(text).0,
            "body" => setting.body = Lives::body_of(text),
            _ => setting.exchanges.push(String::from_str(self.alloc, text)?)?,
        }
        Ok(())
    }

    /// From here on this is what has come of the life.
    fn mark(&mut self, end: usize, text: &str) -> Result<(), AllocError> {
        let (answers, mail) = text.split_once('|').unwrap_or((text, ""));
        let answers = String::from_str(self.alloc, answers)?;
        let mail = String::from_str(self.alloc, mail)?;
        self.marks.push(Mark { end, answers, mail })?;
        Ok(())
    }

    /// Does what a line says of the octets of a life.
    pub(crate) fn take(
        &mut self,
        word: &str,
        text: &str,
        sent: &mut Sent,
    ) -> Result<(), AllocError> {
        match word {
            "life" => {
                self.links.push(sent.taken())?;
                Ok(())
            }
            "told" => self.mark(sent.as_slice().len(), text),
            _ => {
                self.mail = sent.taken();
                Ok(())
            }
        }
    }

    fn is_written_down(&self, mail: &str) -> bool {
        !self.mail.is_empty() && mail.as_bytes() == self.mail.as_slice()
    }

    /// Plays the lives.
    fn play_once(&self, out: &mut String) -> Result<Played, AllocError> {
        let mut played = play(self.alloc, &self.setting, &self.links)?;
        if self.is_written_down(&played.mail) {
            played.mail = String::from_str(self.alloc, "as written down")?;
        }
        put_played(out, &played)?;
        Ok(played)
    }

    /// Plays the lives in this row's pieces and in small ones, and says where that makes a difference.
    fn play_in_pieces(&mut self, out: &mut String) -> Result<(), AllocError> {
        let whole = self.play_once(out)?;
        for piece in [1, 2, 3] {
            self.setting.piece = piece;
            let played = play(self.alloc, &self.setting, &self.links)?;
            if played != whole {
                writeln!(out, "otherwise in pieces of {piece}:")?;
                put_played(out, &played)?;
            }
        }
        writeln!(out, "played in pieces of 1, 2 and 3")
    }

    /// Plays what the row has.
    pub(crate) fn play(
        &mut self,
        word: &str,
        text: &str,
        sent: &mut Sent,
        out: &mut String,
    ) -> Result<(), AllocError> {
        match word {
            "play" => {
                self.links.push(sent.taken())?;
                self.play_once(out)?;
                Ok(())
            }
            "plays" => {
                self.links.push(sent.taken())?;
                self.play_in_pieces(out)
            }
            "cuts" => self.cuts(sent.as_slice(), out),
            _ => self.fails(text, sent.as_slice(), out),
        }
    }
}
