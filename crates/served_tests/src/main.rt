//! What is served of mail that a store tells: reads rows from standard input, exchanges and what is asked of the state that
//! follows them, and prints what comes of each. The legend stands at the top of the file `stdin`, and what has to come of its
//! rows in the file `stdout`.
#![tactic(auto)]

// The state that follows the mail which is told, and what it serves as text.
mod served;
mod shown;

// A slow program beside it, and copies that clients have.
mod copies;
mod plain;

use copies::Copy;
use plain::Plain;
use random_mail::{Random, Told};
use served::{Served, places};
use std::alloc::{AllocError, Global};
use std::io;
use test_rows::{TestRows, answer_rows, first_number, first_word};

/// What the rows so far have left.
#[derive(Drop)]
struct Rows {
    told: Told,
    served: Served,
    plain: Plain,
    copies: Vec<Copy>,
    random: Random,
    headers: Vec<String>,
    alloc: Global,
}

impl Rows {
    fn new(alloc: Global, epoch: u64) -> Result<Rows, AllocError> {
        Ok(Rows {
            told: Told::new(alloc),
            served: Served::new(alloc, epoch)?,
            plain: Plain::new(alloc),
            copies: Vec::new(alloc),
            random: Random::new(alloc),
            headers: Vec::new(alloc),
            alloc,
        })
    }

    /// Goes on to the mail that was told, and lets the slow program do the same: whether what is served is what that has.
    fn is_as_plain(&mut self) -> Result<bool, AllocError> {
        let folders = self.told.mirror.folders();
        self.served.follow(&self.told.mirror);
        self.plain.step(folders)?;
        match &self.served.state {
            Some(state) => self.plain.is_served(state, folders),
            None => Ok(false),
        }
    }

    /// Adds what the word asks, once the state went on to the mail that was told.
    fn show(&mut self, word: &str, out: &mut String) -> Result<(), AllocError> {
        if word == "plain" {
            let answer = if self.is_as_plain()? {
                "the same; "
            } else {
                "otherwise; "
            };
            out.push_str(answer)?;
        } else {
            self.served.follow(&self.told.mirror);
            self.served.show(word, &self.told.last, out)?;
        }
        if !self.told.is_right || !self.served.is_right {
            out.push_str(" something is wrong")?;
        }
        Ok(())
    }

    /// The message of a header comes, in a step of its own.
    fn come_one(&mut self, uid: u64, place: u8, header: Option<&String>) -> Result<(), AllocError> {
        let Some(header) = header else {
            self.told.is_right = false;
            return Ok(());
        };
        let mail = format!(in self.alloc; "INBOX {uid} {place} |{header}")?;
        self.told.take("mail", &mail)?;
        self.served.follow(&self.told.mirror);
        Ok(())
    }

    /// The messages of the headers come in this order, which names each by a digit from 1 on, each in a step of its own. It was
    /// received at the second of its place among the headers.
    fn come(&mut self, headers: &[String], order: &str) -> Result<(), AllocError> {
        self.told.take("store", "* LIST () \"/\" INBOX")?;
        self.told.take("tell", "list")?;
        let mut uid: u64 = 0;
        for digit in order.as_bytes() {
            uid = uid.saturating_add(1);
            let place = digit.saturating_sub(b'1');
            self.come_one(uid, place, headers.get(usize::from(place)))?;
        }
        Ok(())
    }

    /// Adds what the word asks after each order.
    fn put_orders(&self, text: &str, out: &mut String) -> Result<(), AllocError> {
        let (word, orders) = first_word(text);
        for order in orders.split_whitespace() {
            let mut rows = Rows::new(self.alloc, 31)?;
            rows.come(&self.headers, order)?;
            rows.show(word, out)?;
        }
        Ok(())
    }

    /// Whether the copies that are due are what is served: one of each type is kept at every fifth step, and all are brought up
    /// to date, and let go, at every hundredth.
    fn are_copies_right(&mut self, at: u64) -> Result<bool, AllocError> {
        let Some(state) = &self.served.state else {
            return Ok(false);
        };
        if at % 5 == 1 {
            copies::keep_copies(self.alloc, &mut self.copies, state)?;
        }
        if at % 100 != 0 {
            return Ok(true);
        }
        let are_right = copies::are_brought_up(&mut self.copies, state)?;
        self.copies.clear();
        Ok(are_right)
    }

    /// Mail changes once at random.
    fn change(&mut self) -> Result<(), AllocError> {
        let (word, text) = self.random.change(&self.told.mirror)?;
        if word == "" {
            return Ok(());
        }
        self.told.take(word, &text)
    }

    /// Mail changes once at random: whether what is served then is what the slow program and the copies have that are due.
    fn is_change_right(&mut self, at: u64) -> Result<bool, AllocError> {
        self.change()?;
        let is_right = self.is_as_plain()? && self.told.is_right && self.served.is_right;
        Ok(is_right && self.are_copies_right(at)?)
    }

    /// Adds what came of all steps, which were right.
    fn put_end(&self, out: &mut String) -> Result<(), AllocError> {
        let places = self.served.state.as_ref().map(|state| places(state));
        write!(out, "the same: {:?}", self.random.drawn)?;
        write!(out, ", places {places:?}, next {}", self.plain.next)
    }

    /// Adds the first step of mail that changes at random that differs from the slow program or from a copy, or what came of all.
    fn put_walk(&mut self, text: &str, out: &mut String) -> Result<(), AllocError> {
        let (seed, rest) = first_number(text);
        let (steps, _) = first_number(rest);
        self.random.begin(seed);
        for at in 0..steps {
            let at = at.saturating_add(1);
            if !self.is_change_right(at)? {
                return write!(out, "otherwise in step {at}");
            }
        }
        self.put_end(out)
    }

    /// Adds what a line asks.
    fn answer(&mut self, word: &str, text: &str, out: &mut String) -> Result<(), AllocError> {
        match word {
            "orders" => self.put_orders(text, out)?,
            "walk" => self.put_walk(text, out)?,
            _ => self.show(word, out)?,
        }
        out.push('\n')
    }
}

impl TestRows for Rows {
    fn begin(&mut self) -> Result<(), AllocError> {
        *self = Rows::new(self.alloc, 31)?;
        Ok(())
    }

    fn take(&mut self, line: &str, out: &mut String) -> Result<(), AllocError> {
        let (word, rest) = first_word(line);
        match word {
            "epoch" => {
                *self = Rows::new(self.alloc, first_number(rest).0)?;
                Ok(())
            }
            "header" => {
                self.headers.push(String::from_str(self.alloc, rest)?)?;
                Ok(())
            }
            "some" => {
                let (kind, text) = first_word(rest);
                self.random.add(kind, text)
            }
            "step" | "sizes" | "rights" | "read" | "orders" | "walk" => {
                self.answer(word, rest, out)
            }
            _ => self.told.take(word, rest),
        }
    }
}

fn main(rt: HostRuntime) -> io::Result<()> {
    answer_rows(&rt, &mut Rows::new(rt.alloc(), 31)?)
}
