//! Checks of stores: reads rows from standard input, what a store sends, and prints the report. The legend stands at the top of the
//! file `stdin`, and what has to come of its rows in the file `stdout`.
#![tactic(auto)]

use check_report::{finding_of, report};
use gate_world::Event;
use scripted_world::{Script, ScriptWorld};
use std::alloc::{AllocError, Global};
use std::{io, mem};
use store_causes::check_store;
use test_rows::{TestRows, answer_rows, first_number, first_word, octets_of, put_octets};

/// What the rows so far have left.
#[derive(Drop)]
struct Rows {
    alloc: Global,
    /// What a store sends until a client is connected.
    open: Vec<u8>,
    /// What the store sends.
    gives: Vec<u8>,
    user: Vec<u8>,
    password: Vec<u8>,
    /// The call of the outside that fails; 0 is none.
    failing: u64,
}

impl Rows {
    fn script(&self) -> Result<Script, AllocError> {
        Script::new(self.alloc)?
            .with_link(self.gives.as_slice())?
            .with_secrets(self.password.as_slice(), b"")?
            .failing(self.failing)
    }

    // The store sends a text so often.
    fn repeat(&mut self, words: &str) -> Result<(), AllocError> {
        let (times, text) = first_number(words);
        let octets = octets_of(self.alloc, text)?;
        for _ in 0..times {
            self.gives.extend_from_slice(octets.as_slice())?;
        }
        Ok(())
    }

    // What the store took in the life.
    fn put_taken(out: &mut String, events: &[Event]) -> Result<(), AllocError> {
        for event in events {
            match event {
                Event::StoreTook(octets) => put_octets(out, octets.as_slice())?,
                _ => {}
            }
        }
        out.push_str("|\n")?;
        Ok(())
    }

    fn check(&self, out: &mut String, sent: bool) -> Result<(), AllocError> {
        let mut world = ScriptWorld::new(self.alloc, self.script()?);
        let checked = check_store(self.alloc, &mut world, self.user.as_slice())?;
        let found = finding_of(self.alloc, checked)?;
        let text = report(self.alloc, b"127.0.0.1:143", self.user.as_slice(), &found)?;
        out.push_str(std::str::from_utf8(text.as_slice()).unwrap_or("no UTF-8\n"))?;
        if sent {
            Rows::put_taken(out, world.events().unwrap_or(&[]))?;
        }
        Ok(())
    }
}

impl TestRows for Rows {
    fn begin(&mut self) -> Result<(), AllocError> {
        self.gives = self.open.to_vec(self.alloc)?;
        self.failing = 0;
        Ok(())
    }

    fn take(&mut self, line: &str, out: &mut String) -> Result<(), AllocError> {
        let (word, rest) = first_word(line);
        match word {
            "store" => {
                self.gives
                    .extend_from_slice(octets_of(self.alloc, rest)?.as_slice())?;
                self.gives.extend_from_slice(b"\r\n")?;
            }
            "part" => self
                .gives
                .extend_from_slice(octets_of(self.alloc, rest)?.as_slice())?,
            "times" => self.repeat(rest)?,
            "opening" => {
                self.open = mem::replace(&mut self.gives, Vec::new(self.alloc));
            }
            "close" => self.gives = Vec::new(self.alloc),
            "user" => self.user = octets_of(self.alloc, rest)?,
            "password" => self.password = octets_of(self.alloc, rest)?,
            "failing" => self.failing = first_number(rest).0,
            "check" => self.check(out, false)?,
            "sent" => self.check(out, true)?,
            _ => out.push_str("?\n")?,
        }
        Ok(())
    }
}

fn main(rt: HostRuntime) -> io::Result<()> {
    let alloc = rt.alloc();
    let mut rows = Rows {
        alloc,
        open: Vec::new(alloc),
        gives: Vec::new(alloc),
        user: Vec::new(alloc),
        password: Vec::new(alloc),
        failing: 0,
    };
    answer_rows(&rt, &mut rows)
}
