//! What a store tells: reads rows from standard input, lives of a link and exchanges, and prints what comes of them. The legend
//! stands at the top of the file `stdin`, and what has to come of its rows in the file `stdout`.
#![tactic(auto)]

// Mail as text.
mod showing;

// The octets that a store sends.
mod sent;

// Exchanges, and the mail that they tell.
mod exchanges;

// Lives of a link.
mod lives;
mod playing;
mod sweeps;

use exchanges::Told;
use lives::Lives;
use sent::Sent;
use std::alloc::{AllocError, Global};
use std::io;
use test_rows::{TestRows, answer_rows, first_word};

/// What the rows so far have left.
#[derive(Drop)]
struct Rows {
    sent: Sent,
    lives: Lives,
    told: Told,
}

impl Rows {
    fn new(alloc: Global) -> Rows {
        Rows {
            sent: Sent::new(alloc),
            lives: Lives::new(alloc),
            told: Told::new(alloc),
        }
    }
}

impl TestRows for Rows {
    fn begin(&mut self) -> Result<(), AllocError> {
        self.sent.clear();
        self.lives.clear();
        Ok(())
    }

    fn take(&mut self, line: &str, out: &mut String) -> Result<(), AllocError> {
        let (word, rest) = first_word(line);
        match word {
            "store" | "part" | "repeat" | "open" | "opening" => self.sent.take(word, rest),
            "user" | "password" | "failing" | "body" | "exchange" => self.lives.set(word, rest),
            "life" | "told" | "mail" => self.lives.take(word, rest, &mut self.sent),
            "play" | "plays" | "cuts" | "fails" => self.lives.play(word, rest, &mut self.sent, out),
            _ => self.told.take(word, rest, &mut self.sent, out),
        }
    }
}

fn main(rt: HostRuntime) -> io::Result<()> {
    answer_rows(&rt, &mut Rows::new(rt.alloc()))
}
