//! Requests and methods of JMAP: reads rows from standard input, texts of JSON and exchanges that tell mail, and prints what is
//! answered to them. The legend stands at the top of the file `stdin`, and what has to come of its rows in the file `stdout`.
#![tactic(auto)]

// Texts that rows are made of.
mod texts;

// Requests and references.
mod requests;

// Methods over mail that is told.
mod mail;
mod methods;

// What is asked of Emails, and small texts.
mod properties;
mod words;

use mail::Mail;
use requests::Requests;
use std::alloc::{AllocError, Global};
use std::io;
use test_rows::{TestRows, answer_rows, first_number, first_word};
use texts::Texts;

/// What the rows so far have left.
#[derive(Drop)]
struct Rows {
    texts: Texts,
    requests: Requests,
    mail: Mail,
    alloc: Global,
}

impl Rows {
    fn new(alloc: Global) -> Result<Rows, AllocError> {
        Ok(Rows {
            texts: Texts::new(alloc),
            requests: Requests::new(alloc),
            mail: Mail::new(alloc)?,
            alloc,
        })
    }

    /// Adds what comes of a word and its text.
    fn answer(&mut self, word: &str, text: &str, out: &mut String) -> Result<(), AllocError> {
        match word {
            "request" | "respond" | "resolve" | "session" => self.requests.take(word, text, out),
            "ask" => self.mail.ask(text, out),
            _ => words::put(self.alloc, word, text, out),
        }
    }

    /// Does what a command says, and adds what comes of it.
    fn take_command(&mut self, command: &str, out: &mut String) -> Result<(), AllocError> {
        let line = self.texts.filled(command)?;
        let (word, text) = first_word(&line);
        match word {
            "let" => self.texts.put(text),
            "repeat" => self.texts.repeat(text),
            "fresh" => self.mail.clear(),
            "serve" => self.mail.serve(out),
            "tell" => self.mail.tell(text, out),
            _ => {
                write!(out, "{command} -> ")?;
                self.answer(word, text, out)?;
                out.push('\n')
            }
        }
    }
}

impl TestRows for Rows {
    fn begin(&mut self) -> Result<(), AllocError> {
        Ok(())
    }

    /// Does what a line says, as often as it says.
    fn take(&mut self, line: &str, out: &mut String) -> Result<(), AllocError> {
        let (count, commands) = match line.strip_prefix("times ") {
            Some(text) => first_number(text),
            None => (1, line),
        };
        for _ in 0..count {
            for command in commands.split(" & ") {
                self.take_command(command, out)?;
            }
        }
        Ok(())
    }
}

fn main(rt: HostRuntime) -> io::Result<()> {
    answer_rows(&rt, &mut Rows::new(rt.alloc())?)
}
