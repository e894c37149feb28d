//! Whole runs of the program: reads rows from standard input, what stores and clients give and the words of a command, and
//! prints what comes of a run over them. The legend stands at the top of the file `stdin`, and what has to come of its rows in
//! the file `stdout`.
#![tactic(auto)]

// What stores and clients give.
mod cut_world;
mod written;

// What is done over it, and what comes of it.
mod plays;
mod seen;

use email_objects::email_object;
use gateway::read_words;
use plays::{play, words_of};
use seen::{Seen, put_names};
use std::alloc::{AllocError, Global};
use std::io;
use test_rows::{TestRows, answer_rows, first_number, first_word, octets_of, put_octets};
use written::Written;

/// Adds the task that these words name.
fn put_task(alloc: Global, text: &str, out: &mut String) -> Result<(), AllocError> {
    let words = words_of(alloc, text)?;
    write!(out, "{text} -> ")?;
    match read_words(alloc, &words) {
        Ok(task) => writeln!(out, "{task:?}"),
        Err(error) => writeln!(out, "{error}"),
    }
}

/// Adds the Email object of a message.
fn put_object(alloc: Global, text: &str, out: &mut String) -> Result<(), AllocError> {
    let message = octets_of(alloc, text)?;
    let object = email_object(alloc, &message)?;
    put_octets(out, object.to_string(alloc)?.as_bytes())?;
    out.push('\n')
}

/// What the rows so far have left.
#[derive(Drop)]
struct Rows {
    written: Written,
    seen: Seen,
    /// The text of which is told how often the store took it; none where it is empty.
    counting: String,
    alloc: Global,
}

impl Rows {
    /// What comes of a command.
    fn played(&self, command: &str) -> Result<Seen, AllocError> {
        let mut world = self.written.world()?;
        let ended = play(self.alloc, command, &mut world)?;
        let mut seen = Seen::new(self.alloc, ended, &world)?;
        seen.note_count(self.alloc, &self.counting)?;
        Ok(seen)
    }

    /// Does a command, and adds what comes of it.
    fn play(&mut self, line: &str, out: &mut String) -> Result<(), AllocError> {
        self.seen = self.played(line)?;
        self.seen.put(self.alloc, out)
    }

    /// Does a command, and adds what comes of it where that is something else than before.
    fn play_again(
        &mut self,
        kind: &str,
        number: u64,
        command: &str,
        out: &mut String,
    ) -> Result<(), AllocError> {
        let mut seen = self.played(command)?;
        if kind == "taking" {
            seen.forget_store();
        }
        if seen != self.seen {
            write!(out, "{number}: ")?;
            seen.put(self.alloc, out)?;
        }
        self.seen = seen;
        Ok(())
    }

    /// Does a command for each number that is set.
    fn each(&mut self, text: &str, out: &mut String) -> Result<(), AllocError> {
        let (kind, text) = first_word(text);
        let (first, text) = first_number(text);
        let (last, command) = first_number(text);
        writeln!(out, "{kind} {first} to {last}:")?;
        for number in first..=last {
            self.written.set(kind, number);
            self.play_again(kind, number, command, out)?;
        }
        Ok(())
    }

    /// Does a command, and adds what was told of it.
    fn put_events(&self, command: &str, out: &mut String) -> Result<(), AllocError> {
        let mut world = self.written.world()?;
        play(self.alloc, command, &mut world)?;
        put_names(self.alloc, &world, out)
    }

    /// From here on, how often the store took this text is told with what comes of a command.
    fn count_on(&mut self, text: &str) -> Result<(), AllocError> {
        self.counting = String::from_str(self.alloc, text)?;
        Ok(())
    }

    /// Takes what is written down.
    fn write_down(&mut self, word: &str, text: &str, out: &mut String) -> Result<(), AllocError> {
        if self.written.take(word, text)? {
            return Ok(());
        }
        writeln!(out, "no such word: {word}")
    }

    /// Adds what is asked, or takes what is written down.
    fn answer(&mut self, word: &str, text: &str, out: &mut String) -> Result<(), AllocError> {
        match word {
            "gave" => writeln!(out, "clients gave {} octets", self.seen.gave),
            "store" => self.seen.put_store(self.alloc, text, out),
            "count" => self.seen.put_counts(text, out),
            "counting" => self.count_on(text),
            "events" => self.put_events(text, out),
            "object" => put_object(self.alloc, text, out),
            "task" => put_task(self.alloc, text, out),
            _ => self.write_down(word, text, out),
        }
    }

    /// Does what a line says, and adds what comes of it.
    fn take_line(&mut self, line: &str, out: &mut String) -> Result<(), AllocError> {
        let (word, text) = first_word(line);
        match word {
            "run" | "serve" | "begin" => self.play(line, out),
            "each" => self.each(text, out),
            _ => self.answer(word, text, out),
        }
    }
}

impl TestRows for Rows {
    fn begin(&mut self) -> Result<(), AllocError> {
        self.written.clear();
        self.seen = Seen::nothing(self.alloc);
        self.counting.clear();
        Ok(())
    }

    /// Does what a line says once names are what they stand for.
    fn take(&mut self, line: &str, out: &mut String) -> Result<(), AllocError> {
        let line = self.written.spelled(line)?;
        self.take_line(&line, out)
    }
}

fn main(rt: HostRuntime) -> io::Result<()> {
    let mut rows = Rows {
        written: Written::new(rt.alloc()),
        seen: Seen::nothing(rt.alloc()),
        counting: String::new(rt.alloc()),
        alloc: rt.alloc(),
    };
    answer_rows(&rt, &mut rows)
}
