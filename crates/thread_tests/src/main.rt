//! Base subjects, changes and Threads: reads rows from standard input, and prints what comes of them. The legend stands at the
//! top of the file `stdin`, and what has to come of its rows in the file `stdout`.
#![tactic(auto)]

// Base subjects, and Threads of Emails.
mod subjects;
mod threads;

// Changes: by rows, and at random beside a slow program.
mod changes;
mod walks;

use change_list::ChangeList;
use std::alloc::{AllocError, Global};
use std::io;
use test_rows::{TestRows, answer_rows, first_word};
use threads::Threads;

/// What the rows so far have left.
#[derive(Drop)]
struct Rows {
    list: ChangeList,
    threads: Threads,
    alloc: Global,
}

impl Rows {
    fn new(alloc: Global) -> Result<Rows, AllocError> {
        Ok(Rows {
            list: ChangeList::new(alloc)?,
            threads: Threads::new(alloc),
            alloc,
        })
    }

    /// Does what a word says, and adds what comes of it.
    fn answer(&mut self, word: &str, text: &str, out: &mut String) -> Result<(), AllocError> {
        match word {
            "base" | "raw" | "form" => subjects::put_base(self.alloc, word, text, out),
            "touch" | "since" | "touched" | "holds" | "places" => {
                changes::take(&mut self.list, word, text, out)
            }
            "walk" => walks::put_walk(self.alloc, text, out),
            _ => self.threads.take(word, text, out),
        }
    }
}

impl TestRows for Rows {
    fn begin(&mut self) -> Result<(), AllocError> {
        *self = Rows::new(self.alloc)?;
        Ok(())
    }

    /// Each line is printed, with what comes of it.
    fn take(&mut self, line: &str, out: &mut String) -> Result<(), AllocError> {
        let (word, text) = first_word(line);
        out.push_str(line)?;
        self.answer(word, text, out)?;
        out.push('\n')
    }
}

fn main(rt: HostRuntime) -> io::Result<()> {
    answer_rows(&rt, &mut Rows::new(rt.alloc())?)
}
