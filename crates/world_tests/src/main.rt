//! The worlds in memory: reads rows from standard input, scripts and calls, and prints what worlds told that follow them. The
//! legend stands at the top of the file `stdin`, and what has to come of its rows in the file `stdout`.
#![tactic(auto)]

// What worlds follow, and what they are asked.
mod calls;
mod scripts;

// What they told.
mod told;

use std::alloc::{AllocError, Global};
use std::io;
use test_rows::{TestRows, answer_rows, first_word};

/// What the rows so far have left: the words with which scripts begin.
#[derive(Drop)]
struct Rows {
    given: String,
    alloc: Global,
}

impl TestRows for Rows {
    fn begin(&mut self) -> Result<(), AllocError> {
        Ok(())
    }

    fn take(&mut self, line: &str, out: &mut String) -> Result<(), AllocError> {
        let (word, rest) = first_word(line);
        if word == "script" {
            self.given = String::from_str(self.alloc, rest)?;
            return Ok(());
        }
        told::take(self.alloc, &self.given, word, rest, out)
    }
}

fn main(rt: HostRuntime) -> io::Result<()> {
    let alloc = rt.alloc();
    let given = String::new(alloc);
    answer_rows(&rt, &mut Rows { given, alloc })
}
