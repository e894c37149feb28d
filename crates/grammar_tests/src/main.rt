//! The store's language: reads rows from standard input, octets of a store, responses and commands, and prints where responses end,
//! what they say, how they are written, and how commands are written and read. The legend stands at the top of the file `stdin`, and
//! what has to come of its rows in the file `stdout`.
#![tactic(auto)]

// Responses.
mod kinds;
mod responses;
mod scans;
mod written;

// Commands.
mod commands;
mod requests;

use std::alloc::{AllocError, Global};
use std::io;
use test_rows::{TestRows, answer_rows, first_word};

/// Rows that leave nothing.
#[derive(Drop)]
struct Rows {
    alloc: Global,
}

impl TestRows for Rows {
    fn begin(&mut self) -> Result<(), AllocError> {
        Ok(())
    }

    fn take(&mut self, line: &str, out: &mut String) -> Result<(), AllocError> {
        let (word, text) = first_word(line);
        match word {
            "scan" => scans::put_scan(self.alloc, text, out),
            "limit" => scans::put_limit(self.alloc, text, out),
            "long" => responses::put_long(self.alloc, text, out),
            "told" => written::put_written(self.alloc, text, out),
            "command" => commands::put_command(self.alloc, text, out),
            "asks" => requests::put_asked(self.alloc, text, out),
            "back" => requests::put_back(self.alloc, text, out),
            _ => responses::put_row(self.alloc, word, text, out),
        }
    }
}

fn main(rt: HostRuntime) -> io::Result<()> {
    answer_rows(&rt, &mut Rows { alloc: rt.alloc() })
}
