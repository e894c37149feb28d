//! Batches of changes of mail: reads rows from standard input, mail that a store tells and items of batches, and prints what comes of
//! each. The legend stands at the top of the file `stdin`, and what has to come of its rows in the file `stdout`.
#![tactic(auto)]

mod batches;

use batches::Batches;
use mail_batches::first_batch;
use random_mail::{Random, Told};
use std::alloc::{AllocError, Global};
use std::io;
use test_rows::{TestRows, answer_rows, first_number, first_word, octets_of, put_octets};

/// What the rows so far have left.
#[derive(Drop)]
struct Rows {
    told: Told,
    batches: Batches,
    random: Random,
    alloc: Global,
}

impl Rows {
    fn new(alloc: Global) -> Rows {
        Rows {
            told: Told::new(alloc),
            batches: Batches::new(alloc),
            random: Random::new(alloc),
            alloc,
        }
    }

    /// Adds the octets of the batch that leads to the mail that was told.
    fn keep(&mut self, out: &mut String) -> Result<(), AllocError> {
        match self.batches.keep(&self.told.mirror)? {
            Some(true) => put_octets(out, self.batches.last()),
            Some(false) => out.push_str("other tables"),
            None => out.push_str("nothing"),
        }
    }

    /// Changes the mail so often at random, with a batch of each change, and adds whether each made the tables of what stood then.
    fn step(&mut self, text: &str, out: &mut String) -> Result<(), AllocError> {
        let (count, rest) = first_number(text);
        let (seed, _) = first_number(rest);
        self.random.begin(seed);
        let mut kept: u64 = 0;
        let mut right: u64 = 0;
        for _ in 0..count {
            let (word, line) = self.random.change(&self.told.mirror)?;
            if !word.is_empty() {
                self.told.take(word, &line)?;
            }
            if let Some(same) = self.batches.keep(&self.told.mirror)? {
                kept = kept.saturating_add(1);
                if same {
                    right = right.saturating_add(1);
                }
            }
        }
        if right == kept && count / 4 < kept {
            out.push_str("each is what stood")
        } else {
            write!(out, "{right} of {kept}")
        }
    }

    /// Adds what a word asks for.
    fn answer(&mut self, word: &str, text: &str, out: &mut String) -> Result<(), AllocError> {
        match word {
            "first" => {
                let (epoch, _) = first_number(text);
                let batch = first_batch(self.alloc, epoch)?;
                put_octets(out, batch.as_slice())
            }
            "items" => {
                let items = octets_of(self.alloc, text)?;
                self.batches.put_items(items.as_slice(), out)
            }
            "keep" => self.keep(out),
            "cuts" => self.batches.put_cuts(out),
            _ => self.step(text, out),
        }
    }
}

impl TestRows for Rows {
    fn begin(&mut self) -> Result<(), AllocError> {
        *self = Rows::new(self.alloc);
        Ok(())
    }

    fn take(&mut self, line: &str, out: &mut String) -> Result<(), AllocError> {
        let (word, text) = first_word(line);
        match word {
            "add" => {
                let (kind, text) = first_word(text);
                self.random.add(kind, text)
            }
            "before" => {
                let items = octets_of(self.alloc, text)?;
                self.batches.set_before(items);
                Ok(())
            }
            "first" | "items" | "keep" | "cuts" | "random" => {
                self.answer(word, text, out)?;
                out.push('\n')
            }
            _ => self.told.take(word, text),
        }
    }
}

fn main(rt: HostRuntime) -> io::Result<()> {
    let mut rows = Rows::new(rt.alloc());
    answer_rows(&rt, &mut rows)
}
