//! Queries of mail that changes at random, and what their queryChanges make of the lists of earlier states: reads rows from
//! standard input, and prints what comes of them. The legend stands at the top of the file `stdin`, and what has to come of its
//! rows in the file `stdout`.
#![tactic(auto)]

// What is asked, and lists as they are answered.
mod kind;
mod lists;

// A query with its earlier lists, and what came of its answers.
mod counts;
mod query;

use counts::Counts;
use kind::Kind;
use mail_state::MailState;
use query::Query;
use random_mail::{Random, Told};
use std::alloc::{AllocError, Global};
use std::io;
use test_rows::{TestRows, answer_rows, first_number, first_word};

/// What the rows so far have left.
#[derive(Drop)]
struct Rows {
    told: Told,
    random: Random,
    /// None where a step was refused.
    state: Option<MailState>,
    queries: Vec<Query>,
    /// After how many steps each of the earlier lists is given up for the present one.
    terms: Vec<u64>,
    alloc: Global,
}

impl Rows {
    fn new(alloc: Global) -> Result<Rows, AllocError> {
        Ok(Rows {
            told: Told::new(alloc),
            random: Random::new(alloc),
            state: Some(MailState::new(alloc, 31)?),
            queries: Vec::new(alloc),
            terms: Vec::new(alloc),
            alloc,
        })
    }

    /// Takes the numbers of a line.
    fn take_terms(&mut self, text: &str) -> Result<(), AllocError> {
        for word in text.split_whitespace() {
            self.terms.push(word.parse::<u64>().unwrap_or(1))?;
        }
        Ok(())
    }

    /// Changes the mail so many times.
    fn change_mail(&mut self, times: usize) -> Result<(), AllocError> {
        for _ in 0..times {
            let (word, text) = self.random.change(&self.told.mirror)?;
            if word != "" {
                self.told.take(word, &text)?;
            }
        }
        Ok(())
    }

    /// The mail changes once, or in one step of two up to 63 times, and the state goes on to it.
    fn go_on(&mut self) -> Result<(), AllocError> {
        let chance = self.random.next();
        let times = if chance % 2 == 0 { chance / 2 % 64 } else { 1 };
        self.change_mail(times)?;
        if let Some(state) = self.state.take() {
            self.state = state.apply(&self.told.mirror).ok().map(|step| step.0);
        }
        Ok(())
    }

    /// Asks each query so many times, and keeps its list.
    fn ask(&mut self, at: u64, times: u64, out: &mut String) -> Result<(), AllocError> {
        let Some(state) = &self.state else {
            return out.push_str("no state\n");
        };
        for query in &mut self.queries {
            query.step(state, &self.terms, at, times, out)?;
        }
        Ok(())
    }

    /// Adds what came of each query, and of all.
    fn put_counts(&self, out: &mut String) -> Result<(), AllocError> {
        let mut sum = Counts::none();
        for query in &self.queries {
            query.put(out)?;
            sum.add(&query.counts);
        }
        out.push_str("all:")?;
        sum.put(out)
    }

    /// Adds what comes of so many steps from a seed on.
    fn walk(&mut self, text: &str, out: &mut String) -> Result<(), AllocError> {
        let (seed, rest) = first_number(text);
        let (steps, rest) = first_number(rest);
        let (times, _) = first_number(rest);
        self.random.begin(seed);
        self.ask(0, 0, out)?;
        for at in 0..steps {
            self.go_on()?;
            self.ask(at.saturating_add(1), times, out)?;
        }
        self.put_counts(out)?;
        let is_right = self.told.is_right;
        writeln!(out, "told {is_right}: {:?}", self.random.drawn)
    }
}

impl TestRows for Rows {
    fn begin(&mut self) -> Result<(), AllocError> {
        *self = Rows::new(self.alloc)?;
        Ok(())
    }

    fn take(&mut self, line: &str, out: &mut String) -> Result<(), AllocError> {
        let (word, rest) = first_word(line);
        match word {
            "some" => {
                let (kind, text) = first_word(rest);
                self.random.add(kind, text)
            }
            "terms" => self.take_terms(rest),
            "walk" => self.walk(rest, out),
            _ => match Kind::named(word) {
                Some(kind) => {
                    self.queries.push(Query::new(self.alloc, kind, rest)?)?;
                    Ok(())
                }
                None => self.told.take(word, rest),
            },
        }
    }
}

fn main(rt: HostRuntime) -> io::Result<()> {
    answer_rows(&rt, &mut Rows::new(rt.alloc())?)
}
