//! What it costs to serve mail: reads rows from standard input, mail that a store tells and what is done over it, and says how long
//! each took. `tools/state-speed` makes the rows, and says what they are.
#![tactic(auto)]

// Queries, and sorts of the same keys.
mod plain;
mod queries;

use mail_header::fields;
use mail_state::{MailState, MailType};
use process_watch::{Watch, resident};
use random_mail::Told;
use std::alloc::{AllocError, Global};
use std::io;
use told_mail::Mirror;

/// How many fields the headers have, and how many octets. Each header is read once.
fn read_headers(alloc: Global, mirror: &Mirror) -> Result<(usize, usize), AllocError> {
    let mut count: usize = 0;
    let mut octets: usize = 0;
    for held in mirror.folders() {
        for message in held.messages.as_slice() {
            let header = message.header.as_slice();
            count = count.saturating_add(fields(alloc, header)?.len());
            octets = octets.saturating_add(header.len());
        }
    }
    Ok((count, octets))
}

/// Says how long it takes to read the headers alone.
fn say_headers(rt: &HostRuntime, mirror: &Mirror) -> Result<(), AllocError> {
    let watch = Watch::start(rt);
    let (count, octets) = read_headers(rt.alloc(), mirror)?;
    watch.say(rt, "headers read");
    let _said = println!(rt; "{count} fields, {octets} octets of headers");
    Ok(())
}

/// Says how many Emails and Threads there are, and how many octets of memory came to the process.
fn say_rows(rt: &HostRuntime, state: &MailState, more: u64) -> Result<(), AllocError> {
    let emails = state.numbers(MailType::Email)?.len();
    let threads = state.numbers(MailType::Thread)?.len();
    let place = state.list(MailType::Email).place();
    let _said = println!(rt;
        "{emails} Emails at place {place}, {threads} Threads; {more} octets of memory more"
    );
    Ok(())
}

/// Mail that is told, and the state that serves it.
#[derive(Drop)]
struct Served {
    told: Told,
    /// None where a step was refused.
    state: Option<MailState>,
}

impl Served {
    fn new(alloc: Global) -> Result<Served, AllocError> {
        let state = MailState::new(alloc, 1)?;
        Ok(Served {
            told: Told::new(alloc),
            state: Some(state),
        })
    }

    /// The state goes on to the mail.
    fn follow(&mut self) {
        if let Some(state) = self.state.take() {
            self.state = state.apply(&self.told.mirror).ok().map(|step| step.0);
        }
    }

    /// Says what it took to go on, which is called so.
    fn say_step(&mut self, rt: &HostRuntime, what: &str) -> Result<(), AllocError> {
        let before = resident(rt);
        let watch = Watch::start(rt);
        self.follow();
        watch.say(rt, what);
        let more = resident(rt).saturating_sub(before);
        match &self.state {
            Some(state) => say_rows(rt, state, more),
            None => Ok(()),
        }
    }

    /// Says what it took to do what the word says with the state.
    fn say_served(&self, rt: &HostRuntime, word: &str, text: &str) -> Result<(), AllocError> {
        match &self.state {
            Some(state) if word == "sort" => plain::say_sort(rt, state, text),
            Some(state) => Ok(queries::say_query(rt, state, word, text)),
            None => Ok(()),
        }
    }

    /// Does what a line says.
    fn take(&mut self, rt: &HostRuntime, line: &str) -> Result<(), AllocError> {
        let (word, text) = line.split_once(' ').unwrap_or((line, ""));
        match word {
            "headers" => say_headers(rt, &self.told.mirror),
            "step" => self.say_step(rt, text),
            "query" | "changes" | "sort" => self.say_served(rt, word, text),
            _ => self.told.take(word, text),
        }
    }
}

/// Does what each line says.
fn take_all(rt: &HostRuntime, lines: &str) -> Result<(), AllocError> {
    let mut served = Served::new(rt.alloc())?;
    for line in lines.lines() {
        served.take(rt, line)?;
    }
    Ok(())
}

fn main(rt: HostRuntime) -> io::Result<()> {
    let lines = io::read_to_string(rt.alloc(), rt.reader())?;
    take_all(&rt, &lines)?;
    Ok(())
}
