// Items are done in a link life.
use crate::cut_link::CutLink;
use crate::steps::step_of;
use imap_client::Client;
use octets::Listed;
use set_items::do_item;
use set_jobs::{Done, Job, Step};
use std::alloc::{AllocError, Global};
use std::mem;
use test_rows::{first_number, first_word, put_octets};
use told_mail::Mirror;

/// What came of the items of a row.
#[derive(PartialEq, Drop)]
pub(crate) struct Played {
    /// How each item ended, in order, and whether the call changed something.
    pub ends: String,
    /// How many octets the store took before the items, and in them, and what these are.
    pub before: usize,
    pub count: usize,
    pub took: String,
}

/// A call whose items are done one after another.
#[derive(Drop)]
struct Course {
    client: Client,
    link: CutLink,
    mirror: Mirror,
    changed: bool,
    /// Those of the next item.
    steps: Vec<Step>,
    ends: String,
    alloc: Global,
}

impl Course {
    fn new(alloc: Global, link: CutLink) -> Course {
        Course {
            client: Client::new(alloc),
            link,
            mirror: Mirror::new(alloc),
            changed: false,
            steps: Vec::new(alloc),
            ends: String::new(alloc),
            alloc,
        }
    }

    /// Connects, and does a round.
    fn begin(&mut self) -> Result<(), AllocError> {
        self.client.leave(&mut self.link);
        let connected = self.client.connect(&mut self.link, b"alice");
        if !self.client.alive() {
            return write!(self.ends, "{connected:?} ");
        }
        match self.client.round(&mut self.link, &mut self.mirror) {
            Ok(()) => Ok(()),
            Err(end) => write!(self.ends, "{end:?} "),
        }
    }

    /// Does the item of the steps so far.
    fn item(&mut self, done: Done) -> Result<(), AllocError> {
        let steps = mem::replace(&mut self.steps, Vec::new(self.alloc));
        let job = Job {
            steps: Listed::from_vec(steps),
            done,
        };
        let end = do_item(
            self.alloc,
            &mut self.client,
            &mut self.link,
            &mut self.mirror,
            job,
            &mut self.changed,
        );
        write!(self.ends, "{end:?} ")
    }

    fn step(&mut self, word: &str, text: &str) -> Result<(), AllocError> {
        match step_of(self.alloc, word, text)? {
            Some(step) => {
                self.steps.push(step)?;
                Ok(())
            }
            None => write!(self.ends, "{word}? "),
        }
    }

    /// Does what a line says: a step, or the item that comes to this.
    fn take(&mut self, line: &str) -> Result<(), AllocError> {
        let (word, text) = first_word(line);
        let (number, _) = first_number(text);
        let asked = None;
        match word {
            "changed" => self.item(Done::Changed { number, asked }),
            "gone" => self.item(Done::Gone { number }),
            _ => self.step(word, text),
        }
    }

    fn items(&mut self, lines: &[String]) -> Result<(), AllocError> {
        for line in lines {
            self.take(line)?;
        }
        write!(self.ends, "changed: {}", self.changed)
    }
}

/// What the store took from this place on, line by line.
fn taken_from(alloc: Global, took: &[u8], before: usize) -> Result<String, AllocError> {
    let mut text = String::new(alloc);
    put_octets(&mut text, took.get(before..).unwrap_or(b""))?;
    text.replace(alloc, "%0D%0A", "\n")
}

/// Does the items that the lines say over this link, once its client is connected and did a round.
pub(crate) fn play(alloc: Global, link: CutLink, lines: &[String]) -> Result<Played, AllocError> {
    let mut course = Course::new(alloc, link);
    course.begin()?;
    let before = course.link.took().len();
    course.items(lines)?;
    let count = course.link.took().len().saturating_sub(before);
    let took = taken_from(alloc, course.link.took(), before)?;
    let ends = mem::replace(&mut course.ends, String::new(alloc));
    Ok(Played {
        ends,
        before,
        count,
        took,
    })
}
