// What is told of a world.
use crate::cut_world::CutWorld;
use gate_world::Event;
use std::alloc::{AllocError, Global};
use test_rows::put_octets;

/// What came of a command.
#[derive(PartialEq, Drop)]
pub(crate) struct Seen {
    ended: String,
    /// How many octets clients gave.
    pub gave: usize,
    /// What clients took, and what the store took, as texts.
    took: String,
    store: String,
    dials: usize,
    is_linked: bool,
    /// What else is worth telling.
    notes: String,
}

/// Adds the name of each event.
pub(crate) fn put_names(
    alloc: Global,
    world: &CutWorld,
    out: &mut String,
) -> Result<(), AllocError> {
    out.push_str("events:")?;
    for event in world.events().unwrap_or(&[]) {
        let text = format!(in alloc; "{event:?}")?;
        let (name, _) = text.split_once('(').unwrap_or((text.as_str(), ""));
        write!(out, " {name}")?;
    }
    out.push('\n')
}

/// How often one text stands in another.
fn count_of(text: &str, part: &str) -> usize {
    text.split(part).count().saturating_sub(1)
}

impl Seen {
    /// Nothing was done.
    pub(crate) fn nothing(alloc: Global) -> Seen {
        Seen {
            ended: String::new(alloc),
            gave: 0,
            took: String::new(alloc),
            store: String::new(alloc),
            dials: 0,
            is_linked: false,
            notes: String::new(alloc),
        }
    }

    /// What is told of a command that ended so.
    pub(crate) fn new(alloc: Global, ended: String, world: &CutWorld) -> Result<Seen, AllocError> {
        let mut seen = Seen::nothing(alloc);
        seen.ended = ended;
        for event in world.events().unwrap_or(&[]) {
            seen.note(event)?;
        }
        Ok(seen)
    }

    /// A client took octets.
    fn note_took(&mut self, octets: &[u8]) -> Result<(), AllocError> {
        if self.is_linked {
            self.notes.push_str(", early")?;
        }
        put_octets(&mut self.took, octets)
    }

    /// The console took a text.
    fn note_said(&mut self, text: &[u8]) -> Result<(), AllocError> {
        self.notes.push_str(", said ")?;
        put_octets(&mut self.notes, text)
    }

    fn note(&mut self, event: &Event) -> Result<(), AllocError> {
        match event {
            Event::ClientTook(octets) => self.note_took(octets.as_slice()),
            Event::StoreTook(octets) => put_octets(&mut self.store, octets.as_slice()),
            Event::Said(text) => self.note_said(text.as_slice()),
            Event::SayFailed => self.notes.push_str(", say failed"),
            Event::FrontFailed => self.notes.push_str(", front failed"),
            _ => {
                self.count(event);
                Ok(())
            }
        }
    }

    fn count(&mut self, event: &Event) {
        match event {
            Event::ClientGave(octets) => {
                self.gave = self.gave.saturating_add(octets.as_slice().len());
            }
            Event::Dialed => {
                self.dials = self.dials.saturating_add(1);
                self.is_linked = true;
            }
            Event::LinkEnded => self.is_linked = false,
            _ => {}
        }
    }

    /// Notes how often the store took this text, where there is one.
    pub(crate) fn note_count(&mut self, alloc: Global, text: &str) -> Result<(), AllocError> {
        if text.is_empty() {
            return Ok(());
        }
        let count = count_of(&self.store, text);
        let note = format!(in alloc; ", {count} of {text}")?;
        self.notes.push_str(&note)
    }

    /// What the store took counts no more.
    pub(crate) fn forget_store(&mut self) {
        self.store.clear();
    }

    /// Adds how it ended, and what clients took.
    pub(crate) fn put(&self, alloc: Global, out: &mut String) -> Result<(), AllocError> {
        let took = self.took.replace(alloc, "%0D%0A", "\n")?;
        let left = if self.is_linked { ", linked" } else { "" };
        let (ended, dials, notes) = (&self.ended, self.dials, &self.notes);
        writeln!(out, "{ended}, dials {dials}{notes}{left}|{took}")
    }

    /// Adds what the store took, from the first place of the text on.
    pub(crate) fn put_store(
        &self,
        alloc: Global,
        text: &str,
        out: &mut String,
    ) -> Result<(), AllocError> {
        let Some((_, rest)) = self.store.split_once(text) else {
            return writeln!(out, "the store took no {text}");
        };
        let rest = rest.replace(alloc, "%0D%0A", "\n")?;
        writeln!(out, "the store took: {text}{rest}")
    }

    /// Adds how often this stands in what clients and the store took.
    pub(crate) fn put_counts(&self, text: &str, out: &mut String) -> Result<(), AllocError> {
        let (clients, store) = (count_of(&self.took, text), count_of(&self.store, text));
        writeln!(out, "{text}: {clients} for clients, {store} for the store")
    }
}
