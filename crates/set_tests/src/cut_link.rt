// A link to a store that is written down, and that may be cut.
ghost use Rattle.std.specs.Prelude.{◌≡◌, ◌≤◌};
ghost use Rattle.gate_world.specs.Causes.{Rose};

use gate_world::{Failed, Link, Secrets, Taped};
use std::alloc::Global;

/// A store that gives a line at a time. It takes so many octets at most, and gives what is written down; then the link is lost. It tells
/// no tape.
#[derive(Drop)]
pub(crate) struct CutLink {
    gives: Vec<u8>,
    given: usize,
    takes: usize,
    took: Vec<u8>,
    up: bool,
    faults: u64,
}

impl CutLink {
    /// A store that gives these octets, and takes so many.
    pub(crate) fn new(alloc: Global, gives: Vec<u8>, takes: usize) -> CutLink {
        CutLink {
            gives,
            given: 0,
            takes,
            took: Vec::new(alloc),
            up: false,
            faults: 0,
        }
    }

    /// What the store took.
    pub(crate) fn took(&self) -> &[u8] {
        &self.took
    }

    /// The next line that the store gives; empty where there is none.
    fn line(&self) -> &[u8] {
        if !self.up {
            return b"";
        }
        let rest = self.gives.get(self.given..).unwrap_or(b"");
        match rest.iter().position(|octet| *octet == b'\n') {
            Some(at) => &rest[..at + 1],
            None => rest,
        }
    }

    /// How many of so many octets the store takes.
    fn room(&self, count: usize) -> usize
        ensures { result ≤ count }
    {
        if self.up {
            count.min(self.takes.saturating_sub(self.took.len()))
        } else {
            0
        }
    }

    fn lost(&mut self) -> Failed
        ensures rose { Rose self.old.faults self.new.faults }
        ensures later { self.old.faults ≤ self.new.faults }
    {
        self.up = false;
        self.faults = self.faults.saturating_add(1);
        Failed
    }
}

impl Taped for CutLink {
    ghost use Rattle.std.specs.Prelude.{None, []};

    ghost tape = { λ _. None };

    ghost faults = { λ l. record { link = l.faults; keep = 0; front = 0; say = 0 } };

    ghost hidden = { λ _. record { password = []; token = [] } };
}

impl Link for CutLink {
    fn dial(&mut self) -> Result<(), Failed> {
        self.up = true;
        Ok(())
    }

    fn read(&mut self, into: &mut [u8]) -> Result<usize, Failed> {
        let line = self.line();
        let count = line.len().min(into.len());
        if count == 0 {
            return Err(self.lost());
        }
        into[..count].copy_from_slice(&line[..count]);
        self.given = self.given.saturating_add(count);
        Ok(count)
    }

    fn write(&mut self, from: &[u8]) -> Result<usize, Failed> {
        let count = self.room(from.len());
        if count == 0 {
            return Err(self.lost());
        }
        match self.took.extend_from_slice(&from[..count]) {
            Ok(_) => Ok(count),
            Err(_) => Err(self.lost()),
        }
    }

    fn hang_up(&mut self) {
        self.up = false;
    }
}

impl Secrets for CutLink {
    fn password(&self) -> &[u8] {
        b""
    }

    fn token(&self) -> &[u8] {
        b""
    }
}
