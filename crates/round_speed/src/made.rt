// A link to octets in memory.
ghost use Rattle.std.specs.Prelude.{◌≡◌};

use gate_world::{Failed, Link, Secrets, Taped};

/// A store whose octets are there before it is asked. Past their end it gives octets 0. It tells no tape.
#[derive(Drop)]
pub struct MadeLink {
    octets: Vec<u8>,
    from: usize,
}

impl MadeLink {
    /// A link of these octets, which are not given yet.
    pub fn new(octets: Vec<u8>) -> MadeLink {
        MadeLink { octets, from: 0 }
    }

    /// Gives the octets again from their front on.
    pub fn rewind(&mut self) {
        self.from = 0;
    }

    // The octets that aren't given yet.
    fn rest(&self) -> &[u8] {
        match self.octets.get(self.from..) {
            Some(rest) => rest,
            None => b"",
        }
    }
}

impl Taped for MadeLink {
    ghost use Rattle.std.specs.Prelude.{None, []};
    ghost use Rattle.gate_world.specs.Causes.{no_faults};

    ghost tape = { λ _. None };

    ghost faults = { λ _. no_faults };

    ghost hidden = { λ _. record { password = []; token = [] } };
}

impl Link for MadeLink {
    fn dial(&mut self) -> Result<(), Failed> {
        Ok(())
    }

    fn read(&mut self, into: &mut [u8]) -> Result<usize, Failed> {
        let rest = self.rest();
        let count = rest.len().min(into.len());
        if count == 0 {
            into.fill(0);
            return Ok(into.len());
        }
        into[..count].copy_from_slice(&rest[..count]);
        self.from = self.from.saturating_add(count);
        Ok(count)
    }

    fn write(&mut self, from: &[u8]) -> Result<usize, Failed> {
        Ok(from.len())
    }

    fn hang_up(&mut self) {}
}

impl Secrets for MadeLink {
    fn password(&self) -> &[u8] {
        b""
    }

    fn token(&self) -> &[u8] {
        b""
    }
}
