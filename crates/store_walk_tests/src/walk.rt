// A store that its owner changes, and a client that follows it.
use crate::agreement::is_told;
use crate::owner::Owner;
use imap_client::Client;
use std::alloc::{AllocError, Global};
use store_world::StoreWorld;
use told_mail::Mirror;

/// After so many rounds the client leaves, and connects again.
const LIFE: u64 = 100;

#[derive(Drop)]
pub(crate) struct Walk {
    world: StoreWorld,
    owner: Owner,
    client: Client,
    mirror: Mirror,
}

impl Walk {
    pub(crate) fn new(alloc: Global) -> Result<Walk, AllocError> {
        Ok(Walk {
            world: StoreWorld::new(alloc, Vec::new(alloc))?,
            owner: Owner::new(alloc),
            client: Client::new(alloc),
            mirror: Mirror::new(alloc),
        })
    }

    /// Connects, where the client isn't alive; whether it is then.
    fn connect(&mut self) -> bool {
        self.client.alive() || self.client.connect(&mut self.world, b"alice").is_ok()
    }

    /// Does a round, where the client is alive; whether it was done.
    fn round(&mut self) -> bool {
        self.client.alive() && self.client.round(&mut self.world, &mut self.mirror).is_ok()
    }

    /// Makes a call of the owner.
    fn change(&mut self) -> Result<(), AllocError> {
        self.owner.call(self.world.store())
    }

    /// The client leaves, where it is time to.
    fn end_life(&mut self) {
        if self.owner.calls % LIFE == 0 {
            self.client.leave(&mut self.world);
        }
    }

    /// Whether the mirror is as the store.
    fn agrees(&mut self) -> bool {
        is_told(self.world.store().folders(), &self.mirror)
    }

    /// Makes a call of the owner, and does a round; whether the mirror is as the store then.
    fn step(&mut self) -> Result<bool, AllocError> {
        self.change()?;
        self.end_life();
        Ok(self.connect() && self.round() && self.agrees())
    }

    /// Makes so many steps, up to the first that leaves another mirror; how many left it as the store.
    fn steps(&mut self, most: u64) -> Result<u64, AllocError> {
        for told in 0..most {
            if !self.step()? {
                return Ok(told);
            }
        }
        Ok(most)
    }

    /// Adds how many calls there were, and how many of each kind changed the mail.
    fn put_counts(&self, out: &mut String) -> Result<(), AllocError> {
        let owner = &self.owner;
        writeln!(out, "calls: {}", owner.calls)?;
        writeln!(out, "deliver: {}", owner.delivered)?;
        writeln!(out, "toggle_seen: {}", owner.toggled)?;
        writeln!(out, "shift: {}", owner.shifted)?;
        writeln!(out, "expunge: {}", owner.expunged)
    }

    /// Makes so many steps, and adds what comes of them.
    pub(crate) fn put(&mut self, most: u64, out: &mut String) -> Result<(), AllocError> {
        let told = self.steps(most)?;
        self.put_counts(out)?;
        if told < most {
            return writeln!(out, "after {told} rounds one left another mirror");
        }
        writeln!(out, "all rounds left the mirror as the store")
    }
}
