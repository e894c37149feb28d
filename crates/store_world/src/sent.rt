// What a client took.
ghost use Rattle.std.specs.Prelude.{◌≡◌, [], Some, None, MatchOption};
ghost use Rattle.store_world.specs.StoreBehindLink.{Follow, emptied};

use std::alloc::Global;
use std::marker::Model;

/// The octets that the last client took, which are told until there is no memory for them.
#[derive(Drop)]
pub(crate) struct Sent {
    octets: Option<Vec<u8>>,
}

impl Model for Sent {
    ghost use Rattle.std.specs.Prelude.{List, Option, ℕ};
    ghost use Rattle.store_world.specs.Octets.{items_of};

    ghost Value = { Option (List ℕ) };

    ghost view = { λ s. items_of s.octets };
}

impl Sent {
    /// No client took any octets. It takes no memory.
    pub(crate) fn new(alloc: Global) -> Sent
        ensures { result ≡ Some [] }
    {
        Sent {
            octets: Some(Vec::new(alloc)),
        }
    }

    /// The next client came, which took none yet.
    pub(crate) fn begin(&mut self)
        ensures { self.new ≡ emptied self.old }
    {
        if let Some(octets) = &mut self.octets {
            octets.clear();
        }
    }

    /// The client took these octets. With no memory for them they are told no longer.
    pub(crate) fn add(&mut self, taken: &[u8])
        ensures { Follow taken.now self.old self.new }
    {
        let told = match &mut self.octets {
            None => false,
            Some(octets) => octets.extend_from_slice(taken).is_ok(),
        };
        if !told {
            self.octets = None;
        }
    }

    /// They are told no longer.
    pub(crate) fn stop(&mut self)
        ensures { self.new ≡ None }
    {
        self.octets = None;
    }

    /// The octets, where they are told.
    pub(crate) fn octets(&self) -> Option<&[u8]>
        ensures { MatchOption result (self.now ≡ None) (λ octets. self.now ≡ Some octets.now) }
    {
        match &self.octets {
            None => None,
            Some(octets) => Some(octets.as_slice()),
        }
    }
}
