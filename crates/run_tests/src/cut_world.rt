// A world that follows a script, whose store takes no more than so many octets in the first link life.
ghost use Rattle.std.specs.Prelude.{◌≡◌};

use gate_world::{Chance, Clock, Console, Event, Failed, Front, Link, Secrets, Taped, World};
use scripted_world::ScriptWorld;

/// A world whose contracts tell no tape.
#[derive(Drop)]
pub(crate) struct CutWorld {
    world: ScriptWorld,
    /// How many octets the store still takes in this link life.
    room: usize,
    /// Whether the first link life has begun.
    is_begun: bool,
}

impl CutWorld {
    pub(crate) fn new(world: ScriptWorld, room: usize) -> CutWorld {
        CutWorld {
            world,
            room,
            is_begun: false,
        }
    }

    /// What was asked of the outside, and came of it.
    pub(crate) fn events(&self) -> Option<&[Event]> {
        self.world.events()
    }
}

impl Taped for CutWorld {
    ghost use Rattle.std.specs.Prelude.{None};

    ghost tape = { λ _. None };

    ghost faults = { λ w. w.world.faults };

    ghost hidden = { λ w. w.world.hidden };
}

impl Link for CutWorld {
    fn dial(&mut self) -> Result<(), Failed> {
        if self.is_begun {
            self.room = usize::MAX;
        }
        self.is_begun = true;
        self.world.dial()
    }

    fn read(&mut self, into: &mut [u8]) -> Result<usize, Failed> {
        self.world.read(into)
    }

    fn write(&mut self, from: &[u8]) -> Result<usize, Failed> {
        let count = from.len().min(self.room);
        if count == 0 {
            self.world.hang_up();
            return self.world.write(from);
        }
        self.room -= count;
        self.world.write(&from[..count])
    }

    fn hang_up(&mut self) {
        self.world.hang_up();
    }
}

impl Front for CutWorld {
    fn accept(&mut self) -> Result<bool, Failed> {
        self.world.accept()
    }

    fn recv(&mut self, into: &mut [u8]) -> Result<usize, Failed> {
        self.world.recv(into)
    }

    fn send(&mut self, from: &[u8]) -> Result<usize, Failed> {
        self.world.send(from)
    }

    fn finish(&mut self) {
        self.world.finish();
    }
}

impl Clock for CutWorld {
    fn now(&mut self) -> i64 {
        self.world.now()
    }
}

impl Chance for CutWorld {
    fn word(&mut self) -> u64 {
        self.world.word()
    }
}

impl Console for CutWorld {
    fn say(&mut self, text: &[u8]) -> Result<(), Failed> {
        self.world.say(text)
    }
}

impl Secrets for CutWorld {
    fn password(&self) -> &[u8] {
        self.world.password()
    }

    fn token(&self) -> &[u8] {
        self.world.token()
    }
}

impl World for CutWorld {}
