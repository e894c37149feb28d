// Who is told of changes, a line at a time.
ghost use Rattle.std.specs.Prelude.{◌≡◌, ◌≢◌, ◌≤◌, ◌↔◌, List, ℕ, [], ◌∷◌, Option, OnOk, OnErr, IsTrue};
ghost use Rattle.gate_world.specs.Causes.{Rose};
ghost use Rattle.gate_world.specs.Heard.{HearsLines};

use crate::Failed;

/// One who is told of changes.
pub trait Watcher: Drop {
    /// The lines so far, where they are told.
    ghost heard: { Self → Option (List (List ℕ)) };

    /// How often telling has failed.
    ghost failures: { Self → ℕ };

    /// Tells the line, which is whole. It fails where it isn't told; the count of failures rises then.
    fn tell(&mut self, line: &[u8]) -> Result<(), Failed>
        ensures ok { OnOk result (HearsLines (heard self.old) (heard self.new) (line.now ∷ [])) }
        ensures kept { OnOk result (failures self.new ≡ failures self.old) }
        ensures err { OnErr result (HearsLines (heard self.old) (heard self.new) []) }
        ensures later { failures self.old ≤ failures self.new }
        ensures cause { OnErr result (Rose (failures self.old) (failures self.new)) };

    /// Whether telling has ever failed. It takes no memory.
    fn failed(&self) -> bool
        ensures { IsTrue result ↔ (failures self.now ≢ 0) };
}

impl Watcher for Box<dyn Watcher> {
    ghost heard = { λ b. (Watcher-box b).heard b.value };

    ghost failures = { λ b. (Watcher-box b).failures b.value };

    /// Tells the line, which is whole. It fails where it isn't told; the count of failures rises then.
    fn tell(&mut self, line: &[u8]) -> Result<(), Failed> {
        (**self).tell(line)
    }

    fn failed(&self) -> bool {
        (**self).failed()
    }
}
