// What a grammar gives.
ghost use Rattle.std.specs.Prelude.{◌≡◌, ◌<◌, ◌≤◌, IsTrue, length, take};
ghost use Rattle.pushdown.specs.Automaton.{Automaton};
ghost use Rattle.pushdown.specs.Lawful.{IsLawful};
ghost use Rattle.pushdown.specs.Run.{LeadsTo};

use crate::moves::Move;

/// What is still to come: a place within a rule of a grammar.
pub trait Symbol: Copy {
    /// The rules of all symbols, and what each reads.
    ghost automaton: { Automaton Self };

    /// The symbol that reads a whole text.
    fn start() -> Self
        ensures { result ≡ automaton.start };

    /// Octets that may stand outside literals in one text.
    fn limit() -> u32
        ensures { result ≡ automaton.limit };

    /// What an octet does to it; 256 above itself where it stands within a literal.
    fn rule(&self, c: u16) -> Move<Self>
        requires { IsTrue (automaton.fits self.now) }
        ensures { result ≡ automaton.rule_of self.now c };

    /// How many octets of a literal it still reads; 0 outside literals.
    fn octets_left(&self) -> u32
        ensures { result ≡ automaton.left self.now };

    /// The same within a literal, with as many octets still to be read.
    fn with_octets_left(&self, n: u32) -> Self
        ensures { result ≡ automaton.with_left self.now n };

    /// A run of octets at the front that it takes by itself: what it is then, and how many they are. It may be none.
    fn run_of(&self, octets: &[u8]) -> (Self, usize)
        requires { IsTrue (automaton.fits self.now) }
        ensures within { result.1 ≤ length octets.now }
        ensures run { LeadsTo automaton self.now (take result.1 octets.now) result.0 };

    /// The rules are those of the language. It does nothing: callers have the laws of it.
    fn lawful()
        ensures { IsLawful automaton };
}
