// The symbols as a grammar that the automaton reads.
ghost use Rattle.std.specs.Prelude.{◌≡◌, IsTrue};
ghost use Rattle.imap_automaton.specs.Rules as rules;
ghost use Rattle.imap_automaton.specs.Fits.{SymFits};
ghost use Rattle.imap_automaton.specs.Responses.{responses};

use crate::date_rule::date_rule;
use crate::folder_rule::folder_rule;
use crate::free_rule::free_rule;
use crate::item_name_rule::item_name_rule;
use crate::item_rule::item_rule;
use crate::line_rule::line_rule;
use crate::names_rule::names_rule;
use crate::runs::run_of;
use crate::set_rule::{set_rule, words_rule};
use crate::string_rule::string_rule;
use crate::sym::{Line, Sym, octets_left, with_left};
use crate::value_rule::value_rule;
use crate::word_rule::word_rule;
use pushdown::{Move, Symbol};

/// Octets that may stand outside literals in one response.
pub const MAX_RESPONSE_OCTETS: u32 = 8_388_608;

// Where it and the groups' rules are inlined, the tests of the octet for all symbols are made for each.
#[inline(never)]
fn rule(sym: &Sym, c: u16) -> Move<Sym>
    requires { IsTrue (SymFits sym.now) }
    ensures { result ≡ rules.rule_of sym.now c }
{
    match sym {
        Sym::Line(line) => line_rule(line, c),
        Sym::Word(place, key, at) => word_rule(*place, *key, *at, c),
        Sym::Free(free) => free_rule(free, c),
        Sym::Item(item) => item_rule(item, c),
        Sym::Names(names) => names_rule(names, c),
        Sym::Date(date) => date_rule(date, c),
        Sym::ItemName(name) => item_name_rule(*name, c),
        Sym::Words(words) => words_rule(words, c),
        Sym::Set(set) => set_rule(set, c),
        Sym::Str(string) => string_rule(string, c),
        Sym::Value(value) => value_rule(value, c),
        Sym::Folder(folder) => folder_rule(folder, c),
    }
}

impl Symbol for Sym {
    ghost automaton = { responses };

    fn start() -> Sym {
        Sym::Line(Line::Start)
    }

    fn limit() -> u32 {
        MAX_RESPONSE_OCTETS
    }

    fn rule(&self, c: u16) -> Move<Sym> {
        rule(self, c)
    }

    fn octets_left(&self) -> u32 {
        octets_left(*self)
    }

    fn with_octets_left(&self, n: u32) -> Sym {
        with_left(*self, n)
    }

    fn run_of(&self, octets: &[u8]) -> (Sym, usize) {
        run_of(*self, octets)
    }

    fn lawful() {}
}
