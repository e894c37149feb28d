// Names in brackets.
ghost use Rattle.std.specs.Prelude.{◌≡◌};
ghost use Rattle.imap_automaton.specs.NamesRules as rules;

use crate::sym::{Names, Sym};
use imap_keywords::is_atom;
use pushdown::Move;

fn first_rule(c: u16) -> Move<Sym>
    ensures { result ≡ rules.names_rule Names.First c }
{
    if c == b')' as u16 {
        Move::End
    } else if c == b'\\' as u16 {
        Move::Two(Sym::Names(Names::Atom), Sym::Names(Names::More))
    } else if is_atom(c) {
        Move::Two(Sym::Names(Names::AtomRest), Sym::Names(Names::More))
    } else {
        Move::Fail
    }
}

fn more_rule(c: u16) -> Move<Sym>
    ensures { result ≡ rules.names_rule Names.More c }
{
    if c == b' ' as u16 {
        Move::Two(Sym::Names(Names::Name), Sym::Names(Names::More))
    } else if c == b')' as u16 {
        Move::End
    } else {
        Move::Fail
    }
}

fn atom_rule(c: u16) -> Move<Sym>
    ensures { result ≡ rules.names_rule Names.Atom c }
{
    if is_atom(c) {
        Move::One(Sym::Names(Names::AtomRest))
    } else {
        Move::Fail
    }
}

/// Names in brackets: what an octet does.
#[inline(never)]
pub fn names_rule(names: &Names, c: u16) -> Move<Sym>
    ensures { result ≡ rules.names_rule names.now c }
{
    match names {
        Names::Open => {
            if c == b'(' as u16 {
                Move::One(Sym::Names(Names::First))
            } else {
                Move::Fail
            }
        }
        Names::First => first_rule(c),
        Names::More => more_rule(c),
        Names::Name => {
            if c == b'\\' as u16 {
                Move::One(Sym::Names(Names::Atom))
            } else {
                atom_rule(c)
            }
        }
        Names::Atom => atom_rule(c),
        Names::AtomRest => {
            if is_atom(c) {
                Move::One(Sym::Names(Names::AtomRest))
            } else {
                Move::Yield
            }
        }
    }
}
