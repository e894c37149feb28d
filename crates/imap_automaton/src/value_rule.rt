// Values, whose brackets are counted.
ghost use Rattle.std.specs.Prelude.{◌≡◌, IsTrue};
ghost use Rattle.imap_automaton.specs.ValueRules as rules;
ghost use Rattle.imap_automaton.specs.Fits.{ValueFits};

use crate::string_rule::{alone, before, flat_start};
use crate::sym::{Sym, Value};
use pushdown::Move;

/// Brackets round the innermost one.
const NESTING: u8 = 63;

/// A value in a bracket.
fn inner_rule(within: u8, c: u16) -> Move<Sym>
    requires { IsTrue (ValueFits (Value.Next within)) }
    ensures { result ≡ rules.inner_rule within c }
{
    if c != b'(' as u16 {
        before(Sym::Value(Value::More(within)), flat_start(c))
    } else if within < NESTING {
        Move::One(Sym::Value(Value::First(within + 1)))
    } else {
        Move::Fail
    }
}

/// After the closing bracket.
fn closes(within: u8) -> Move<Sym>
    ensures { result ≡ rules.closes within }
{
    if within == 0 {
        Move::End
    } else {
        Move::One(Sym::Value(Value::More(within - 1)))
    }
}

fn start_rule(c: u16) -> Move<Sym>
    ensures { result ≡ rules.value_rule Value.Start c }
{
    if c == b'(' as u16 {
        Move::One(Sym::Value(Value::First(0)))
    } else {
        alone(flat_start(c))
    }
}

fn first_rule(within: u8, c: u16) -> Move<Sym>
    requires { IsTrue (ValueFits (Value.First within)) }
    ensures { result ≡ rules.value_rule (Value.First within) c }
{
    if c == b')' as u16 {
        closes(within)
    } else {
        inner_rule(within, c)
    }
}

fn more_rule(within: u8, c: u16) -> Move<Sym>
    ensures { result ≡ rules.value_rule (Value.More within) c }
{
    if c == b' ' as u16 {
        Move::One(Sym::Value(Value::Next(within)))
    } else if c == b')' as u16 {
        closes(within)
    } else {
        Move::Fail
    }
}

/// Values of any form: what an octet does.
#[inline(never)]
pub fn value_rule(value: &Value, c: u16) -> Move<Sym>
    requires { IsTrue (ValueFits value.now) }
    ensures { result ≡ rules.value_rule value.now c }
{
    match value {
        Value::Start => start_rule(c),
        Value::First(within) => first_rule(*within, c),
        Value::Next(within) => inner_rule(*within, c),
        Value::More(within) => more_rule(*within, c),
    }
}
