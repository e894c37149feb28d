// Strings.
ghost use Rattle.std.specs.Prelude.{◌≡◌, IsTrue};
ghost use Rattle.imap_automaton.specs.StringRules as rules;
ghost use Rattle.imap_automaton.specs.Fits.{StrFits};

use crate::sym::{Free, Line, Names, Str, Sym};
use imap_keywords::{
    COUNT_DIGITS, CR, MAX_LITERAL_OCTETS, Phrase, is_atom, is_digit, is_text, lower,
};
use pushdown::Move;

/// A literal's count, from its first digit on.
const COUNT_START: Sym = Sym::Str(Str::Count(0, 0));

/// What is read after the first octet of an atom, a quoted text or a literal.
pub fn flat_start(c: u16) -> Option<Sym>
    ensures { result ≡ rules.flat_start c }
{
    if c == b'"' as u16 {
        Some(Sym::Str(Str::Quoted))
    } else if c == b'{' as u16 {
        Some(COUNT_START)
    } else if c == b'~' as u16 {
        Some(Sym::Str(Str::AtomTilde))
    } else if is_atom(c) {
        Some(Sym::Names(Names::AtomRest))
    } else {
        None
    }
}

/// The symbol in place of the one before it; the octet is wrong where there is none.
pub fn alone(first: Option<Sym>) -> Move<Sym>
    ensures { result ≡ rules.alone first }
{
    match first {
        None => Move::Fail,
        Some(symbol) => Move::One(symbol),
    }
}

/// The symbol, and then another.
pub fn before(later: Sym, first: Option<Sym>) -> Move<Sym>
    ensures { result ≡ rules.before later first }
{
    match first {
        None => Move::Fail,
        Some(symbol) => Move::Two(symbol, later),
    }
}

fn nstring_rule(c: u16) -> Move<Sym>
    ensures { result ≡ rules.nstring_rule c }
{
    if c == b'"' as u16 {
        Move::One(Sym::Str(Str::Quoted))
    } else if c == b'{' as u16 {
        Move::One(COUNT_START)
    } else if c == b'~' as u16 {
        Move::One(Sym::Str(Str::Tilde))
    } else if lower(c) == b'n' as u16 {
        Move::One(Sym::Line(Line::Folded(Phrase::Nil, 1)))
    } else {
        Move::Fail
    }
}

fn quoted_rule(c: u16) -> Move<Sym>
    ensures { result ≡ rules.string_rule Str.Quoted c }
{
    if c == b'"' as u16 {
        Move::End
    } else if c == b'\\' as u16 {
        Move::One(Sym::Str(Str::Escaped))
    } else if is_text(c) {
        Move::One(Sym::Str(Str::Quoted))
    } else {
        Move::Fail
    }
}

fn escaped_rule(c: u16) -> Move<Sym>
    ensures { result ≡ rules.string_rule Str.Escaped c }
{
    if c == b'"' as u16 || c == b'\\' as u16 {
        Move::One(Sym::Str(Str::Quoted))
    } else {
        Move::Fail
    }
}

fn tilde_rule(c: u16) -> Move<Sym>
    ensures { result ≡ rules.string_rule Str.Tilde c }
{
    if c == b'{' as u16 {
        Move::One(COUNT_START)
    } else {
        Move::Fail
    }
}

fn atom_tilde_rule(c: u16) -> Move<Sym>
    ensures { result ≡ rules.string_rule Str.AtomTilde c }
{
    if c == b'{' as u16 {
        Move::One(COUNT_START)
    } else if is_atom(c) {
        Move::One(Sym::Names(Names::AtomRest))
    } else {
        Move::Yield
    }
}

fn count_rule(value: u32, digits: u8, c: u16) -> Move<Sym>
    requires { IsTrue (StrFits (Str.Count value digits)) }
    ensures { result ≡ rules.count_rule value digits c }
{
    if is_digit(c) {
        let next = 10 * value + (c - b'0' as u16) as u32;
        if digits < COUNT_DIGITS && next <= MAX_LITERAL_OCTETS {
            Move::One(Sym::Str(Str::Count(next, digits + 1)))
        } else {
            Move::Fail
        }
    } else if c == b'}' as u16 && 0 < digits {
        Move::One(Sym::Str(Str::Brace(value)))
    } else {
        Move::Fail
    }
}

fn brace_rule(n: u32, c: u16) -> Move<Sym>
    ensures { result ≡ rules.string_rule (Str.Brace n) c }
{
    if c == CR {
        Move::One(Sym::Free(Free::Break(n)))
    } else {
        Move::Fail
    }
}

/// Strings: what an octet does.
#[inline(never)]
pub fn string_rule(string: &Str, c: u16) -> Move<Sym>
    requires { IsTrue (StrFits string.now) }
    ensures { result ≡ rules.string_rule string.now c }
{
    match string {
        Str::NString => nstring_rule(c),
        Str::AString => alone(flat_start(c)),
        Str::Quoted => quoted_rule(c),
        Str::Escaped => escaped_rule(c),
        Str::Tilde => tilde_rule(c),
        Str::AtomTilde => atom_tilde_rule(c),
        Str::Count(value, digits) => count_rule(*value, *digits, c),
        Str::Brace(n) => brace_rule(*n, c),
    }
}
