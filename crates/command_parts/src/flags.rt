// Flags (RFC 9051 section 9, flag-list), from behind the opening bracket on.
ghost use Rattle.std.specs.Prelude.{◌≡◌};
ghost use Rattle.imap_values.specs.Spans as spans;
ghost use Rattle.command_parts.specs.reading.Lexemes as reading;
ghost use Rattle.command_parts.specs.reading.Strings as strings;
ghost use Rattle.command_parts.specs.reading.Steps.{ReadingGives};

use crate::lexeme::{Lexeme, LexemeStep, read_lexeme};
use crate::no_command::NoCommand;
use imap_keywords::is_atom;

/// Flags, as far as they were read.
#[derive(Clone, Copy)]
pub enum Flags {
    /// Before the first flag or the closing bracket.
    First,
    /// Behind a space, before a flag.
    Next,
    /// Behind the `\` of a flag.
    Atom,
    /// Behind octets of an atom, and at last behind the closing bracket.
    Rest,
}

fn atom(c: u8) -> LexemeStep<Flags>
    ensures { result ≡ reading.flags_advance Flags.Atom c }
{
    if is_atom(c as u16) {
        LexemeStep::On(Flags::Rest)
    } else {
        LexemeStep::Fail
    }
}

fn next(c: u8) -> LexemeStep<Flags>
    ensures { result ≡ reading.flags_advance Flags.Next c }
{
    if c == b'\\' {
        LexemeStep::On(Flags::Atom)
    } else {
        atom(c)
    }
}

fn first(c: u8) -> LexemeStep<Flags>
    ensures { result ≡ reading.flags_advance Flags.First c }
{
    if c == b')' {
        LexemeStep::End(Flags::First)
    } else {
        next(c)
    }
}

fn rest(c: u8) -> LexemeStep<Flags>
    ensures { result ≡ reading.flags_advance Flags.Rest c }
{
    if c == b')' {
        LexemeStep::End(Flags::Rest)
    } else if c == b' ' {
        LexemeStep::On(Flags::Next)
    } else {
        atom(c)
    }
}

fn advance(flags: Flags, c: u8) -> LexemeStep<Flags>
    ensures { result ≡ reading.flags_advance flags c }
{
    match flags {
        Flags::First => first(c),
        Flags::Next => next(c),
        Flags::Atom => atom(c),
        Flags::Rest => rest(c),
    }
}

impl Lexeme for Flags {
    ghost advance_of = { reading.flags_advance };

    fn advance(&self, c: u8) -> LexemeStep<Flags> {
        advance(*self, c)
    }
}

/// The octets from the first flag on, and what follows the closing bracket: [flag *(SP flag)] ")".
#[tactic(auto, unfolding(crate::specs::reading::Strings::flags_at))]
pub fn read_flags(bytes: &[u8]) -> Result<(&[u8], &[u8]), NoCommand>
    ensures { ReadingGives (λ x. ((spans.flags_in x.0.now).0, x.1.now)) result (strings.flags_at bytes.now) }
{
    let (_, rest) = read_lexeme(Flags::First, bytes)?;
    Ok((bytes, rest))
}
