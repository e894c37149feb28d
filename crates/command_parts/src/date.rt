// The date of a message (RFC 9051 section 9, date-time).
ghost use Rattle.std.specs.Prelude.{◌≡◌};
ghost use Rattle.command_parts.specs.reading.Lexemes as reading;
ghost use Rattle.command_parts.specs.reading.Strings as strings;
ghost use Rattle.command_parts.specs.reading.Steps.{ReadingGives};

use crate::fixed_text::{Choice, read_choice};
use crate::lexeme::{Lexeme, LexemeStep, read_lexeme};
use crate::no_command::NoCommand;
use imap_keywords::is_digit;
use imap_values::date_in;

/// A part of a date in which each octet has its place: how many of its octets were read.
#[derive(Clone, Copy)]
pub enum DatePart {
    /// DQUOTE ((SP DIGIT) / 2DIGIT) "-".
    Day(u8),
    /// 4DIGIT SP 2DIGIT ":" 2DIGIT ":" 2DIGIT SP ("+" / "-") 4DIGIT DQUOTE.
    Time(u8),
}

/// The place of the last octet of a Day.
const DAY_END: u8 = 3;

/// The place of the last octet of a Time.
const TIME_END: u8 = 19;

/// Whether the octet may stand at the place of a Day.
fn in_day(at: u8, c: u8) -> bool
    ensures { result ≡ reading.in_day at c }
{
    if at == 0 {
        c == b'"'
    } else if at == 1 {
        c == b' ' || is_digit(c as u16)
    } else if at == DAY_END {
        c == b'-'
    } else {
        is_digit(c as u16)
    }
}

/// Whether the octet may stand at the place of a Time.
fn in_time(at: u8, c: u8) -> bool
    ensures { result ≡ reading.in_time at c }
{
    if at == 4 || at == 13 {
        c == b' '
    } else if at == 7 || at == 10 {
        c == b':'
    } else if at == 14 {
        c == b'+' || c == b'-'
    } else if at == TIME_END {
        c == b'"'
    } else {
        is_digit(c as u16)
    }
}

fn day(at: u8, c: u8) -> LexemeStep<DatePart>
    ensures { result ≡ reading.date_advance (DatePart.Day at) c }
{
    if !in_day(at, c) {
        LexemeStep::Fail
    } else if at < DAY_END {
        LexemeStep::On(DatePart::Day(at + 1))
    } else {
        LexemeStep::End(DatePart::Day(at))
    }
}

fn time(at: u8, c: u8) -> LexemeStep<DatePart>
    ensures { result ≡ reading.date_advance (DatePart.Time at) c }
{
    if !in_time(at, c) {
        LexemeStep::Fail
    } else if at < TIME_END {
        LexemeStep::On(DatePart::Time(at + 1))
    } else {
        LexemeStep::End(DatePart::Time(at))
    }
}

fn advance(fixed: DatePart, c: u8) -> LexemeStep<DatePart>
    ensures { result ≡ reading.date_advance fixed c }
{
    match fixed {
        DatePart::Day(at) => day(at, c),
        DatePart::Time(at) => time(at, c),
    }
}

impl Lexeme for DatePart {
    ghost advance_of = { reading.date_advance };

    fn advance(&self, c: u8) -> LexemeStep<DatePart> {
        advance(*self, c)
    }
}

/// What follows the octets of a date from its quote on: DQUOTE date-day-fixed "-" date-month "-" date-year SP time SP zone DQUOTE.
#[tactic(auto, unfolding(crate::specs::reading::Strings::date_octets_at))]
fn read_octets(bytes: &[u8]) -> Result<(DatePart, &[u8]), NoCommand>
    ensures { ReadingGives (λ x. (x.0, x.1.now)) result (strings.date_octets_at bytes.now) }
{
    let (_, rest) = read_lexeme(DatePart::Day(0), bytes)?;
    let (_, rest) = read_choice(Choice::Months, rest)?;
    read_lexeme(DatePart::Time(0), rest)
}

/// The date from its quote on, in seconds since 1970-01-01T00:00:00Z, and what follows its closing quote (date-time).
#[tactic(auto, unfolding(crate::specs::reading::Strings::date_at))]
pub fn read_date(bytes: &[u8]) -> Result<(i64, &[u8]), NoCommand>
    ensures { ReadingGives (λ x. (x.0, x.1.now)) result (strings.date_at bytes.now) }
{
    let (_, rest) = read_octets(bytes)?;
    Ok((date_in(bytes), rest))
}
