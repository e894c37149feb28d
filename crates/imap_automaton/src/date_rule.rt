// Dates.
ghost use Rattle.std.specs.Prelude.{◌≡◌};
ghost use Rattle.imap_automaton.specs.DateRules as rules;

use crate::sym::{Date, Sym};
use imap_keywords::{Key, WordPlace, is_digit};
use pushdown::Move;

/// The octets between the quote and the month.
const DAY_LEN: u8 = 3;

/// The octets after the month.
const TIME_LEN: u8 = 21;

/// Whether the octet may stand at a place between the quote and the month.
fn day_octet(at: u8, c: u16) -> bool
    ensures { result ≡ rules.day_octet at c }
{
    match at {
        0 => c == b' ' as u16 || is_digit(c),
        1 => is_digit(c),
        _ => c == b'-' as u16,
    }
}

/// Whether the octet may stand at a place after the month.
fn time_octet(at: u8, c: u16) -> bool
    ensures { result ≡ rules.time_octet at c }
{
    match at {
        0 => c == b'-' as u16,
        5 | 14 => c == b' ' as u16,
        8 | 11 => c == b':' as u16,
        15 => c == b'+' as u16 || c == b'-' as u16,
        20 => c == b'"' as u16,
        _ => is_digit(c),
    }
}

/// Between the quote and the month: what an octet does.
fn day_rule(at: u8, c: u16) -> Move<Sym>
    ensures { result ≡ rules.day_rule at c }
{
    if at < DAY_LEN && day_octet(at, c) {
        if at + 1 == DAY_LEN {
            Move::One(Sym::Word(WordPlace::Month, Key::Jan, 0))
        } else {
            Move::One(Sym::Date(Date::Day(at + 1)))
        }
    } else {
        Move::Fail
    }
}

/// After the month: what an octet does.
pub fn time_rule(at: u8, c: u16) -> Move<Sym>
    ensures { result ≡ rules.time_rule at c }
{
    if at < TIME_LEN && time_octet(at, c) {
        if at + 1 == TIME_LEN {
            Move::End
        } else {
            Move::One(Sym::Date(Date::Time(at + 1)))
        }
    } else {
        Move::Fail
    }
}

/// Dates: what an octet does.
#[inline(never)]
pub fn date_rule(date: &Date, c: u16) -> Move<Sym>
    ensures { result ≡ rules.date_rule date.now c }
{
    match date {
        Date::Open => {
            if c == b'"' as u16 {
                Move::One(Sym::Date(Date::Day(0)))
            } else {
                Move::Fail
            }
        }
        Date::Day(at) => day_rule(*at, c),
        Date::Time(at) => time_rule(*at, c),
    }
}
