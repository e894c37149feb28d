// Words and sets of UIDs up to a line's end.
ghost use Rattle.std.specs.Prelude.{◌≡◌, IsTrue};
ghost use Rattle.imap_automaton.specs.SetRules as rules;
ghost use Rattle.imap_automaton.specs.Fits.{SetFits};

use crate::item_rule::NUMBER_DIGITS;
use crate::sym::{Line, Set, Sym, Words};
use imap_keywords::{CR, Phrase, is_digit, is_word};
use pushdown::Move;

/// A number of a set, from its first digit on.
const FIRST_NUMBER: Sym = Sym::Set(Set::Number(0, 0, false));

/// The second number of a range, from its first digit on.
const SECOND_NUMBER: Sym = Sym::Set(Set::Number(0, 0, true));

/// After a word.
pub fn words_more(c: u16) -> Move<Sym>
    ensures { result ≡ rules.words_more c }
{
    if c == b' ' as u16 {
        Move::One(Sym::Words(Words::First))
    } else if c == CR {
        Move::One(Sym::Line(Line::Fixed(Phrase::Crlf, 1)))
    } else {
        Move::Fail
    }
}

/// Words up to the end of the line: what an octet does.
#[inline(never)]
pub fn words_rule(words: &Words, c: u16) -> Move<Sym>
    ensures { result ≡ rules.words_rule words.now c }
{
    match words {
        Words::More => words_more(c),
        Words::First => {
            if is_word(c) {
                Move::One(Sym::Words(Words::Rest))
            } else {
                Move::Fail
            }
        }
        Words::Rest => {
            if is_word(c) {
                Move::One(Sym::Words(Words::Rest))
            } else {
                words_more(c)
            }
        }
    }
}

/// After a number.
fn set_ends(second: bool, c: u16) -> Move<Sym>
    ensures { result ≡ rules.set_ends second c }
{
    if c == CR {
        Move::One(Sym::Line(Line::Fixed(Phrase::Crlf, 1)))
    } else if c == b',' as u16 {
        Move::One(FIRST_NUMBER)
    } else if c == b':' as u16 && !second {
        Move::One(SECOND_NUMBER)
    } else {
        Move::Fail
    }
}

fn set_number(value: u32, digits: u8, second: bool, c: u16) -> Move<Sym>
    requires { IsTrue (SetFits (Set.Number value digits second)) }
    ensures { result ≡ rules.set_number value digits second c }
{
    if is_digit(c) {
        let next = 10 * value as u64 + (c - b'0' as u16) as u64;
        if digits < NUMBER_DIGITS
            && next <= u32::MAX as u64
            && !(next == 0 && digits == NUMBER_DIGITS - 1)
        {
            Move::One(Sym::Set(Set::Number(next as u32, digits + 1, second)))
        } else {
            Move::Fail
        }
    } else if 0 < value {
        set_ends(second, c)
    } else {
        Move::Fail
    }
}

/// VANISHED with its set of UIDs: what an octet does.
#[inline(never)]
pub fn set_rule(set: &Set, c: u16) -> Move<Sym>
    requires { IsTrue (SetFits set.now) }
    ensures { result ≡ rules.set_rule set.now c }
{
    match set {
        Set::Open => {
            if c == b'(' as u16 {
                Move::Two(Sym::Line(Line::Folded(Phrase::Earlier, 1)), FIRST_NUMBER)
            } else {
                set_number(0, 0, false, c)
            }
        }
        Set::Number(value, digits, second) => set_number(*value, *digits, *second, c),
    }
}
