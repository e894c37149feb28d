// The items of a FETCH.
ghost use Rattle.std.specs.Prelude.{◌≡◌, IsTrue};
ghost use Rattle.imap_automaton.specs.ItemRules as rules;
ghost use Rattle.imap_automaton.specs.Fits.{ItemFits};

use crate::sym::{Item, Line, Sym};
use imap_keywords::{Key, Phrase, WordPlace, is_digit};
use pushdown::Move;

/// Digits of a number.
pub const NUMBER_DIGITS: u8 = 10;

/// A word of an item, from its first octet on.
const ITEM_START: Sym = Sym::Word(WordPlace::Item, Key::Uid, 0);

/// A number from 1 to 2^32 - 1, of which these digits came: what an octet does.
pub fn number_rule(value: u32, digits: u8, c: u16) -> Move<Sym>
    requires { IsTrue (ItemFits (Item.Number value digits)) }
    ensures { result ≡ rules.number_rule value digits c }
{
    if is_digit(c) {
        let next = 10 * value as u64 + (c - b'0' as u16) as u64;
        if digits < NUMBER_DIGITS
            && next <= u32::MAX as u64
            && !(next == 0 && digits == NUMBER_DIGITS - 1)
        {
            Move::One(Sym::Item(Item::Number(next as u32, digits + 1)))
        } else {
            Move::Fail
        }
    } else if 0 < value {
        Move::Yield
    } else {
        Move::Fail
    }
}

/// Digits of a long number.
const LONG_DIGITS: u8 = 19;

/// A number up to 2^63 - 1, of which these digits came: what an octet does.
pub fn long_rule(value: u64, digits: u8, c: u16) -> Move<Sym>
    requires { IsTrue (ItemFits (Item.Long value digits)) }
    ensures { result ≡ rules.long_rule value digits c }
{
    if is_digit(c) {
        let next = 10 * value as u128 + (c - b'0' as u16) as u128;
        if digits < LONG_DIGITS && next <= i64::MAX as u128 {
            Move::One(Sym::Item(Item::Long(next as u64, digits + 1)))
        } else {
            Move::Fail
        }
    } else if 0 < digits {
        Move::Yield
    } else {
        Move::Fail
    }
}

fn long_open_rule(c: u16) -> Move<Sym>
    ensures { result ≡ rules.item_rule Item.LongOpen c }
{
    if c == b'(' as u16 {
        Move::Two(
            Sym::Item(Item::Long(0, 0)),
            Sym::Line(Line::Fixed(Phrase::Close, 0)),
        )
    } else {
        Move::Fail
    }
}

/// The items of a FETCH: what an octet does.
#[inline(never)]
pub fn item_rule(item: &Item, c: u16) -> Move<Sym>
    requires { IsTrue (ItemFits item.now) }
    ensures { result ≡ rules.item_rule item.now c }
{
    match item {
        Item::Open => {
            if c == b'(' as u16 {
                Move::Two(ITEM_START, Sym::Item(Item::More))
            } else {
                Move::Fail
            }
        }
        Item::More => {
            if c == b' ' as u16 {
                Move::Two(ITEM_START, Sym::Item(Item::More))
            } else if c == b')' as u16 {
                Move::One(Sym::Line(Line::Fixed(Phrase::Crlf, 0)))
            } else {
                Move::Fail
            }
        }
        Item::Number(value, digits) => number_rule(*value, *digits, c),
        Item::LongOpen => long_open_rule(c),
        Item::Long(value, digits) => long_rule(*value, *digits, c),
    }
}
