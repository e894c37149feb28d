// The names of other items.
ghost use Rattle.std.specs.Prelude.{◌≡◌};
ghost use Rattle.imap_automaton.specs.ItemNameRules as rules;
ghost use Rattle.imap_types.specs.ItemNames as names;

use crate::sym::{ItemName, Str, Sym, Value};
use imap_keywords::{is_atom, is_digit};
use pushdown::Move;

/// Whether the octet may stand in a section outside quoted texts.
fn is_inner(c: u16) -> bool
    ensures { result ≡ names.is_inner c }
{
    is_atom(c) && c != b']' as u16 || c == b' ' as u16 || c == b'(' as u16 || c == b')' as u16
}

fn may_end(name: ItemName) -> bool
    ensures { result ≡ rules.may_end name }
{
    matches!(name, ItemName::Plain | ItemName::After | ItemName::End)
}

fn in_section(name: ItemName) -> bool
    ensures { result ≡ rules.in_section name }
{
    matches!(name, ItemName::Section)
}

/// Whether the octet goes on with the name, by itself.
fn takes(name: ItemName, c: u16) -> bool
    ensures { result ≡ rules.takes name c }
{
    match name {
        ItemName::Plain => is_atom(c),
        ItemName::Section => c == b']' as u16 || is_inner(c),
        ItemName::After => c == b'<' as u16,
        ItemName::Part => is_digit(c),
        ItemName::Digits => c == b'>' as u16 || is_digit(c),
        ItemName::End => false,
    }
}

/// What stands after an octet that goes on with the name.
pub fn next_name(name: ItemName, c: u16) -> ItemName
    ensures { result ≡ rules.next_name name c }
{
    match name {
        ItemName::Plain => {
            if c == b'[' as u16 {
                ItemName::Section
            } else {
                ItemName::Plain
            }
        }
        ItemName::Section => {
            if c == b']' as u16 {
                ItemName::After
            } else {
                ItemName::Section
            }
        }
        ItemName::After => ItemName::Part,
        ItemName::Part => ItemName::Digits,
        ItemName::Digits => {
            if c == b'>' as u16 {
                ItemName::End
            } else {
                ItemName::Digits
            }
        }
        ItemName::End => ItemName::End,
    }
}

/// Names of other items: what an octet does.
#[inline(never)]
pub fn item_name_rule(name: ItemName, c: u16) -> Move<Sym>
    ensures { result ≡ rules.item_name_rule name c }
{
    if c == b' ' as u16 && may_end(name) {
        Move::One(Sym::Value(Value::Start))
    } else if c == b'"' as u16 && in_section(name) {
        Move::Two(Sym::Str(Str::Quoted), Sym::ItemName(ItemName::Section))
    } else if takes(name, c) {
        Move::One(Sym::ItemName(next_name(name, c)))
    } else {
        Move::Fail
    }
}
