// Runs of octets that one symbol takes: those of a word, of a number, of an atom, of a line's text.
ghost use Rattle.std.specs.Prelude.{◌≡◌, ◌==◌, ◌+◌, ◌≤◌, ◌&&◌, IsTrue, nat_lt, get_or, length, take};
ghost use Rattle.imap_keywords.specs.Keys as keywords;
ghost use Rattle.imap_types.specs.Octets as classes;
ghost use Rattle.imap_automaton.specs.Fits.{SymFits, ItemFits, LineFits};
ghost use Rattle.imap_automaton.specs.Responses.{responses};
ghost use Rattle.pushdown.specs.Run.{LeadsTo};

use crate::item_rule::{long_rule, number_rule};
use crate::line_rule::sequence_rule;
use crate::sym::{Item, Line, Names, Sym};
use imap_keywords::{Key, WordPlace, is_atom, is_text, key_text, lower};
use pushdown::Move;

/// Whether the text goes on with the octet, in letters of either case.
fn goes_with(text: &[u8], at: usize, c: u16) -> bool
    ensures { result ≡ (nat_lt at (length text.now) && get_or text.now at 0 == classes.lower c) }
{
    at < text.len() && text[at] as u16 == lower(c)
}

/// How many octets at the front go on with the key.
#[tactic(auto, using(imap_keywords::proofs::KeyLemmas::keys_short))]
fn word_run(place: WordPlace, key: Key, at: u8, octets: &[u8]) -> usize
    requires { at ≤ length (keywords.key_text key) }
    ensures within { result ≤ length octets.now }
    ensures key { at + result ≤ length (keywords.key_text key) }
    ensures run { LeadsTo responses (Sym.Word place key at) (take result octets.now) (Sym.Word place key (at + result)) }
{
    let text = key_text(key);
    let mut count: usize = 0;
    while count < octets.len() && goes_with(text, at as usize + count, octets[count] as u16) {
        count += 1;
    }
    count
}

/// How many octets at the front go on with the number of an item, and what it is then.
fn number_run(value: u32, digits: u8, octets: &[u8]) -> (Item, usize)
    requires { IsTrue (ItemFits (Item.Number value digits)) }
    ensures within { result.1 ≤ length octets.now }
    ensures run { LeadsTo responses (Sym.Item (Item.Number value digits)) (take result.1 octets.now) (Sym.Item result.0) }
{
    let mut so_far = value;
    let mut length = digits;
    for (i, c) in octets.iter().enumerate() {
        let Move::One(Sym::Item(Item::Number(v, d))) = number_rule(so_far, length, *c as u16) else {
            return (Item::Number(so_far, length), i);
        };
        so_far = v;
        length = d;
    }
    (Item::Number(so_far, length), octets.len())
}

/// How many octets at the front go on with a long number, and what it is then.
fn long_run(value: u64, digits: u8, octets: &[u8]) -> (Item, usize)
    requires { IsTrue (ItemFits (Item.Long value digits)) }
    ensures within { result.1 ≤ length octets.now }
    ensures run { LeadsTo responses (Sym.Item (Item.Long value digits)) (take result.1 octets.now) (Sym.Item result.0) }
{
    let mut so_far = value;
    let mut length = digits;
    for (i, c) in octets.iter().enumerate() {
        let Move::One(Sym::Item(Item::Long(v, d))) = long_rule(so_far, length, *c as u16) else {
            return (Item::Long(so_far, length), i);
        };
        so_far = v;
        length = d;
    }
    (Item::Long(so_far, length), octets.len())
}

/// How many octets at the front go on with a message's number, and what it is then.
fn sequence_run(value: u32, digits: u8, octets: &[u8]) -> (Line, usize)
    requires { IsTrue (LineFits (Line.Sequence value digits)) }
    ensures within { result.1 ≤ length octets.now }
    ensures run { LeadsTo responses (Sym.Line (Line.Sequence value digits)) (take result.1 octets.now) (Sym.Line result.0) }
{
    let mut so_far = value;
    let mut length = digits;
    for (i, c) in octets.iter().enumerate() {
        let Move::One(Sym::Line(Line::Sequence(v, d))) = sequence_rule(so_far, length, *c as u16)
        else {
            return (Line::Sequence(so_far, length), i);
        };
        so_far = v;
        length = d;
    }
    (Line::Sequence(so_far, length), octets.len())
}

/// How many octets at the front go on with an atom.
fn atom_run(octets: &[u8]) -> usize
    ensures within { result ≤ length octets.now }
    ensures run { LeadsTo responses (Sym.Names Names.AtomRest) (take result octets.now) (Sym.Names Names.AtomRest) }
{
    for (i, c) in octets.iter().enumerate() {
        if !is_atom(*c as u16) {
            return i;
        }
    }
    octets.len()
}

/// How many octets at the front go on with a line's text.
fn text_run(octets: &[u8]) -> usize
    ensures within { result ≤ length octets.now }
    ensures run { LeadsTo responses (Sym.Line Line.Text) (take result octets.now) (Sym.Line Line.Text) }
{
    for (i, c) in octets.iter().enumerate() {
        if !is_text(*c as u16) {
            return i;
        }
    }
    octets.len()
}

/// A run of octets at the front that the symbol takes: what the symbol is then, and how many they are.
#[tactic(auto, using(imap_keywords::proofs::KeyLemmas::keys_short))]
pub fn run_of(symbol: Sym, octets: &[u8]) -> (Sym, usize)
    requires { IsTrue (SymFits symbol) }
    ensures within { result.1 ≤ length octets.now }
    ensures run { LeadsTo responses symbol (take result.1 octets.now) result.0 }
{
    match symbol {
        Sym::Word(place, key, at) => {
            let count = word_run(place, key, at, octets);
            (Sym::Word(place, key, at + count as u8), count)
        }
        Sym::Item(Item::Number(value, digits)) => {
            let (item, count) = number_run(value, digits, octets);
            (Sym::Item(item), count)
        }
        Sym::Item(Item::Long(value, digits)) => {
            let (item, count) = long_run(value, digits, octets);
            (Sym::Item(item), count)
        }
        Sym::Line(Line::Sequence(value, digits)) => {
            let (line, count) = sequence_run(value, digits, octets);
            (Sym::Line(line), count)
        }
        Sym::Line(Line::Text) => (symbol, text_run(octets)),
        Sym::Names(Names::AtomRest) => (symbol, atom_run(octets)),
        _ => (symbol, 0),
    }
}
