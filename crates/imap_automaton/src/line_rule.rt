// Lines.
ghost use Rattle.std.specs.Prelude.{◌≡◌, IsTrue, length};
ghost use Rattle.imap_keywords.specs.Keys as keywords;
ghost use Rattle.imap_automaton.specs.LineRules as rules;
ghost use Rattle.imap_automaton.specs.Fits.{LineFits};

use crate::free_rule::text_rule;
use crate::item_rule::NUMBER_DIGITS;
use crate::sym::{Line, Sym};
use crate::word_rule::word_rule;
use imap_keywords::{
    CR, Pending, Phrase, WordPlace, first_key, is_alnum, is_digit, is_text, lower, phrase_text,
};
use pushdown::Move;

/// Octets of a tag.
const MAX_TAG_OCTETS: u8 = 32;

fn word_start(place: WordPlace) -> Sym
    ensures { result ≡ rules.word_start place }
{
    Sym::Word(place, first_key(place), 0)
}

fn start_rule(c: u16) -> Move<Sym>
    ensures { result ≡ rules.line_rule Line.Start c }
{
    if c == b'*' as u16 {
        Move::Two(
            Sym::Line(Line::Fixed(Phrase::Space, 0)),
            Sym::Line(Line::Untagged),
        )
    } else if c == b'+' as u16 {
        Move::One(Sym::Line(Line::Text))
    } else if is_alnum(c) {
        Move::One(Sym::Line(Line::Tag(1)))
    } else {
        Move::Fail
    }
}

fn tag_rule(n: u8, c: u16) -> Move<Sym>
    ensures { result ≡ rules.line_rule (Line.Tag n) c }
{
    if c == b' ' as u16 {
        Move::One(word_start(WordPlace::Tagged))
    } else if is_alnum(c) && n < MAX_TAG_OCTETS {
        Move::One(Sym::Line(Line::Tag(n + 1)))
    } else {
        Move::Fail
    }
}

fn untagged_rule(c: u16) -> Move<Sym>
    ensures { result ≡ rules.line_rule Line.Untagged c }
{
    if is_digit(c) {
        Move::One(Sym::Line(Line::Sequence((c - b'0' as u16) as u32, 1)))
    } else {
        word_rule(WordPlace::Plain, first_key(WordPlace::Plain), 0, c)
    }
}

/// The number that a line begins with, of which these digits came: what an octet does.
pub fn sequence_rule(value: u32, digits: u8, c: u16) -> Move<Sym>
    ensures { result ≡ rules.sequence_rule value digits c }
{
    if is_digit(c)
        && digits < NUMBER_DIGITS
        && 10 * value as u64 + (c - b'0' as u16) as u64 <= u32::MAX as u64
    {
        Move::One(Sym::Line(Line::Sequence(10 * value + (c - b'0' as u16) as u32, digits + 1)))
    } else if c == b' ' as u16 {
        Move::One(word_start(WordPlace::Numbered))
    } else {
        text_rule(Pending::Nothing, c)
    }
}

fn text_line_rule(c: u16) -> Move<Sym>
    ensures { result ≡ rules.line_rule Line.Text c }
{
    if c == CR {
        Move::One(Sym::Line(Line::Fixed(Phrase::Crlf, 1)))
    } else if is_text(c) {
        Move::One(Sym::Line(Line::Text))
    } else {
        Move::Fail
    }
}

fn fixed_rule(phrase: Phrase, at: u8, c: u16) -> Move<Sym>
    requires { IsTrue (LineFits (Line.Fixed phrase at)) }
    ensures { result ≡ rules.fixed_rule phrase at c }
{
    let text = phrase_text(phrase);
    let place = at as usize;
    if place < text.len() && c == text[place] as u16 {
        if place + 1 == text.len() {
            Move::End
        } else {
            Move::One(Sym::Line(Line::Fixed(phrase, at + 1)))
        }
    } else {
        Move::Fail
    }
}

fn folded_rule(phrase: Phrase, at: u8, c: u16) -> Move<Sym>
    requires { IsTrue (LineFits (Line.Folded phrase at)) }
    ensures { result ≡ rules.folded_rule phrase at c }
{
    let text = phrase_text(phrase);
    let place = at as usize;
    if place < text.len() && lower(c) == text[place] as u16 {
        if place + 1 == text.len() {
            Move::End
        } else {
            Move::One(Sym::Line(Line::Folded(phrase, at + 1)))
        }
    } else {
        Move::Fail
    }
}

/// Lines: what an octet does.
#[inline(never)]
pub fn line_rule(line: &Line, c: u16) -> Move<Sym>
    requires { IsTrue (LineFits line.now) }
    ensures { result ≡ rules.line_rule line.now c }
{
    match line {
        Line::Start => start_rule(c),
        Line::Tag(n) => tag_rule(*n, c),
        Line::Untagged => untagged_rule(c),
        Line::Sequence(value, digits) => sequence_rule(*value, *digits, c),
        Line::Text => text_line_rule(c),
        Line::Fixed(phrase, at) => fixed_rule(*phrase, *at, c),
        Line::Folded(phrase, at) => folded_rule(*phrase, *at, c),
    }
}
