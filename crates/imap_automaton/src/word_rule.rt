// Words by which a reader decides.
ghost use Rattle.std.specs.Prelude.{◌≡◌, ◌≤◌, ◌<◌, IsTrue, length, take, bytes_eq, find, nat_le};
ghost use Rattle.imap_keywords.specs.Keys as keywords;
ghost use Rattle.imap_automaton.specs.WordRules as rules;
ghost use Rattle.imap_automaton.specs.ItemNameRules as names;

use crate::date_rule::time_rule;
use crate::free_rule::text_rule;
use crate::item_name_rule::{item_name_rule, next_name};
use crate::set_rule::words_more;
use crate::sym::{Date, Folder, Item, ItemName, Line, Names, Set, Str, Sym};
use imap_keywords::{
    CR, Key, Pending, Phrase, WordPlace, in_word, key_text, lower, next_key, whole_key,
};
use pushdown::Move;

fn rest_rule(c: u16) -> Move<Sym>
    ensures { result ≡ rules.rest_rule c }
{
    if c == b' ' as u16 {
        Move::One(Sym::Line(Line::Text))
    } else if c == CR {
        Move::One(Sym::Line(Line::Fixed(Phrase::Crlf, 1)))
    } else {
        Move::Fail
    }
}

fn spaced_rule(next: Sym, c: u16) -> Move<Sym>
    ensures { result ≡ rules.spaced_rule (Move.One next) c }
{
    if c == b' ' as u16 {
        Move::One(next)
    } else {
        Move::Fail
    }
}

/// A space, and then two symbols.
fn spaced_pair_rule(next: Sym, later: Sym, c: u16) -> Move<Sym>
    ensures { result ≡ rules.spaced_rule (Move.Two next later) c }
{
    if c == b' ' as u16 {
        Move::Two(next, later)
    } else {
        Move::Fail
    }
}

fn end_rule(c: u16) -> Move<Sym>
    ensures { result ≡ rules.end_rule c }
{
    if c == CR {
        Move::One(Sym::Line(Line::Fixed(Phrase::Crlf, 1)))
    } else {
        Move::Fail
    }
}

fn flags_rule(c: u16) -> Move<Sym>
    ensures { result ≡ rules.behind_key WordPlace.Plain Key.Flags c }
{
    spaced_pair_rule(
        Sym::Names(Names::Open),
        Sym::Line(Line::Fixed(Phrase::Crlf, 0)),
        c,
    )
}

fn list_rule(c: u16) -> Move<Sym>
    ensures { result ≡ rules.behind_key WordPlace.Plain Key.List c }
{
    spaced_pair_rule(Sym::Names(Names::Open), Sym::Folder(Folder::Attributes), c)
}

fn status_rule(c: u16) -> Move<Sym>
    ensures { result ≡ rules.behind_key WordPlace.Plain Key.Status c }
{
    spaced_pair_rule(Sym::Str(Str::AString), Sym::Folder(Folder::Counts), c)
}

/// After a word that is a key.
fn behind_key(place: WordPlace, key: Key, c: u16) -> Move<Sym>
    ensures { result ≡ rules.behind_key place key c }
{
    match (place, key) {
        (WordPlace::Tagged, Key::Ok | Key::No | Key::Bad) => rest_rule(c),
        (WordPlace::Plain, Key::Ok | Key::No | Key::Bad | Key::Preauth | Key::Bye) => rest_rule(c),
        (WordPlace::Plain, Key::Capability | Key::Enabled) => words_more(c),
        (WordPlace::Plain, Key::Flags) => flags_rule(c),
        (WordPlace::Plain, Key::Vanished) => spaced_rule(Sym::Set(Set::Open), c),
        (WordPlace::Plain, Key::List) => list_rule(c),
        (WordPlace::Plain, Key::Status) => status_rule(c),
        (WordPlace::Numbered, Key::Exists | Key::Expunge) => end_rule(c),
        (WordPlace::Numbered, Key::Fetch) => spaced_rule(Sym::Item(Item::Open), c),
        (WordPlace::Item, Key::Uid) => spaced_rule(Sym::Item(Item::Number(0, 0)), c),
        (WordPlace::Item, Key::Flags) => spaced_rule(Sym::Names(Names::Open), c),
        (WordPlace::Item, Key::ModSeq) => spaced_rule(Sym::Item(Item::LongOpen), c),
        (WordPlace::Item, Key::InternalDate) => spaced_rule(Sym::Date(Date::Open), c),
        (WordPlace::Month, _) => time_rule(0, c),
        (WordPlace::Item, Key::Size) => spaced_rule(Sym::Item(Item::Long(0, 0)), c),
        (WordPlace::Item, Key::Header | Key::HeaderPart | Key::Body | Key::BodyPart) => {
            spaced_rule(Sym::Str(Str::NString), c)
        }
        _ => Move::Fail,
    }
}

/// The name that begins as the key does.
fn name_of(key: Key, at: u8) -> ItemName
    requires { at ≤ length (keywords.key_text key) }
    ensures { result ≡ names.name_from ItemName.Plain (take at (keywords.key_text key)) }
{
    let (front, _) = key_text(key).split_at(at as usize);
    let mut name = ItemName::Plain;
    for octet in front {
        name = next_name(name, *octet as u16);
    }
    name
}

/// At a word that is no key, after octets that are the first n of the key's.
fn stray(place: WordPlace, key: Key, at: u8, c: u16) -> Move<Sym>
    requires { at ≤ length (keywords.key_text key) }
    ensures { result ≡ rules.stray place key at c }
{
    match place {
        WordPlace::Plain => text_rule(Pending::Nothing, c),
        WordPlace::Numbered => text_rule(Pending::Nothing, c),
        WordPlace::Item => item_name_rule(name_of(key, at), c),
        _ => Move::Fail,
    }
}

fn word_goes(place: WordPlace, key: Key, at: u8, c: u16, next: Option<Key>) -> Move<Sym>
    requires within { at ≤ length (keywords.key_text key) }
    requires most { at < 255 }
    ensures { result ≡ rules.word_goes place key at c next }
{
    match next {
        Some(key) => Move::One(Sym::Word(place, key, at + 1)),
        None => stray(place, key, at, c),
    }
}

fn word_ends(place: WordPlace, key: Key, at: u8, c: u16, whole: Option<Key>) -> Move<Sym>
    requires { at ≤ length (keywords.key_text key) }
    ensures { result ≡ rules.word_ends place key at c whole }
{
    match whole {
        Some(key) => behind_key(place, key, c),
        None => stray(place, key, at, c),
    }
}

/// Words by which a reader decides: what an octet does.
#[inline(never)]
pub fn word_rule(place: WordPlace, key: Key, at: u8, c: u16) -> Move<Sym>
    requires { IsTrue (nat_le at (length (keywords.key_text key))) }
    ensures { result ≡ rules.word_rule place key at c }
{
    if in_word(place, c) {
        word_goes(place, key, at, c, next_key(place, key, at, lower(c)))
    } else if at == 0 {
        Move::Fail
    } else {
        word_ends(place, key, at, c, whole_key(place, key, at))
    }
}
