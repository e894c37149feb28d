// LIST and STATUS, after the first of their parts.
ghost use Rattle.std.specs.Prelude.{◌≡◌};
ghost use Rattle.imap_automaton.specs.FolderRules as rules;

use crate::sym::{Folder, Item, Line, Str, Sym, Value};
use imap_keywords::{CR, Phrase, is_status_word, is_text, lower};
use pushdown::Move;

/// The line's end, from its CR on.
const LINE_END: Sym = Sym::Line(Line::Fixed(Phrase::Crlf, 0));

/// The quote that ends a delimiter.
const QUOTE: Sym = Sym::Line(Line::Fixed(Phrase::Quote, 0));

fn attributes_rule(c: u16) -> Move<Sym>
    ensures { result ≡ rules.folder_rule Folder.Attributes c }
{
    if c == b' ' as u16 {
        Move::Two(Sym::Folder(Folder::Delimiter), Sym::Folder(Folder::Name))
    } else {
        Move::Fail
    }
}

fn delimiter_rule(c: u16) -> Move<Sym>
    ensures { result ≡ rules.folder_rule Folder.Delimiter c }
{
    if c == b'"' as u16 {
        Move::One(Sym::Folder(Folder::DelimiterOctet))
    } else if lower(c) == b'n' as u16 {
        Move::One(Sym::Line(Line::Folded(Phrase::Nil, 1)))
    } else {
        Move::Fail
    }
}

fn delimiter_octet_rule(c: u16) -> Move<Sym>
    ensures { result ≡ rules.folder_rule Folder.DelimiterOctet c }
{
    if c == b'"' as u16 {
        Move::Fail
    } else if c == b'\\' as u16 {
        Move::One(Sym::Folder(Folder::DelimiterEscaped))
    } else if is_text(c) {
        Move::One(QUOTE)
    } else {
        Move::Fail
    }
}

fn delimiter_escaped_rule(c: u16) -> Move<Sym>
    ensures { result ≡ rules.folder_rule Folder.DelimiterEscaped c }
{
    if c == b'"' as u16 || c == b'\\' as u16 {
        Move::One(QUOTE)
    } else {
        Move::Fail
    }
}

fn name_rule(c: u16) -> Move<Sym>
    ensures { result ≡ rules.folder_rule Folder.Name c }
{
    if c == b' ' as u16 {
        Move::Two(Sym::Str(Str::AString), Sym::Folder(Folder::ListEnd))
    } else {
        Move::Fail
    }
}

fn list_end_rule(c: u16) -> Move<Sym>
    ensures { result ≡ rules.folder_rule Folder.ListEnd c }
{
    if c == b' ' as u16 {
        Move::Two(Sym::Value(Value::Start), LINE_END)
    } else if c == CR {
        Move::One(Sym::Line(Line::Fixed(Phrase::Crlf, 1)))
    } else {
        Move::Fail
    }
}

fn first_count_rule(c: u16) -> Move<Sym>
    ensures { result ≡ rules.folder_rule Folder.FirstCount c }
{
    if c == b')' as u16 {
        Move::One(LINE_END)
    } else {
        count_rule(c)
    }
}

fn count_rule(c: u16) -> Move<Sym>
    ensures { result ≡ rules.folder_rule Folder.Count c }
{
    if is_status_word(c) {
        Move::One(Sym::Folder(Folder::CountWord))
    } else {
        Move::Fail
    }
}

fn count_word_rule(c: u16) -> Move<Sym>
    ensures { result ≡ rules.folder_rule Folder.CountWord c }
{
    if is_status_word(c) {
        Move::One(Sym::Folder(Folder::CountWord))
    } else if c == b' ' as u16 {
        Move::Two(Sym::Item(Item::Long(0, 0)), Sym::Folder(Folder::MoreCounts))
    } else {
        Move::Fail
    }
}

fn more_counts_rule(c: u16) -> Move<Sym>
    ensures { result ≡ rules.folder_rule Folder.MoreCounts c }
{
    if c == b' ' as u16 {
        Move::One(Sym::Folder(Folder::Count))
    } else if c == b')' as u16 {
        Move::One(LINE_END)
    } else {
        Move::Fail
    }
}

/// One octet, and then a symbol.
fn octet_rule(octet: u8, next: Folder, c: u16) -> Move<Sym>
    ensures { result ≡ rules.octet_rule octet next c }
{
    if c == octet as u16 {
        Move::One(Sym::Folder(next))
    } else {
        Move::Fail
    }
}

/// LIST and STATUS: what an octet does.
#[inline(never)]
pub fn folder_rule(folder: &Folder, c: u16) -> Move<Sym>
    ensures { result ≡ rules.folder_rule folder.now c }
{
    match folder {
        Folder::Attributes => attributes_rule(c),
        Folder::Delimiter => delimiter_rule(c),
        Folder::DelimiterOctet => delimiter_octet_rule(c),
        Folder::DelimiterEscaped => delimiter_escaped_rule(c),
        Folder::Name => name_rule(c),
        Folder::ListEnd => list_end_rule(c),
        Folder::Counts => octet_rule(b' ', Folder::CountsOpen, c),
        Folder::CountsOpen => octet_rule(b'(', Folder::FirstCount, c),
        Folder::FirstCount => first_count_rule(c),
        Folder::Count => count_rule(c),
        Folder::CountWord => count_word_rule(c),
        Folder::MoreCounts => more_counts_rule(c),
    }
}
