// The elements of an address list, cut at its commas.
ghost use Rattle.std.specs.Prelude.{◌≡◌, ◌+◌, None, Some, List, MatchOption, IfOk, IfSome, IfNone};
ghost use Rattle.text_words.specs.Sequence.{Sequence};
ghost use Rattle.header_addresses.specs.AddressLists as lists;
ghost use Rattle.header_addresses.specs.reading.ElementReading as reading;
ghost use Rattle.header_addresses.specs.reading.ElementView.{mailbox_view, element_view, elements_view};
ghost use Rattle.header_tokens.specs.TokenView.{token_view, tokens_view};

use crate::mailboxes::{behind_route, is_addr_spec, is_display_name, is_inner, is_phrase};
use crate::token_class::{
    Gap, NoComma, NoGreater, NoSeparator, Plain, TokenClass, are_tokens, cut_tokens,
};
use header_tokens::{Token, has_mark};
use std::alloc::{AllocError, Global};

/// A mailbox: its phrase, which may be empty, its addr-spec, and what a comment's name is taken of.
#[derive(Clone, Copy)]
pub(crate) struct Mailbox<'a, 'b> {
    pub(crate) phrase: &'b [Token<'a>],
    pub(crate) spec: &'b [Token<'a>],
    pub(crate) behind: &'b [Token<'a>],
}

/// An element of a list of addresses.
#[derive(Clone, Copy)]
pub(crate) enum Element<'a, 'b> {
    /// A comma, or gaps alone.
    Empty,
    /// A group's phrase, with the colon after it.
    Head(&'b [Token<'a>]),
    /// The semicolon that ends a group.
    End,
    /// A mailbox, in a group or outside one.
    Member(Mailbox<'a, 'b>),
}

/// Whether nothing, or a token outside the class, is at the front.
fn stops<C: TokenClass>(class: &C, tokens: &[Token<'_>]) -> bool
    ensures { result ≡ reading.stops C.test (tokens_view tokens.now) }
{
    match tokens {
        [] => true,
        [first, _rest @ ..] => !class.has_token(first),
    }
}

/// A mailbox without angle brackets, or an empty place.
fn bare<'a, 'b>(plain: &'b [Token<'a>]) -> Option<(Element<'a, 'b>, usize)>
    ensures { MatchOption result (reading.bare_of (tokens_view plain.now) ≡ None) (λ r. reading.bare_of (tokens_view plain.now) ≡ Some (element_view r.0, r.1)) }
{
    match plain {
        [] => None,
        [_first, _rest @ ..] => some_bare(plain),
    }
}

fn some_bare<'a, 'b>(plain: &'b [Token<'a>]) -> Option<(Element<'a, 'b>, usize)>
    ensures { MatchOption result (reading.some_bare (tokens_view plain.now) ≡ None) (λ r. reading.some_bare (tokens_view plain.now) ≡ Some (element_view r.0, r.1)) }
{
    if are_tokens(&Gap, plain) {
        Some((Element::Empty, plain.len()))
    } else if is_addr_spec(plain) {
        Some((Element::Member(bare_mailbox(plain)), plain.len()))
    } else {
        None
    }
}

fn bare_mailbox<'a, 'b>(spec: &'b [Token<'a>]) -> Mailbox<'a, 'b>
    ensures { mailbox_view result ≡ reading.bare (tokens_view spec.now) }
{
    let (phrase, _) = spec.split_at(0);
    Mailbox {
        phrase,
        spec,
        behind: spec,
    }
}

/// The phrase of a group, where a colon follows it.
fn head<'a, 'b>(plain: &'b [Token<'a>]) -> Option<(Element<'a, 'b>, usize)>
    ensures { MatchOption result (reading.head_of (tokens_view plain.now) ≡ None) (λ r. reading.head_of (tokens_view plain.now) ≡ Some (element_view r.0, r.1)) }
{
    if is_phrase(plain) {
        Some((Element::Head(plain), plain.len() + 1))
    } else {
        None
    }
}

/// The end of a group, where this follows the semicolon.
fn end<'a, 'b>(more: &'b [Token<'a>]) -> Option<(Element<'a, 'b>, usize)>
    ensures { MatchOption result (reading.element_end (tokens_view more.now) ≡ None) (λ r. reading.element_end (tokens_view more.now) ≡ Some (element_view r.0, r.1)) }
{
    let (gaps, rest) = cut_tokens(&Gap, more);
    if stops(&NoComma, rest) {
        Some((Element::End, 1 + gaps.len()))
    } else {
        None
    }
}

/// A mailbox in angle brackets, where `more` follows the closing one.
fn angle<'a, 'b>(
    phrase: &'b [Token<'a>],
    inner: &'b [Token<'a>],
    more: &'b [Token<'a>],
) -> Option<(Element<'a, 'b>, usize)>
    ensures { MatchOption result (reading.angle_of (tokens_view phrase.now) (tokens_view inner.now) (tokens_view more.now) ≡ None) (λ r. reading.angle_of (tokens_view phrase.now) (tokens_view inner.now) (tokens_view more.now) ≡ Some (element_view r.0, r.1)) }
{
    let (gaps, rest) = cut_tokens(&Gap, more);
    if !is_display_name(phrase) {
        return None;
    }
    if !is_inner(inner) {
        return None;
    }
    if !stops(&NoSeparator, rest) {
        return None;
    }
    let mailbox = Mailbox {
        phrase,
        spec: behind_route(inner),
        behind: gaps,
    };
    Some((
        Element::Member(mailbox),
        phrase.len() + 1 + inner.len() + 1 + gaps.len(),
    ))
}

/// A mailbox in angle brackets, where `more` follows the opening one.
fn opened<'a, 'b>(
    phrase: &'b [Token<'a>],
    more: &'b [Token<'a>],
) -> Option<(Element<'a, 'b>, usize)>
    ensures { MatchOption result (reading.opened_of (tokens_view phrase.now) (tokens_view more.now) ≡ None) (λ r. reading.opened_of (tokens_view phrase.now) (tokens_view more.now) ≡ Some (element_view r.0, r.1)) }
{
    let (inner, rest) = cut_tokens(&NoGreater, more);
    match rest {
        [] => None,
        [_greater, more @ ..] => angle(phrase, inner, more),
    }
}

/// A comma, or the end of a group.
fn separator<'a, 'b>(mark: &Token<'a>, more: &'b [Token<'a>]) -> Option<(Element<'a, 'b>, usize)>
    ensures { MatchOption result (reading.separator_of (token_view mark.now) (tokens_view more.now) ≡ None) (λ r. reading.separator_of (token_view mark.now) (tokens_view more.now) ≡ Some (element_view r.0, r.1)) }
{
    if has_mark(b',', mark) {
        Some((Element::Empty, 1))
    } else if has_mark(b';', mark) {
        end(more)
    } else {
        None
    }
}

/// An element that has plain tokens or a bracket, where `mark` follows the plain tokens.
fn marked<'a, 'b>(
    plain: &'b [Token<'a>],
    mark: &Token<'a>,
    more: &'b [Token<'a>],
) -> Option<(Element<'a, 'b>, usize)>
    ensures { MatchOption result (reading.marked_of (tokens_view plain.now) (token_view mark.now) (tokens_view more.now) ≡ None) (λ r. reading.marked_of (tokens_view plain.now) (token_view mark.now) (tokens_view more.now) ≡ Some (element_view r.0, r.1)) }
{
    if has_mark(b':', mark) {
        head(plain)
    } else if has_mark(b'<', mark) {
        opened(plain, more)
    } else if has_mark(b'>', mark) {
        None
    } else if plain.is_empty() {
        separator(mark, more)
    } else {
        bare(plain)
    }
}

/// The element at the front, and how many tokens it has.
fn element_at<'a, 'b>(tokens: &'b [Token<'a>]) -> Option<(Element<'a, 'b>, usize)>
    ensures { MatchOption result (reading.element_in (tokens_view tokens.now) ≡ None) (λ r. reading.element_in (tokens_view tokens.now) ≡ Some (element_view r.0, r.1)) }
{
    let (plain, rest) = cut_tokens(&Plain, tokens);
    match rest {
        [] => bare(plain),
        [mark, more @ ..] => marked(plain, mark, more),
    }
}

/// Whether the element is no empty place.
fn is_filled(element: &Element<'_, '_>) -> bool
    ensures { result ≡ reading.is_filled (element_view element.now) }
{
    match element {
        Element::Empty => false,
        Element::Head(_) | Element::End | Element::Member(_) => true,
    }
}

/// Adds the element at the front, if there is one, unless it is an empty place. Gives how many tokens it has.
fn push_element<'a, 'b>(
    found: &mut Vec<Element<'a, 'b>>,
    tokens: &'b [Token<'a>],
) -> Result<Option<usize>, AllocError>
    ensures { IfOk result (λ r. reading.Pushes (reading.element_in (tokens_view tokens.now)) (elements_view found.old.items) (elements_view found.new.items) r) }
{
    match element_at(tokens) {
        None => Ok(None),
        Some((element, len)) => {
            if is_filled(&element) {
                found.push(element)?;
            }
            Ok(Some(len))
        }
    }
}

/// The elements of a list of addresses without the empty places, where the tokens are a row of elements.
pub(crate) fn elements<'a, 'b>(
    alloc: Global,
    tokens: &'b [Token<'a>],
) -> Result<Option<Vec<Element<'a, 'b>>>, AllocError>
    ensures some { IfOk result (λ r. IfSome r (λ v. reading.AreFilled (elements_view v.items) (tokens_view tokens.now))) }
    ensures none { IfOk result (λ r. IfNone r ((es : List lists.Element) → Sequence lists.IsElement es (tokens_view tokens.now) → ⊥)) }
{
    let mut found = Vec::new(alloc);
    let mut at = 0;
    while at < tokens.len() {
        let (_, rest) = tokens.split_at(at);
        match push_element(&mut found, rest)? {
            None => return Ok(None),
            Some(len) => at += len,
        }
    }
    Ok(Some(found))
}
