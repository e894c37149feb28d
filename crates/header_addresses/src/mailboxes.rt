// Mailboxes and their parts (RFC 5322 section 3.4).
ghost use Rattle.std.specs.Prelude.{◌≡◌, false, true, []};
ghost use Rattle.std.specs.List.{list_any};
ghost use Rattle.header_tokens.specs.Kinds as kinds;
ghost use Rattle.header_addresses.specs.Mailboxes as mailboxes;
ghost use Rattle.header_addresses.specs.reading.ElementReading as reading;
ghost use Rattle.header_tokens.specs.TokenView.{token_view, tokens_view};

use crate::token_class::{
    Atom, Gap, NoAt, NoColon, NoComma, PhrasePart, TokenClass, Word, are_tokens, cut_tokens,
    is_literal,
};
use header_tokens::{Token, has_mark, is_gap, is_word};

/// word *(word / "." / CFWS), where each may stand after gaps (RFC 5322 section 4.1).
pub(crate) fn is_phrase(tokens: &[Token<'_>]) -> bool
    ensures { result ≡ mailboxes.is_phrase (tokens_view tokens.now) }
{
    let (_, words) = cut_tokens(&Gap, tokens);
    begins_phrase(words)
}

fn begins_phrase(words: &[Token<'_>]) -> bool
    ensures { result ≡ mailboxes.begins_phrase (tokens_view words.now) }
{
    match words {
        [] => false,
        [word, rest @ ..] => is_word(word) && are_tokens(&PhrasePart, rest),
    }
}

/// A phrase, or gaps alone.
pub(crate) fn is_display_name(tokens: &[Token<'_>]) -> bool
    ensures { result ≡ mailboxes.is_display_name (tokens_view tokens.now) }
{
    are_tokens(&Gap, tokens) || is_phrase(tokens)
}

/// A word of the class, and more of them, each after a dot.
fn is_dotted<C: TokenClass>(class: &C, tokens: &[Token<'_>]) -> bool
    ensures { result ≡ mailboxes.is_dotted C.test true (tokens_view tokens.now) }
{
    let mut due = true;
    for token in tokens {
        if !is_gap(token) {
            if !comes_in_turn(class, due, token) {
                return false;
            }
            due = !due;
        }
    }
    !due
}

/// Whether the token is a word of the class, where one is due, or else a dot.
fn comes_in_turn<C: TokenClass>(class: &C, due: bool, token: &Token<'_>) -> bool
    ensures { result ≡ reading.comes_in_turn C.test due (token_view token.now) }
{
    if due {
        class.has_token(token)
    } else {
        has_mark(b'.', token)
    }
}

fn has_word(tokens: &[Token<'_>]) -> bool
    ensures { result ≡ list_any kinds.is_word (tokens_view tokens.now) }
{
    for token in tokens {
        if is_word(token) {
            return true;
        }
    }
    false
}

/// Words, dots and gaps, with a dot or more between two words.
fn are_apart(tokens: &[Token<'_>]) -> bool
    ensures { result ≡ mailboxes.are_apart false (tokens_view tokens.now) }
{
    let mut behind_word = false;
    for token in tokens {
        if !is_gap(token) {
            if !stands_apart(behind_word, token) {
                return false;
            }
            behind_word = !has_mark(b'.', token);
        }
    }
    true
}

/// A dot, or a word that no word stands directly before.
fn stands_apart(behind_word: bool, token: &Token<'_>) -> bool
    ensures { result ≡ reading.stands_apart behind_word (token_view token.now) }
{
    has_mark(b'.', token) || (is_word(token) && !behind_word)
}

/// A local part before an `@`, where dots may stand side by side and at the ends.
fn is_wide_local_part(tokens: &[Token<'_>]) -> bool
    ensures { result ≡ mailboxes.is_wide_local_part (tokens_view tokens.now) }
{
    has_word(tokens) && are_apart(tokens)
}

/// A domain literal, with gaps after it.
fn begins_literal(tokens: &[Token<'_>]) -> bool
    ensures { result ≡ mailboxes.begins_literal (tokens_view tokens.now) }
{
    match tokens {
        [] => false,
        [literal, rest @ ..] => is_literal(literal) && are_tokens(&Gap, rest),
    }
}

/// atom *("." atom), or a domain literal (RFC 5322 section 4.4).
fn is_domain(tokens: &[Token<'_>]) -> bool
    ensures { result ≡ mailboxes.is_domain (tokens_view tokens.now) }
{
    let (_, lexemes) = cut_tokens(&Gap, tokens);
    is_dotted(&Atom, tokens) || begins_literal(lexemes)
}

/// local-part ["@" domain], where a local part before an `@` may have more dots than RFC 5322 allows.
pub(crate) fn is_addr_spec(tokens: &[Token<'_>]) -> bool
    ensures { result ≡ mailboxes.is_addr_spec (tokens_view tokens.now) }
{
    let (local, rest) = cut_tokens(&NoAt, tokens);
    match rest {
        [] => is_dotted(&Word, local),
        [_at, domain @ ..] => is_wide_local_part(local) && is_domain(domain),
    }
}

fn begins_hop(tokens: &[Token<'_>]) -> bool
    ensures { result ≡ mailboxes.begins_hop (tokens_view tokens.now) }
{
    match tokens {
        [] => true,
        [at, domain @ ..] => has_mark(b'@', at) && is_domain(domain),
    }
}

/// "@" domain, or nothing.
fn is_hop(tokens: &[Token<'_>]) -> bool
    ensures { result ≡ mailboxes.is_hop (tokens_view tokens.now) }
{
    let (_, hop) = cut_tokens(&Gap, tokens);
    begins_hop(hop)
}

/// Hops with commas between them.
fn are_hops(tokens: &[Token<'_>]) -> bool
    ensures { result ≡ mailboxes.are_hops [] (tokens_view tokens.now) }
{
    let (hop, behind) = cut_tokens(&NoComma, tokens);
    if !is_hop(hop) {
        return false;
    }
    let mut rest = behind;
    while let [_comma, more @ ..] = rest {
        let (hop, behind) = cut_tokens(&NoComma, more);
        if !is_hop(hop) {
            return false;
        }
        rest = behind;
    }
    true
}

fn has_at(tokens: &[Token<'_>]) -> bool
    ensures { result ≡ list_any (kinds.has_mark 64) (tokens_view tokens.now) }
{
    for token in tokens {
        if has_mark(b'@', token) {
            return true;
        }
    }
    false
}

/// Hops with commas between them, of which one at least isn't empty (RFC 5322 section 4.4).
fn is_route(tokens: &[Token<'_>]) -> bool
    ensures { result ≡ mailboxes.is_route (tokens_view tokens.now) }
{
    has_at(tokens) && are_hops(tokens)
}

/// [route ":"] addr-spec
pub(crate) fn is_inner(tokens: &[Token<'_>]) -> bool
    ensures { result ≡ mailboxes.is_inner_token (tokens_view tokens.now) }
{
    let (route, rest) = cut_tokens(&NoColon, tokens);
    match rest {
        [] => is_addr_spec(route),
        [_colon, spec @ ..] => is_route(route) && is_addr_spec(spec),
    }
}

/// The addr-spec of what stands in angle brackets.
pub(crate) fn behind_route<'a, 'b>(tokens: &'b [Token<'a>]) -> &'b [Token<'a>]
    ensures { tokens_view result.now ≡ mailboxes.behind_route (tokens_view tokens.now) }
{
    let (route, rest) = cut_tokens(&NoColon, tokens);
    match rest {
        [] => route,
        [_colon, spec @ ..] => spec,
    }
}
