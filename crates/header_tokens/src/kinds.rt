// What a token is.
ghost use Rattle.std.specs.Prelude.{◌≡◌};
ghost use Rattle.header_tokens.specs.Kinds as kinds;
ghost use Rattle.header_tokens.specs.TokenView.{token_view};

use crate::token::{Kind, Token};

/// The octet of a mark, and 0 for any other token.
fn mark_of(token: &Token<'_>) -> u8
    ensures { result ≡ kinds.mark_of (token_view token.now) }
{
    match token.kind {
        Kind::Mark => first_octet(token.text),
        Kind::Space | Kind::Quoted | Kind::Literal | Kind::Comment | Kind::Atom => 0,
    }
}

/// The first octet; 0 where there is none.
pub fn first_octet(text: &[u8]) -> u8
    ensures { result ≡ kinds.first_octet text.now }
{
    match text {
        [] => 0,
        [first, _rest @ ..] => *first,
    }
}

/// Whether the token is this mark.
pub fn has_mark(mark: u8, token: &Token<'_>) -> bool
    ensures { result ≡ kinds.has_mark mark (token_view token.now) }
{
    mark_of(token) == mark
}

/// White space or a comment.
pub fn is_gap(token: &Token<'_>) -> bool
    ensures { result ≡ kinds.is_gap (token_view token.now) }
{
    match token.kind {
        Kind::Space | Kind::Comment => true,
        Kind::Atom | Kind::Quoted | Kind::Literal | Kind::Mark => false,
    }
}

/// Whether the token is an atom.
pub fn is_atom(token: &Token<'_>) -> bool
    ensures { result ≡ kinds.is_atom (token_view token.now) }
{
    match token.kind {
        Kind::Atom => true,
        Kind::Space | Kind::Quoted | Kind::Literal | Kind::Comment | Kind::Mark => false,
    }
}

/// An atom or a quoted text.
pub fn is_word(token: &Token<'_>) -> bool
    ensures { result ≡ kinds.is_word (token_view token.now) }
{
    match token.kind {
        Kind::Atom | Kind::Quoted => true,
        Kind::Space | Kind::Literal | Kind::Comment | Kind::Mark => false,
    }
}
