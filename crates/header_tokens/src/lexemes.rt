// Lexemes, read one after another: tokens without white space and comments.
ghost use Rattle.std.specs.Prelude.{◌≡◌, ◌<◌, ℕ, [], List, length, IfSome, MatchBool, MatchOption};
ghost use Rattle.header_tokens.specs.Tokens.{Spelled, AreTokens};
ghost use Rattle.header_tokens.specs.Lexemes as lexemes;
ghost use Rattle.header_tokens.specs.TokenView.{token_view};
ghost use Rattle.header_tokens.specs.reading.LexemeReading as reading;

use crate::token::{Alphabet, Kind, Token};
use crate::tokens::first_token;

/// The first lexeme of a value, and what follows it. There is none where no token begins after white space and comments.
pub fn next_lexeme(alphabet: Alphabet, text: &[u8]) -> Option<(Token<'_>, &[u8])>
    ensures value { MatchOption result (lexemes.AreLeadingLexemes alphabet [] text.now) (λ r. lexemes.IsNextLexeme alphabet (token_view r.0) r.1.now text.now) }
    ensures first { MatchOption result
        ((v : Spelled) (rest : List ℕ) → lexemes.BeginsWithLexeme alphabet v rest text.now → ⊥)
        (λ r. lexemes.BeginsWithLexeme alphabet (token_view r.0) r.1.now text.now) }
    ensures shorter { IfSome result (λ r. length r.1.now < length text.now) }
{
    lexeme_at(alphabet, text)
}

/// The first lexeme, and what follows it.
fn lexeme_at(alphabet: Alphabet, text: &[u8]) -> Option<(Token<'_>, &[u8])>
    ensures value { MatchOption result (reading.lexemes_in alphabet text.now ≡ []) (λ r. reading.ReadsLexeme alphabet (token_view r.0) r.1.now text.now) }
    ensures first { MatchOption result (reading.lexemes_in alphabet text.now ≡ []) (λ r. lexemes.BeginsWithLexeme alphabet (token_view r.0) r.1.now text.now) }
    ensures shorter { IfSome result (λ r. length r.1.now < length text.now) }
{
    let mut rest = text;
    while let Some((token, behind)) = first_token(alphabet, rest) {
        if is_lexeme(token.kind) {
            return Some((token, behind));
        }
        rest = behind;
    }
    None
}

/// Whether the text is a row of tokens. It takes no memory.
pub fn is_row(alphabet: Alphabet, text: &[u8]) -> bool
    ensures { MatchBool result ((ts : List Spelled) × AreTokens alphabet ts text.now) ((ts : List Spelled) → AreTokens alphabet ts text.now → ⊥) }
{
    behind_tokens(alphabet, text).is_empty()
}

/// What follows the tokens at the front.
fn behind_tokens(alphabet: Alphabet, text: &[u8]) -> &[u8]
    ensures { result.now ≡ reading.rest_in alphabet text.now }
{
    let mut rest = text;
    while let Some((_, behind)) = first_token(alphabet, rest) {
        rest = behind;
    }
    rest
}

fn is_lexeme(kind: Kind) -> bool
    ensures { result ≡ lexemes.is_lexeme_kind kind }
{
    match kind {
        Kind::Space | Kind::Comment => false,
        Kind::Atom | Kind::Quoted | Kind::Literal | Kind::Mark => true,
    }
}
