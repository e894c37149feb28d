// Tokens and parameters.
ghost use Rattle.std.specs.Prelude.{◌≡◌, ◌<◌, [], ◌∷◌, ℕ, List, None, Some, length, IfOk, IfSome, MatchBool, MatchOption};
ghost use Rattle.std.specs.Option.{option_map};
ghost use Rattle.header_words.specs.Charsets.{is_ascii};
ghost use Rattle.mail_header.specs.Lines.{unfolded};
ghost use Rattle.header_tokens.specs.reading.ClosingCounts.{TellClosings};
ghost use Rattle.header_tokens.specs.declared.token.Alphabet.TheVariants as alphabet;
ghost use Rattle.header_tokens.specs.Tokens.{Spelled};
ghost use Rattle.header_tokens.specs.Lexemes.{AreLexemes, BeginsWithLexeme};
ghost use Rattle.header_tokens.specs.TokenView.{token_view};
ghost use Rattle.header_tokens.specs.Words as words;
ghost use Rattle.mime_fields.specs.Parameters as parameters;
ghost use Rattle.mime_fields.specs.reading.MimeLexemes.{mime_lexemes};
ghost use Rattle.mime_fields.specs.reading.ParameterSteps as reading;

use crate::pieces::next_piece;
use header_tokens::{
    Alphabet, Kind, Token, bracketed_text, has_mark, is_atom, is_row, next_lexeme,
};
use mail_header::raw_forms::unfold;
use mail_header::white_end::without_white_end;
use octets::Bytes;
use std::alloc::{AllocError, Global};
use text_words::{Class, White, are_all, cut, same_text};

/// The octets of US-ASCII.
struct Ascii;

impl Class<u8> for Ascii {
    ghost test = { is_ascii };

    fn has(&self, item: &u8) -> bool {
        *item < 128
    }
}

/// The first lexeme of a text of MIME, and what follows it.
pub(crate) fn mime_lexeme(text: &[u8]) -> Option<(Token<'_>, &[u8])>
    ensures value { MatchOption result (mime_lexemes text.now ≡ []) (λ r. mime_lexemes text.now ≡ token_view r.0 ∷ mime_lexemes r.1.now) }
    ensures first { MatchOption result
        ((v : Spelled) (rest : List ℕ) → BeginsWithLexeme alphabet.Mime v rest text.now → ⊥)
        (λ r. BeginsWithLexeme alphabet.Mime (token_view r.0) r.1.now text.now) }
{
    next_lexeme(Alphabet::Mime, text)
}

/// A token: an atom in US-ASCII.
pub fn is_token(lexeme: &Token<'_>) -> bool
    ensures { result ≡ parameters.is_token (token_view lexeme.now) }
{
    is_atom(lexeme) && are_all(&Ascii, lexeme.text)
}

/// The text without white space at its ends.
pub(crate) fn trimmed(text: &[u8]) -> &[u8]
    ensures { result.now ≡ parameters.trimmed text.now }
{
    let (_, text) = cut(&White, text);
    without_white_end(text)
}

/// The text without a quotation mark in front.
fn without_quote(text: &[u8]) -> &[u8]
    ensures { result.now ≡ parameters.without_quote text.now }
{
    match text {
        [b'"', rest @ ..] => rest,
        _ => text,
    }
}

/// What a wrong sender wrote for a value; there is none where no octet is left.
fn written(alloc: Global, raw: &[u8]) -> Result<Option<Bytes>, AllocError>
    ensures { IfOk result (λ v. MatchOption v
        (parameters.octets_written raw.now ≡ [])
        (λ b. (b ≡ parameters.octets_written raw.now) × (0 < length (parameters.octets_written raw.now)))) }
{
    let text = trimmed(without_quote(trimmed(raw)));
    if text.is_empty() {
        return Ok(None);
    }
    Ok(Some(Bytes::copy_of(alloc, text)?))
}

/// Whether the text is white space and comments.
pub(crate) fn are_gaps(text: &[u8]) -> bool
    ensures { MatchBool result (AreLexemes alphabet.Mime [] text.now) (AreLexemes alphabet.Mime [] text.now → ⊥) }
{
    match mime_lexeme(text) {
        Some(_) => false,
        None => is_row(Alphabet::Mime, text),
    }
}

fn is_quoted(lexeme: &Token<'_>) -> bool
    ensures { result ≡ parameters.is_quoted (token_view lexeme.now) }
{
    match lexeme.kind {
        Kind::Quoted => true,
        Kind::Space | Kind::Comment | Kind::Literal | Kind::Atom | Kind::Mark => false,
    }
}

/// In which form a value stands.
#[derive(Clone, Copy)]
enum ValueForm<'a> {
    /// A quoted text, with its quotes.
    Quoted(&'a [u8]),
    /// A token.
    Token(&'a [u8]),
    /// Neither, as wrong senders write it.
    Written,
}

/// The form of the value that stands in these octets.
fn value_form(raw: &[u8]) -> ValueForm<'_>
    ensures { reading.HasForm result raw.now }
{
    let Some((lexeme, rest)) = mime_lexeme(raw) else {
        return ValueForm::Written;
    };
    if is_quoted(&lexeme) {
        return ValueForm::Quoted(lexeme.text);
    }
    if !is_atom(&lexeme) {
        return ValueForm::Written;
    }
    if are_gaps(rest) {
        return ValueForm::Token(lexeme.text);
    }
    ValueForm::Written
}

/// What a quoted text spells, with its line ends; there is none where it has no octet beside them.
fn quoted_text(alloc: Global, quoted: &[u8]) -> Result<Option<Bytes>, AllocError>
    ensures { IfOk result (λ v. MatchOption v
        (words.unquoted quoted.now ≡ [])
        (λ b. (b ≡ words.bracketed_text quoted.now) × (0 < length (words.unquoted quoted.now)))) }
{
    let text = bracketed_text(alloc, quoted)?;
    let line = unfold(alloc, text.as_slice())?;
    if line.is_empty() {
        return Ok(None);
    }
    Ok(Some(Bytes::from_vec(text)?))
}

/// The value that stands in these octets, with its line ends.
fn value_in(alloc: Global, raw: &[u8]) -> Result<Option<Bytes>, AllocError>
    ensures { IfOk result (λ v. MatchOption v
        ((x : List ℕ) → parameters.IsValue x raw.now → ⊥)
        (λ b. parameters.IsValue b raw.now)) }
{
    match value_form(raw) {
        ValueForm::Quoted(text) => quoted_text(alloc, text),
        ValueForm::Token(text) => Ok(Some(Bytes::copy_of(alloc, text)?)),
        ValueForm::Written => written(alloc, raw),
    }
}

/// A name, and what follows the equals sign behind it.
#[derive(Clone, Copy)]
struct NameAt<'a> {
    name: &'a [u8],
    raw: &'a [u8],
}

/// The name at the front of a piece.
fn name_at(piece: &[u8]) -> Option<NameAt<'_>>
    ensures { MatchOption result
        ((n raw : List ℕ) → reading.HasName n raw piece.now → ⊥)
        (λ r. reading.HasName r.name.now r.raw.now piece.now) }
{
    let Some((name, rest)) = mime_lexeme(piece) else {
        return None;
    };
    let Some((equals, raw)) = mime_lexeme(rest) else {
        return None;
    };
    if !is_atom(&name) {
        return None;
    }
    if !has_mark(b'=', &equals) {
        return None;
    }
    Some(NameAt {
        name: name.text,
        raw,
    })
}

/// The value of the piece, where it is a parameter of this name.
fn parameter_in(alloc: Global, name: &[u8], piece: &[u8]) -> Result<Option<Bytes>, AllocError>
    ensures { IfOk result (λ v. MatchOption v
        (parameters.IsOther name.now piece.now)
        (λ b. reading.IsNamed name.now b piece.now)) }
{
    let Some(found) = name_at(piece) else {
        return Ok(None);
    };
    if !same_text(found.name, name) {
        return Ok(None);
    }
    value_in(alloc, found.raw)
}

/// The value of the first parameter of this name in what follows a semicolon. The closings of the whole value are known.
pub(crate) fn parameter(
    alloc: Global,
    name: &[u8],
    after_first: Option<&[u8]>,
    closed: &[bool],
) -> Result<Option<Bytes>, AllocError>
    requires { IfSome after_first (λ t. TellClosings closed.now t.now) }
    ensures { IfOk result (λ v. MatchOption after_first.entry (parameters.IsFirstNamed name.now None v) (λ t. parameters.IsFirstNamed name.now (Some t.now) v)) }
{
    let mut rest = after_first;
    while let Some(text) = rest {
        let (piece, more) = next_piece(text, closed);
        if let Some(value) = parameter_in(alloc, name, piece)? {
            return Ok(Some(value));
        }
        rest = more;
    }
    Ok(None)
}

/// The value of a parameter without line ends.
pub(crate) fn without_line_ends(
    alloc: Global,
    value: Option<Bytes>,
) -> Result<Option<Bytes>, AllocError>
    ensures { IfOk result (λ v. v ≡ option_map unfolded value) }
{
    match value {
        None => Ok(None),
        Some(octets) => Ok(Some(Bytes::from_vec(unfold(alloc, octets.as_slice())?)?)),
    }
}
