// The tokens of a raw value (RFC 5322 section 3.2).
ghost use Rattle.std.specs.Prelude.{false, None, ◌≡◌, ◌≢◌, ◌<◌, ◌≤◌, ◌+◌, ◌++◌, ℕ, List, IfOk, MatchOption, IfSome, IfNone, length};
ghost use Rattle.header_tokens.specs.Closings.{IsLiteral};
ghost use Rattle.header_tokens.specs.Tokens as tokens;
ghost use Rattle.header_tokens.specs.reading.TokenReading as reading;
ghost use Rattle.header_tokens.specs.TokenView.{token_view, tokens_view};

use crate::token::{Alphabet, Kind, Token};
use std::alloc::{AllocError, Global};
use text_words::{Class, White, behind, cut, is_white};

/// No octet opens a bracket in a quoted text or a literal.
const NONE: u16 = 256;

/// The octets of an atom in mail.
struct MailLetter;

impl Class<u8> for MailLetter {
    ghost use Rattle.header_tokens.specs.declared.token.Alphabet.{Alphabet};

    ghost test = { tokens.is_letter Alphabet.Mail };

    fn has(&self, item: &u8) -> bool {
        is_letter(Alphabet::Mail, *item)
    }
}

/// The octets of an atom in MIME.
struct MimeLetter;

impl Class<u8> for MimeLetter {
    ghost use Rattle.header_tokens.specs.declared.token.Alphabet.{Alphabet};

    ghost test = { tokens.is_letter Alphabet.Mime };

    fn has(&self, item: &u8) -> bool {
        is_letter(Alphabet::Mime, *item)
    }
}

fn is_mail_mark(octet: u8) -> bool
    ensures { result ≡ tokens.is_mark Alphabet.Mail octet }
{
    octet == b'<'
        || octet == b'>'
        || octet == b'@'
        || octet == b','
        || octet == b';'
        || octet == b':'
        || octet == b'.'
}

fn is_mime_mark(octet: u8) -> bool
    ensures { result ≡ tokens.is_mark Alphabet.Mime octet }
{
    octet == b'<'
        || octet == b'>'
        || octet == b'@'
        || octet == b','
        || octet == b';'
        || octet == b':'
        || octet == b'/'
        || octet == b'?'
        || octet == b'='
}

fn is_mark(alphabet: Alphabet, octet: u8) -> bool
    ensures { result ≡ tokens.is_mark alphabet octet }
{
    match alphabet {
        Alphabet::Mail => is_mail_mark(octet),
        Alphabet::Mime => is_mime_mark(octet),
    }
}

fn is_letter(alphabet: Alphabet, octet: u8) -> bool
    ensures { result ≡ tokens.is_letter alphabet octet }
{
    b' ' < octet
        && octet != 127
        && !is_mark(alphabet, octet)
        && octet != b'"'
        && octet != b'('
        && octet != b')'
        && octet != b'['
        && octet != b']'
        && octet != b'\\'
}

/// How many letters stand at the front.
fn letters(alphabet: Alphabet, text: &[u8]) -> usize
    ensures { result ≡ reading.span (tokens.is_letter alphabet) text.now }
{
    match alphabet {
        Alphabet::Mail => cut(&MailLetter, text).0.len(),
        Alphabet::Mime => cut(&MimeLetter, text).0.len(),
    }
}

/// How many octets go up to the end of the bracket whose contents the text begins with.
fn closing(text: &[u8], opener: u16, closer: u16) -> Option<usize>
    ensures value { result ≡ reading.close_in opener closer 0 false text.now }
    ensures within { IfSome result (λ n. n ≤ length text.now) }
{
    let mut depth: usize = 0;
    let mut escaped = false;
    for (i, octet) in text.iter().enumerate() {
        if escaped {
            escaped = false;
        } else if *octet == b'\\' {
            escaped = true;
        } else if *octet as u16 == closer {
            if depth == 0 {
                return Some(i + 1);
            }
            depth -= 1;
        } else if *octet as u16 == opener {
            depth += 1;
        }
    }
    None
}

/// A bracket, where `rest` follows its first octet in the text, if it is closed.
fn bracket(kind: Kind, text: &[u8], rest: &[u8], opener: u16, closer: u16) -> Option<(Kind, usize)>
    requires { length text.now ≡ length rest.now + 1 }
    ensures { result ≡ reading.token_of kind (reading.further 1 (reading.close_in opener closer 0 false rest.now)) }
{
    match closing(rest, opener, closer) {
        None => None,
        Some(len) => Some((kind, text.len() - (rest.len() - len))),
    }
}

/// The bracket at the front that this octet opens, and what follows it, where the bracket is closed.
fn bracketed_at(text: &[u8], first: u8, opener: u16, closer: u8) -> Option<(&[u8], &[u8])>
    requires opener { opener ≢ 92 }
    requires closer { closer ≢ 92 }
    requires two { opener ≢ closer }
    ensures { MatchOption result
        ((x y : List ℕ) → tokens.IsBracketed first opener closer x → text.now ≢ x ++ y)
        (λ r. tokens.IsBracketed first opener closer r.0.now × (text.now ≡ r.0.now ++ r.1.now)) }
{
    let Some(rest) = behind(first, text) else {
        return None;
    };
    match closing(rest, opener, closer as u16) {
        None => None,
        Some(len) => Some(text.split_at(len + 1)),
    }
}

/// The comment at the front, and what follows it, where the text begins with one that is closed.
pub fn comment_at(text: &[u8]) -> Option<(&[u8], &[u8])>
    ensures { MatchOption result ((x y : List ℕ) → tokens.IsComment x → text.now ≢ x ++ y) (λ r. tokens.IsComment r.0.now × (text.now ≡ r.0.now ++ r.1.now)) }
{
    bracketed_at(text, b'(', b'(' as u16, b')')
}

/// The quoted text at the front, and what follows it, where the text begins with one that is closed.
pub fn quoted_at(text: &[u8]) -> Option<(&[u8], &[u8])>
    ensures { MatchOption result ((x y : List ℕ) → tokens.IsQuoted x → text.now ≢ x ++ y) (λ r. tokens.IsQuoted r.0.now × (text.now ≡ r.0.now ++ r.1.now)) }
{
    bracketed_at(text, b'"', NONE, b'"')
}

/// The domain literal at the front, and what follows it, where the text begins with one that is closed.
pub fn literal_at(text: &[u8]) -> Option<(&[u8], &[u8])>
    ensures { MatchOption result ((x y : List ℕ) → IsLiteral x → text.now ≢ x ++ y) (λ r. IsLiteral r.0.now × (text.now ≡ r.0.now ++ r.1.now)) }
{
    bracketed_at(text, b'[', NONE, b']')
}

/// The token at the front, and how many octets it has.
#[tactic(auto, unfolding(crate::specs::reading::TokenReading::token_in))]
fn token_at(alphabet: Alphabet, text: &[u8]) -> Option<(Kind, usize)>
    ensures { result ≡ reading.token_in alphabet text.now }
{
    match text {
        [] => None,
        [first, rest @ ..] => {
            if is_letter(alphabet, *first) {
                Some((Kind::Atom, letters(alphabet, text)))
            } else if is_white(*first) {
                Some((Kind::Space, cut(&White, text).0.len()))
            } else if is_mark(alphabet, *first) {
                Some((Kind::Mark, 1))
            } else if *first == b'"' {
                bracket(Kind::Quoted, text, rest, NONE, b'"' as u16)
            } else if *first == b'[' {
                bracket(Kind::Literal, text, rest, NONE, b']' as u16)
            } else if *first == b'(' {
                bracket(Kind::Comment, text, rest, b'(' as u16, b')' as u16)
            } else {
                None
            }
        }
    }
}

/// The token at the front, and what follows it.
pub(crate) fn first_token(alphabet: Alphabet, text: &[u8]) -> Option<(Token<'_>, &[u8])>
    ensures value { MatchOption result (reading.spelled_in alphabet text.now ≡ None) (λ r. reading.IsFirstToken alphabet (token_view r.0) r.1.now text.now) }
    ensures shorter { IfSome result (λ r. length r.1.now < length text.now) }
{
    match token_at(alphabet, text) {
        None => None,
        Some((kind, len)) => {
            let (token, rest) = text.split_at(len);
            Some((Token { kind, text: token }, rest))
        }
    }
}

/// The tokens at the front of a text, up to what no token begins.
pub fn leading_tokens<'a>(
    alloc: Global,
    alphabet: Alphabet,
    text: &'a [u8],
) -> Result<(Vec<Token<'a>>, &'a [u8]), AllocError>
    ensures { IfOk result (λ r. tokens.AreLeading alphabet (tokens_view r.0.items) r.1.now text.now) }
{
    let mut found = Vec::new(alloc);
    let mut rest = text;
    while let Some((token, behind)) = first_token(alphabet, rest) {
        found.push(token)?;
        rest = behind;
    }
    Ok((found, rest))
}

/// The tokens of a header's value (RFC 5322 section 3.2), where it is a row of tokens.
pub fn tokens(
    alloc: Global,
    alphabet: Alphabet,
    text: &[u8],
) -> Result<Option<Vec<Token<'_>>>, AllocError>
    ensures some { IfOk result (λ r. IfSome r (λ v. tokens.AreTokens alphabet (tokens_view v.items) text.now)) }
    ensures none { IfOk result (λ r. IfNone r ((ts : List tokens.Spelled) → tokens.AreTokens alphabet ts text.now → ⊥)) }
{
    let (found, rest) = leading_tokens(alloc, alphabet, text)?;
    if rest.is_empty() {
        Ok(Some(found))
    } else {
        Ok(None)
    }
}
