// The pieces of a date, read one after another.
ghost use Rattle.std.specs.Prelude.{◌≡◌, ◌≢◌, ◌++◌, [], ◌∷◌, false, None, Some, MatchOption};
ghost use Rattle.text_words.specs.Octets as octets;
ghost use Rattle.header_tokens.specs.TokenView.{token_view};
ghost use Rattle.header_tokens.specs.declared.token.Alphabet.TheVariants as Alphabet;
ghost use Rattle.header_tokens.specs.reading.LexemeReading.{lexemes_in, ReadsLexeme};
ghost use Rattle.header_dates.specs.Dates as dates;
ghost use Rattle.header_dates.specs.reading.DateReading as reading;

use header_tokens::{Alphabet, Kind, Token, first_octet, next_lexeme};
use text_words::{Alpha, Digit, cut};

/// A piece of a date.
#[derive(Clone, Copy)]
pub enum Piece<'a> {
    /// A run of digits.
    Digits(&'a [u8]),
    /// A run of letters.
    Letters(&'a [u8]),
    /// `+` or `-`, and the digits directly after it.
    Signed(u8, &'a [u8]),
    /// Any other octet.
    Octet(u8),
    /// A quoted text or a literal, which no date has.
    Other,
}

/// A place in a date: what is left of an atom, and the text after the atom.
#[derive(Clone, Copy)]
pub struct PartPlace<'a> {
    pub(crate) atom: &'a [u8],
    pub(crate) rest: &'a [u8],
}

/// The piece at the place, and the place after it.
pub(crate) fn next_piece(place: PartPlace<'_>) -> Option<(Piece<'_>, PartPlace<'_>)>
    ensures { MatchOption result (reading.pieces_at place.entry ≡ []) (λ r. reading.pieces_at place.entry ≡ reading.piece_view r.0 ∷ reading.pieces_at r.1) }
{
    if place.atom.is_empty() {
        lexeme_piece(place.rest)
    } else {
        Some(run_at(place.atom, place.rest))
    }
}

/// The first lexeme of a text, and what follows it.
pub(crate) fn mail_lexeme(text: &[u8]) -> Option<(Token<'_>, &[u8])>
    ensures { MatchOption result (lexemes_in Alphabet.Mail text.now ≡ []) (λ r. ReadsLexeme Alphabet.Mail (token_view r.0) r.1.now text.now) }
{
    next_lexeme(Alphabet::Mail, text)
}

/// The piece at the front of the first lexeme.
fn lexeme_piece(text: &[u8]) -> Option<(Piece<'_>, PartPlace<'_>)>
    ensures { MatchOption result (reading.pieces_behind [] text.now ≡ []) (λ r. reading.pieces_behind [] text.now ≡ reading.piece_view r.0 ∷ reading.pieces_at r.1) }
{
    match mail_lexeme(text) {
        None => None,
        Some((lexeme, rest)) => Some(piece_of(lexeme, rest)),
    }
}

/// The piece at the front of a lexeme, where `rest` follows it.
fn piece_of<'a>(lexeme: Token<'a>, rest: &'a [u8]) -> (Piece<'a>, PartPlace<'a>)
    requires { lexeme.text.now ≢ [] }
    ensures { dates.pieces_in lexeme.entry.kind lexeme.entry.text.now ++ reading.pieces_behind [] rest.now ≡ reading.piece_view result.0 ∷ reading.pieces_at result.1 }
{
    match lexeme.kind {
        Kind::Atom => run_at(lexeme.text, rest),
        Kind::Mark => (
            Piece::Octet(first_octet(lexeme.text)),
            PartPlace { atom: &[], rest },
        ),
        Kind::Space | Kind::Quoted | Kind::Literal | Kind::Comment => {
            (Piece::Other, PartPlace { atom: &[], rest })
        }
    }
}

/// The piece at the front of what is left of an atom, where `rest` follows the atom.
fn run_at<'a>(atom: &'a [u8], rest: &'a [u8]) -> (Piece<'a>, PartPlace<'a>)
    requires { atom.now ≢ [] }
    ensures { reading.pieces_behind atom.now rest.now ≡ reading.piece_view result.0 ∷ reading.pieces_at result.1 }
{
    let (digits, behind) = cut(&Digit, atom);
    if !digits.is_empty() {
        return (Piece::Digits(digits), PartPlace { atom: behind, rest });
    }
    let (letters, behind) = cut(&Alpha, atom);
    if !letters.is_empty() {
        return (Piece::Letters(letters), PartPlace { atom: behind, rest });
    }
    match atom {
        [] => unreachable!(),
        [octet, more @ ..] => octet_at(*octet, more, rest),
    }
}

/// The piece that an octet begins which is neither a digit nor a letter, where `more` of the atom and then `rest` follow.
fn octet_at<'a>(octet: u8, more: &'a [u8], rest: &'a [u8]) -> (Piece<'a>, PartPlace<'a>)
    requires digit { octets.is_digit octet ≡ false }
    requires letter { octets.is_alpha octet ≡ false }
    ensures { reading.pieces_behind (octet ∷ more.now) rest.now ≡ reading.piece_view result.0 ∷ reading.pieces_at result.1 }
{
    let (digits, behind) = cut(&Digit, more);
    if digits.is_empty() {
        return (Piece::Octet(octet), PartPlace { atom: more, rest });
    }
    if !is_plus_or_minus(octet) {
        return (Piece::Octet(octet), PartPlace { atom: more, rest });
    }
    (
        Piece::Signed(octet, digits),
        PartPlace { atom: behind, rest },
    )
}

fn is_plus_or_minus(octet: u8) -> bool
    ensures { result ≡ dates.is_plus_or_minus octet }
{
    octet == b'+' || octet == b'-'
}

/// The digits at the place, and the place after them.
pub(crate) fn digits(place: PartPlace<'_>) -> Option<(&[u8], PartPlace<'_>)>
    ensures { MatchOption result (reading.digits_in (reading.pieces_at place.entry) ≡ None) (λ r. reading.digits_in (reading.pieces_at place.entry) ≡ Some (r.0.now, reading.pieces_at r.1)) }
{
    let (piece, rest) = next_piece(place)?;
    match piece {
        Piece::Digits(text) => Some((text, rest)),
        Piece::Letters(_) | Piece::Signed(_, _) | Piece::Octet(_) | Piece::Other => None,
    }
}

/// The letters at the place, and the place after them.
pub(crate) fn letters(place: PartPlace<'_>) -> Option<(&[u8], PartPlace<'_>)>
    ensures { MatchOption result (reading.letters_in (reading.pieces_at place.entry) ≡ None) (λ r. reading.letters_in (reading.pieces_at place.entry) ≡ Some (r.0.now, reading.pieces_at r.1)) }
{
    let (piece, rest) = next_piece(place)?;
    match piece {
        Piece::Letters(text) => Some((text, rest)),
        Piece::Digits(_) | Piece::Signed(_, _) | Piece::Octet(_) | Piece::Other => None,
    }
}

/// The octet at the place, which is neither a digit nor a letter, and the place after it.
pub(crate) fn octet(place: PartPlace<'_>) -> Option<(u8, PartPlace<'_>)>
    ensures { MatchOption result (reading.octet_in (reading.pieces_at place.entry) ≡ None) (λ r. reading.octet_in (reading.pieces_at place.entry) ≡ Some (r.0, reading.pieces_at r.1)) }
{
    let (piece, rest) = next_piece(place)?;
    match piece {
        Piece::Octet(octet) => Some((octet, rest)),
        Piece::Digits(_) | Piece::Letters(_) | Piece::Signed(_, _) | Piece::Other => None,
    }
}
