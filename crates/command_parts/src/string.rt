// Names of folders (an atom or a quoted text of RFC 9051 section 9), and users and passwords (these or a literal).
ghost use Rattle.std.specs.Prelude.{◌≡◌};
ghost use Rattle.imap_values.specs.Strings as texts;
ghost use Rattle.command_parts.specs.reading.Lexemes as reading;
ghost use Rattle.command_parts.specs.reading.Strings as strings;
ghost use Rattle.command_parts.specs.reading.Steps.{ReadingGives};

use crate::fixed_text::{FixedText, read_fixed};
use crate::follow::{Follow, may_follow};
use crate::lexeme::{Lexeme, LexemeStep, read_lexeme};
use crate::literal::read_literal;
use crate::no_command::NoCommand;
use imap_keywords::{is_atom, is_text};
use imap_values::octet_at;

/// A user or a password.
#[derive(Clone, Copy)]
pub enum Credential<'a> {
    /// An atom or a quoted text stands at the front of these octets.
    Text(&'a [u8]),
    /// The octets of a literal.
    Literal(&'a [u8]),
}

/// A place within an atom or a quoted text.
#[derive(Clone, Copy)]
pub enum TextPlace {
    /// Before its first octet.
    Start,
    /// Behind octets of an atom.
    Atom,
    /// Behind the opening quote.
    Quoted,
    /// Behind a `\` of a quoted text.
    Escaped,
    /// Behind the closing quote.
    Closed,
}

/// An atom or a quoted text, as far as it was read.
#[derive(Clone, Copy)]
pub struct StringText {
    follow: Follow,
    place: TextPlace,
    /// The octet that ended it.
    end: u8,
}

fn at(text: StringText, place: TextPlace) -> LexemeStep<StringText>
    ensures { result ≡ reading.text_on text place }
{
    LexemeStep::On(StringText { place, ..text })
}

/// After an octet that isn't one of the text.
fn ended(text: StringText, c: u8) -> LexemeStep<StringText>
    ensures { result ≡ reading.text_ended text c }
{
    if may_follow(text.follow, c) {
        LexemeStep::End(StringText { end: c, ..text })
    } else {
        LexemeStep::Fail
    }
}

fn start(text: StringText, c: u8) -> LexemeStep<StringText>
    ensures { result ≡ reading.text_start text c }
{
    if c == b'"' {
        at(text, TextPlace::Quoted)
    } else if is_atom(c as u16) {
        at(text, TextPlace::Atom)
    } else {
        LexemeStep::Fail
    }
}

fn atom(text: StringText, c: u8) -> LexemeStep<StringText>
    ensures { result ≡ reading.text_atom text c }
{
    if is_atom(c as u16) {
        at(text, TextPlace::Atom)
    } else {
        ended(text, c)
    }
}

fn quoted(text: StringText, c: u8) -> LexemeStep<StringText>
    ensures { result ≡ reading.text_quoted text c }
{
    if c == b'"' {
        at(text, TextPlace::Closed)
    } else if c == b'\\' {
        at(text, TextPlace::Escaped)
    } else if is_text(c as u16) {
        at(text, TextPlace::Quoted)
    } else {
        LexemeStep::Fail
    }
}

fn escaped(text: StringText, c: u8) -> LexemeStep<StringText>
    ensures { result ≡ reading.text_escaped text c }
{
    if c == b'"' || c == b'\\' {
        at(text, TextPlace::Quoted)
    } else {
        LexemeStep::Fail
    }
}

fn advance(text: StringText, c: u8) -> LexemeStep<StringText>
    ensures { result ≡ reading.text_advance text c }
{
    match text.place {
        TextPlace::Start => start(text, c),
        TextPlace::Atom => atom(text, c),
        TextPlace::Quoted => quoted(text, c),
        TextPlace::Escaped => escaped(text, c),
        TextPlace::Closed => ended(text, c),
    }
}

impl Lexeme for StringText {
    ghost advance_of = { reading.text_advance };

    fn advance(&self, c: u8) -> LexemeStep<StringText> {
        advance(*self, c)
    }
}

/// The octets from the name of a folder on, with the octet that follows it, and what stands behind that: an atom or a quoted
/// text, so that it has no octet 0, CR or LF. `astring_in` gives the name.
#[tactic(auto, unfolding(crate::specs::reading::Strings::name_at))]
pub fn read_name(bytes: &[u8], follow: Follow) -> Result<((&[u8], u8), &[u8]), NoCommand>
    ensures { ReadingGives (λ x. (((texts.astring_in x.0.0.now).0, x.0.1), x.1.now)) result (strings.name_at follow bytes.now) }
{
    let start = StringText {
        follow,
        place: TextPlace::Start,
        end: 0,
    };
    let (text, rest) = read_lexeme(start, bytes)?;
    Ok(((bytes, text.end), rest))
}

/// The name of a folder and the command's end: the octets from the name on, and what follows the end.
#[tactic(auto, unfolding(crate::specs::reading::Strings::last_name_at))]
pub fn read_last_name(bytes: &[u8]) -> Result<(&[u8], &[u8]), NoCommand>
    ensures { ReadingGives (λ x. ((texts.astring_in x.0.now).0, x.1.now)) result (strings.last_name_at bytes.now) }
{
    let ((name, _), rest) = read_name(bytes, Follow::Line)?;
    let (_, rest) = read_fixed(FixedText::LineFeed, rest)?;
    Ok((name, rest))
}

/// A user or a password at the front, and what stands behind the octet that follows it: an atom, a quoted text or a literal.
#[tactic(auto, unfolding(crate::specs::reading::Strings::credential_at, crate::specs::reading::Strings::credential_literal_at, crate::specs::reading::Strings::credential_text_at))]
pub fn read_credential(bytes: &[u8], follow: Follow) -> Result<(Credential, &[u8]), NoCommand>
    ensures { ReadingGives (λ x. (strings.credential_of x.0, x.1.now)) result (strings.credential_at follow bytes.now) }
{
    if octet_at(bytes, 0) == b'{' {
        let (_, rest) = read_fixed(FixedText::Brace, bytes)?;
        let (octets, rest) = read_literal(rest, follow)?;
        return Ok((Credential::Literal(octets), rest));
    }
    let ((text, _), rest) = read_name(bytes, follow)?;
    Ok((Credential::Text(text), rest))
}
