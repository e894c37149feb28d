// Literals (RFC 9051 section 4.3), from behind the opening brace on.
ghost use Rattle.std.specs.Prelude.{◌≡◌};
ghost use Rattle.command_parts.specs.reading.Lexemes as reading;
ghost use Rattle.command_parts.specs.reading.Strings as strings;
ghost use Rattle.command_parts.specs.reading.Steps.{ReadingGives};

use crate::follow::{Follow, may_follow};
use crate::lexeme::{Lexeme, LexemeStep, read_lexeme};
use crate::no_command::NoCommand;
use imap_keywords::{COUNT_DIGITS, MAX_LITERAL_OCTETS, is_digit};
use imap_values::{before, behind};

/// The head of a literal behind its brace, as far as it was read.
#[derive(Clone, Copy)]
pub enum LiteralHead {
    /// Its number so far, and how many digits it has.
    Digits(u32, u8),
    /// Behind the closing brace.
    Closed(u32),
    /// Behind the CR, and at last behind the LF.
    Line(u32),
}

fn digits(value: u32, count: u8, c: u8) -> LexemeStep<LiteralHead>
    ensures { result ≡ reading.head_digits value count c }
{
    if is_digit(c as u16) {
        let next = 10 * value as u64 + (c - b'0') as u64;
        if count < COUNT_DIGITS && next <= MAX_LITERAL_OCTETS as u64 {
            LexemeStep::On(LiteralHead::Digits(next as u32, count + 1))
        } else {
            LexemeStep::Fail
        }
    } else if c == b'}' && 0 < count {
        LexemeStep::On(LiteralHead::Closed(value))
    } else {
        LexemeStep::Fail
    }
}

fn closed(value: u32, c: u8) -> LexemeStep<LiteralHead>
    ensures { result ≡ reading.head_advance (LiteralHead.Closed value) c }
{
    if c == b'\r' {
        LexemeStep::On(LiteralHead::Line(value))
    } else {
        LexemeStep::Fail
    }
}

fn line(value: u32, c: u8) -> LexemeStep<LiteralHead>
    ensures { result ≡ reading.head_advance (LiteralHead.Line value) c }
{
    if c == b'\n' {
        LexemeStep::End(LiteralHead::Line(value))
    } else {
        LexemeStep::Fail
    }
}

fn advance(head: LiteralHead, c: u8) -> LexemeStep<LiteralHead>
    ensures { result ≡ reading.head_advance head c }
{
    match head {
        LiteralHead::Digits(value, count) => digits(value, count, c),
        LiteralHead::Closed(value) => closed(value, c),
        LiteralHead::Line(value) => line(value, c),
    }
}

impl Lexeme for LiteralHead {
    ghost advance_of = { reading.head_advance };

    fn advance(&self, c: u8) -> LexemeStep<LiteralHead> {
        advance(*self, c)
    }
}

/// How many octets the literal has.
fn count_of(head: LiteralHead) -> u32
    ensures { result ≡ reading.count_of head }
{
    match head {
        LiteralHead::Digits(value, _) => value,
        LiteralHead::Closed(value) => value,
        LiteralHead::Line(value) => value,
    }
}

/// So many octets and one that may follow them: the octets, and what stands behind that one.
fn octets(bytes: &[u8], count: usize, follow: Follow) -> Result<(&[u8], &[u8]), NoCommand>
    ensures { ReadingGives (λ x. (x.0.now, x.1.now)) result (strings.octets_at count follow bytes.now) }
{
    if bytes.is_empty() {
        return Err(NoCommand::WantsLiteral);
    }
    if bytes.len() <= count {
        return Err(NoCommand::NeedMore);
    }
    if may_follow(follow, bytes[count]) {
        Ok((before(bytes, count), behind(bytes, count + 1)))
    } else {
        Err(NoCommand::Bad(bytes.len() - count))
    }
}

/// The octets of the literal, and what stands behind the octet that follows them: 1*8digit "}" CRLF *octet.
#[tactic(auto, unfolding(crate::specs::reading::Strings::literal_at))]
pub fn read_literal(bytes: &[u8], follow: Follow) -> Result<(&[u8], &[u8]), NoCommand>
    ensures { ReadingGives (λ x. (x.0.now, x.1.now)) result (strings.literal_at follow bytes.now) }
{
    let (head, rest) = read_lexeme(LiteralHead::Digits(0, 0), bytes)?;
    octets(rest, count_of(head) as usize, follow)
}
