// Numbers in decimal digits, without leading zeros, and the octet that follows them.
ghost use Rattle.std.specs.Prelude.{◌≡◌, ◌≤◌, IfOk};
ghost use Rattle.command_parts.specs.reading.Lexemes as reading;
ghost use Rattle.command_parts.specs.reading.Steps.{ReadingGives};

use crate::follow::{Follow, may_follow};
use crate::lexeme::{Lexeme, LexemeStep, read_lexeme};
use crate::no_command::NoCommand;
use imap_keywords::is_digit;

/// A number, as far as it was read.
#[derive(Clone, Copy)]
pub struct Numeral {
    /// The greatest number that may stand there.
    most: u64,
    follow: Follow,
    /// None before the first digit.
    value: Option<u64>,
    /// The octet that ended it.
    end: u8,
}

/// The number, where it is within the most.
fn within(n: u128, most: u64) -> Option<u64>
    ensures { result ≡ reading.within n most }
{
    if n <= most as u128 {
        Some(n as u64)
    } else {
        None
    }
}

/// The number with one digit more; None where it is greater than the most, or begins with a zero.
fn with_digit(value: Option<u64>, digit: u8, most: u64) -> Option<u64>
    ensures { result ≡ reading.with_digit value digit most }
{
    match value {
        None => within(digit as u128, most),
        Some(0) => None,
        Some(n) => within(10 * n as u128 + digit as u128, most),
    }
}

/// After an octet that is no digit.
fn ended(numeral: &Numeral, c: u8) -> LexemeStep<Numeral>
    ensures { result ≡ reading.numeral_ended numeral.now c }
{
    if numeral.value.is_some() && may_follow(numeral.follow, c) {
        LexemeStep::End(Numeral { end: c, ..*numeral })
    } else {
        LexemeStep::Fail
    }
}

fn advance(numeral: &Numeral, c: u8) -> LexemeStep<Numeral>
    ensures { result ≡ reading.numeral_advance numeral.now c }
{
    if !is_digit(c as u16) {
        return ended(numeral, c);
    }
    match with_digit(numeral.value, c - b'0', numeral.most) {
        None => LexemeStep::Fail,
        Some(value) => LexemeStep::On(Numeral {
            value: Some(value),
            ..*numeral
        }),
    }
}

impl Lexeme for Numeral {
    ghost advance_of = { reading.numeral_advance };

    fn advance(&self, c: u8) -> LexemeStep<Numeral> {
        advance(self, c)
    }
}

/// The number at the front, with the octet that follows it, and what stands behind that: ("0" / digit-nz *DIGIT), at most
/// `most`.
#[tactic(auto, unfolding(crate::specs::reading::Lexemes::numeral_at))]
pub fn read_numeral(
    bytes: &[u8],
    most: u64,
    follow: Follow,
) -> Result<((u64, u8), &[u8]), NoCommand>
    ensures { ReadingGives (λ x. (x.0, x.1.now)) result (reading.numeral_at most follow bytes.now) }
{
    let start = Numeral {
        most,
        follow,
        value: None,
        end: 0,
    };
    let (numeral, rest) = read_lexeme(start, bytes)?;
    Ok(((numeral.value.unwrap_or(0), numeral.end), rest))
}

/// A UID, or a UIDVALIDITY: a number up to 2^32 - 1.
#[tactic(auto, unfolding(crate::specs::reading::Lexemes::number_at))]
pub fn read_number(bytes: &[u8], follow: Follow) -> Result<((u32, u8), &[u8]), NoCommand>
    ensures { ReadingGives (λ x. (x.0, x.1.now)) result (reading.number_at follow bytes.now) }
{
    let ((n, end), rest) = read_numeral(bytes, u32::MAX as u64, follow)?;
    let n = n.min(u32::MAX as u64) as u32;
    Ok(((n, end), rest))
}
