// The day and the time of a date.
ghost use Rattle.std.specs.Prelude.{◌≡◌, ◌<◌, ◌≤◌, length, MatchOption, IfSome, Some, None};
ghost use Rattle.header_dates.specs.Dates as dates;
ghost use Rattle.header_tokens.specs.declared.token.Alphabet.TheVariants as Alphabet;
ghost use Rattle.header_dates.specs.reading.DateReading as reading;
ghost use Rattle.header_tokens.specs.reading.LexemeReading.{lexemes_in};

use crate::date::{Clock, Day};
use crate::pieces::{PartPlace, digits, letters, mail_lexeme, octet};
use header_tokens::{has_mark, is_atom};
use text_words::same_text;

/// The colon at the place, and the place after it.
fn colon(place: PartPlace<'_>) -> Option<(u8, PartPlace<'_>)>
    ensures { MatchOption result (reading.colon_in (reading.pieces_at place.entry) ≡ None) (λ r. reading.colon_in (reading.pieces_at place.entry) ≡ Some (r.0, reading.pieces_at r.1)) }
{
    let (octet, rest) = octet(place)?;
    if octet == b':' {
        Some((octet, rest))
    } else {
        None
    }
}

/// What follows the day of the week and the comma after it, where they stand at the front.
pub(crate) fn behind_day_name(text: &[u8]) -> &[u8]
    ensures { lexemes_in Alphabet.Mail result.now ≡ reading.behind_day_name (lexemes_in Alphabet.Mail text.now) }
{
    match day_name(text) {
        None => text,
        Some(rest) => rest,
    }
}

/// What follows the day of the week and the comma at the front.
fn day_name(text: &[u8]) -> Option<&[u8]>
    ensures { MatchOption result (reading.behind_day_name (lexemes_in Alphabet.Mail text.now) ≡ lexemes_in Alphabet.Mail text.now) (λ r. reading.behind_day_name (lexemes_in Alphabet.Mail text.now) ≡ lexemes_in Alphabet.Mail r.now) }
{
    let (name, rest) = mail_lexeme(text)?;
    let (comma, rest) = mail_lexeme(rest)?;
    if !is_atom(&name) {
        return None;
    }
    if !has_mark(b',', &comma) {
        return None;
    }
    Some(rest)
}

/// The number that up to four digits spell.
pub fn value_of_digits(digits: &[u8]) -> u32
    requires { length digits.now ≤ 4 }
    ensures value { result ≡ dates.value_from 0 digits.now }
    ensures small { result < 300000 }
{
    let mut value: u32 = 0;
    for digit in digits {
        value = 10 * value + (*digit as u32).saturating_sub(b'0' as u32);
    }
    value
}

/// The number that a text of n digits spells.
pub(crate) fn number_of(low: usize, high: usize, text: &[u8]) -> Option<u32>
    requires { high ≤ 4 }
    ensures value { result ≡ dates.number_in_digits low high text.now }
    ensures small { IfSome result (λ n. n < 300000) }
{
    if text.len() < low {
        return None;
    }
    if high < text.len() {
        return None;
    }
    Some(value_of_digits(text))
}

/// The number at the place, and the place after it.
fn number(low: usize, high: usize, place: PartPlace<'_>) -> Option<(u32, PartPlace<'_>)>
    requires { high ≤ 4 }
    ensures value { MatchOption result (reading.number_in low high (reading.pieces_at place.entry) ≡ None) (λ r. reading.number_in low high (reading.pieces_at place.entry) ≡ Some (r.0, reading.pieces_at r.1)) }
    ensures small { IfSome result (λ r. r.0 < 300000) }
{
    match digits(place) {
        None => None,
        Some((text, rest)) => match number_of(low, high, text) {
            None => None,
            Some(number) => Some((number, rest)),
        },
    }
}

/// The number of a month of this name.
fn month_of(text: &[u8]) -> Option<u32>
    ensures value { result ≡ dates.month_of text.now }
    ensures small { IfSome result (λ n. n ≤ 12) }
{
    if same_text(text, b"jan") {
        Some(1)
    } else if same_text(text, b"feb") {
        Some(2)
    } else if same_text(text, b"mar") {
        Some(3)
    } else if same_text(text, b"apr") {
        Some(4)
    } else if same_text(text, b"may") {
        Some(5)
    } else if same_text(text, b"jun") {
        Some(6)
    } else if same_text(text, b"jul") {
        Some(7)
    } else if same_text(text, b"aug") {
        Some(8)
    } else if same_text(text, b"sep") {
        Some(9)
    } else if same_text(text, b"oct") {
        Some(10)
    } else if same_text(text, b"nov") {
        Some(11)
    } else if same_text(text, b"dec") {
        Some(12)
    } else {
        None
    }
}

/// The month at the place, and the place after it.
fn month(place: PartPlace<'_>) -> Option<(u32, PartPlace<'_>)>
    ensures { MatchOption result (reading.month_in (reading.pieces_at place.entry) ≡ None) (λ r. reading.month_in (reading.pieces_at place.entry) ≡ Some (r.0, reading.pieces_at r.1)) }
{
    match letters(place) {
        None => None,
        Some((text, rest)) => match month_of(text) {
            None => None,
            Some(month) => Some((month, rest)),
        },
    }
}

/// The year that two to four digits spell.
fn year_of(text: &[u8]) -> Option<u32>
    ensures { result ≡ dates.year_of text.now }
{
    if text.len() < 2 {
        return None;
    }
    if 4 < text.len() {
        return None;
    }
    Some(whole_year(text.len(), value_of_digits(text)))
}

/// The year that a number of n digits means.
fn whole_year(digits: usize, number: u32) -> u32
    requires { number < 300000 }
    ensures { result ≡ dates.whole_year digits number }
{
    if digits == 4 {
        number
    } else if digits == 2 && number < 50 {
        2000 + number
    } else {
        1900 + number
    }
}

/// The year at the place, and the place after it.
fn year(place: PartPlace<'_>) -> Option<(u32, PartPlace<'_>)>
    ensures { MatchOption result (reading.year_in (reading.pieces_at place.entry) ≡ None) (λ r. reading.year_in (reading.pieces_at place.entry) ≡ Some (r.0, reading.pieces_at r.1)) }
{
    match digits(place) {
        None => None,
        Some((text, rest)) => match year_of(text) {
            None => None,
            Some(year) => Some((year, rest)),
        },
    }
}

/// The seconds at the place, which may be missing, and the place after them.
fn second(place: PartPlace<'_>) -> Option<(u32, PartPlace<'_>)>
    ensures { MatchOption result (reading.second_in (reading.pieces_at place.entry) ≡ None) (λ r. reading.second_in (reading.pieces_at place.entry) ≡ Some (r.0, reading.pieces_at r.1)) }
{
    match colon(place) {
        None => Some((0, place)),
        Some((_, rest)) => number(2, 2, rest),
    }
}

/// The day at the place, and the place after it.
pub(crate) fn day(place: PartPlace<'_>) -> Option<(Day, PartPlace<'_>)>
    ensures { MatchOption result (reading.day_in (reading.pieces_at place.entry) ≡ None) (λ r. reading.day_in (reading.pieces_at place.entry) ≡ Some (r.0, reading.pieces_at r.1)) }
{
    let (day, rest) = number(1, 2, place)?;
    let (month, rest) = month(rest)?;
    let (year, rest) = year(rest)?;
    Some((Day { year, month, day }, rest))
}

/// The time of the day at the place, and the place after it.
pub(crate) fn clock(place: PartPlace<'_>) -> Option<(Clock, PartPlace<'_>)>
    ensures { MatchOption result (reading.clock_in (reading.pieces_at place.entry) ≡ None) (λ r. reading.clock_in (reading.pieces_at place.entry) ≡ Some (r.0, reading.pieces_at r.1)) }
{
    let (hour, rest) = number(2, 2, place)?;
    let (_, rest) = colon(rest)?;
    let (minute, rest) = number(2, 2, rest)?;
    let (second, rest) = second(rest)?;
    Some((
        Clock {
            hour,
            minute,
            second,
        },
        rest,
    ))
}
