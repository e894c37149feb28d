// Numbers, fractions and zones of dates (RFC 3339 section 5.6).
ghost use Rattle.std.specs.Prelude.{◌≡◌, ◌<◌, ◌≤◌, pos, negsuc, ◌-ℤ◌, ◌≤ℤ◌, IfSome, option_map};
ghost use Rattle.jmap_values.specs.Dates as dates;

use header_dates::value_of_digits;
use text_words::{Digit, are_all, cut};

/// What follows the octet at the front.
pub(crate) fn after(octet: u8, text: &[u8]) -> Option<&[u8]>
    ensures { option_map (λ r. r.now) result ≡ dates.after octet text.now }
{
    match text {
        [] => None,
        [first, rest @ ..] => { if *first == octet { Some(rest) } else { None } }
    }
}

/// The number of so many digits at the front, and what follows them.
pub(crate) fn number_at(digits: usize, text: &[u8]) -> Option<(u32, &[u8])>
    requires { digits ≤ 4 }
    ensures { option_map (λ r. (r.0, r.1.now)) result ≡ dates.number_at digits text.now }
{
    if text.len() < digits {
        return None;
    }
    let (front, rest) = text.split_at(digits);
    if are_all(&Digit, front) {
        Some((value_of_digits(front), rest))
    } else {
        None
    }
}

/// The number of two digits behind a mark, and what follows it.
pub(crate) fn two_digits_after(mark: u8, text: &[u8]) -> Option<(u32, &[u8])>
    ensures { option_map (λ r. (r.0, r.1.now)) result ≡ dates.two_digits_after mark text.now }
{
    number_at(2, after(mark, text)?)
}

/// The digits of a fraction, and what follows them.
fn fraction_digits(text: &[u8]) -> Option<(&[u8], &[u8])>
    ensures { option_map (λ r. (r.0.now, r.1.now)) result ≡ dates.fraction_digits text.now }
{
    let (digits, rest) = cut(&Digit, text);
    if digits.is_empty() {
        None
    } else {
        Some((digits, rest))
    }
}

/// The digits of the fraction at the front, which may not be there, and what follows it.
pub(crate) fn fraction_at(text: &[u8]) -> Option<(&[u8], &[u8])>
    ensures { option_map (λ r. (r.0.now, r.1.now)) result ≡ dates.fraction_at text.now }
{
    match text {
        [] => Some((&[], &[])),
        [first, rest @ ..] => {
            if *first == b'.' {
                fraction_digits(rest)
            } else {
                Some((&[], text))
            }
        }
    }
}

/// The minutes of a zone, where there are so many hours and minutes.
fn zone_minutes(hours: u32, minutes: u32) -> Option<u32>
    ensures value { result ≡ dates.zone_minutes hours minutes }
    ensures small { IfSome result (λ n. n ≤ 1439) }
{
    if hours <= 23 && minutes <= 59 {
        Some(hours * 60 + minutes)
    } else {
        None
    }
}

/// The hours and minutes of a zone, in minutes, where nothing follows them.
fn offset_in(text: &[u8]) -> Option<u32>
    ensures value { result ≡ dates.offset_in text.now }
    ensures small { IfSome result (λ n. n ≤ 1439) }
{
    let (hours, rest) = number_at(2, text)?;
    let (minutes, rest) = two_digits_after(b':', rest)?;
    let offset = zone_minutes(hours, minutes)?;
    match rest {
        [] => Some(offset),
        [_, ..] => None,
    }
}

/// UTC, where nothing follows its letter.
fn utc(rest: &[u8]) -> Option<i32>
    ensures value { result ≡ dates.ends rest.now (pos 0) }
    ensures west { IfSome result (λ z. negsuc 1438 ≤ℤ z) }
    ensures east { IfSome result (λ z. z ≤ℤ pos 1439) }
{
    match rest {
        [] => Some(0),
        [_, ..] => None,
    }
}

fn east(text: &[u8]) -> Option<i32>
    ensures value { result ≡ option_map (λ n. pos n) (dates.offset_in text.now) }
    ensures west { IfSome result (λ z. negsuc 1438 ≤ℤ z) }
    ensures east { IfSome result (λ z. z ≤ℤ pos 1439) }
{
    match offset_in(text) {
        None => None,
        Some(minutes) => Some(minutes as i32),
    }
}

fn west(text: &[u8]) -> Option<i32>
    ensures value { result ≡ option_map (λ n. pos 0 -ℤ pos n) (dates.offset_in text.now) }
    ensures west { IfSome result (λ z. negsuc 1438 ≤ℤ z) }
    ensures east { IfSome result (λ z. z ≤ℤ pos 1439) }
{
    match offset_in(text) {
        None => None,
        Some(minutes) => Some(0 - minutes as i32),
    }
}

/// The zone that the text is, in minutes east of UTC.
pub(crate) fn zone_in(text: &[u8]) -> Option<i32>
    ensures value { result ≡ dates.zone_in text.now }
    ensures west { IfSome result (λ z. negsuc 1438 ≤ℤ z) }
    ensures east { IfSome result (λ z. z ≤ℤ pos 1439) }
{
    match text {
        [] => None,
        [first, rest @ ..] => {
            if *first == b'Z' {
                utc(rest)
            } else if *first == b'+' {
                east(rest)
            } else if *first == b'-' {
                west(rest)
            } else {
                None
            }
        }
    }
}
