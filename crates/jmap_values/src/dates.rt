// Dates (RFC 8620 section 1.4).
ghost use Rattle.std.specs.Prelude.{◌≡◌, ◌≤◌, IfSome, option_map};
ghost use Rattle.jmap_values.specs.Dates as dates;

use crate::zones::{after, fraction_at, number_at, two_digits_after, zone_in};
use header_dates::{Clock, Day, moment_of};
use zoned_moments::{ZonedMoment, zoned_moment};

/// How many digits a year has.
const YEAR_DIGITS: usize = 4;

/// The last second of the year 9999, since 1970-01-01T00:00:00Z.
const LAST_SECOND: i64 = 253_402_300_799;

/// Three numbers with marks between them, and what follows them.
#[derive(Clone, Copy)]
struct ThreeNumbers<'a> {
    first: u32,
    second: u32,
    third: u32,
    rest: &'a [u8],
}

/// The three numbers at the front: the first of so many digits, the others of two.
fn three_numbers(digits: usize, mark: u8, text: &[u8]) -> Option<ThreeNumbers<'_>>
    requires { digits ≤ 4 }
    ensures { option_map (λ n. record { first = n.first; second = n.second; third = n.third; rest = n.rest.now }) result
        ≡ dates.three_numbers digits mark text.now }
{
    let (first, rest) = number_at(digits, text)?;
    let (second, rest) = two_digits_after(mark, rest)?;
    let (third, rest) = two_digits_after(mark, rest)?;
    Some(ThreeNumbers {
        first,
        second,
        third,
        rest,
    })
}

fn day_of(numbers: &ThreeNumbers<'_>) -> Day
    ensures { result ≡ record { year = numbers.now.first; month = numbers.now.second; day = numbers.now.third } }
{
    Day {
        year: numbers.first,
        month: numbers.second,
        day: numbers.third,
    }
}

fn clock_of(numbers: &ThreeNumbers<'_>) -> Clock
    ensures { result ≡ record { hour = numbers.now.first; minute = numbers.now.second; second = numbers.now.third } }
{
    Clock {
        hour: numbers.first,
        minute: numbers.second,
        second: numbers.third,
    }
}

/// The moment of a date in its zone. A leap second, which is second 60, is second 59 of it, and a fraction is dropped.
#[tactic(auto, unfolding(crate::specs::Dates::moment_in))]
pub fn moment_of_date(text: &[u8]) -> Option<ZonedMoment>
    ensures { option_map (λ z. z.moment) result ≡ dates.moment_in text.now }
{
    let date = three_numbers(YEAR_DIGITS, b'-', text)?;
    let time = three_numbers(2, b':', after(b'T', date.rest)?)?;
    let (_, rest) = fraction_at(time.rest)?;
    let zone = zone_in(rest)?;
    zoned_moment(day_of(&date), clock_of(&time), zone)
}

fn are_zeros(digits: &[u8]) -> bool
    ensures { result ≡ dates.are_zeros digits.now }
{
    digits.iter().all(|digit| *digit == b'0')
}

/// How many whole seconds a fraction is, rounded up.
fn rounded_up(digits: &[u8]) -> u32
    ensures value { result ≡ dates.rounded_up digits.now }
    ensures small { result ≤ 1 }
{
    if are_zeros(digits) { 0 } else { 1 }
}

/// How many seconds a time is after that of its moment: second 60 is one after second 59, as which moments have it.
fn after_59(clock: Clock) -> u32
    ensures value { result ≡ dates.after_59 clock }
    ensures small { result ≤ 1 }
{
    if clock.second == 60 { 1 } else { 0 }
}

/// The second, where it is no later than the year 9999.
fn in_four_digits(second: i64) -> Option<i64>
    ensures { result ≡ dates.in_four_digits second }
{
    if second <= LAST_SECOND {
        Some(second)
    } else {
        None
    }
}

/// The seconds since 1970-01-01T00:00:00Z of a day and a time in UTC, where they exist, and so many more.
fn seconds_on(day: Day, clock: Clock, more: u32) -> Option<i64>
    requires { more ≤ 1 }
    ensures { result ≡ dates.seconds_on day clock more }
{
    match moment_of(day, clock, 0) {
        None => None,
        Some(moment) => Some(moment.seconds + (after_59(clock) + more) as i64),
    }
}

/// Whether the zone is UTC by its letter.
fn is_utc(zone: &[u8]) -> bool
    ensures { result ≡ dates.is_utc zone.now }
{
    zone == b"Z".as_slice()
}

/// The first whole second from a date in UTC on, in seconds since 1970-01-01T00:00:00Z.
#[tactic(auto, unfolding(crate::specs::Dates::first_second_from))]
pub fn first_second_from(text: &[u8]) -> Option<i64>
    ensures { result ≡ dates.first_second_from text.now }
{
    let date = three_numbers(YEAR_DIGITS, b'-', text)?;
    let time = three_numbers(2, b':', after(b'T', date.rest)?)?;
    let (digits, rest) = fraction_at(time.rest)?;
    if is_utc(rest) {
        seconds_on(day_of(&date), clock_of(&time), rounded_up(digits))
    } else {
        None
    }
}

/// The same where it is no later than the year 9999.
#[tactic(auto, unfolding(crate::specs::Dates::utc_seconds_in))]
pub fn utc_seconds(text: &[u8]) -> Option<i64>
    ensures { result ≡ dates.utc_seconds_in text.now }
{
    in_four_digits(first_second_from(text)?)
}
