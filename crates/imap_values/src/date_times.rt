// The date of a message as a store tells it (RFC 9051 section 9, date-time).
ghost use Rattle.std.specs.Prelude.{◌≡◌, ◌≤◌, map, pos, ◌-ℤ◌};
ghost use Rattle.imap_types.specs.DateTimes as dates;
ghost use Rattle.imap_types.specs.Octets as classes;
ghost use Rattle.imap_values.specs.Dates as reading;

use crate::dates::{
    DAYS_TO_EPOCH, SECONDS_OF_DAY, SECONDS_OF_HOUR, SECONDS_OF_MINUTE, SECONDS_TO_EPOCH,
};
use crate::front_octets::{before, behind, is_key, octet_at};
use imap_keywords::is_digit;
use jiff_core::civil::Date;

/// The last second of the year 9999, since the first of the year 0.
const LAST_SECOND: u64 = 315_569_519_999;

// Where the parts of a date begin, from its quote on.
const DAY_AT: usize = 1;

const MONTH_AT: usize = 4;

const CENTURY_AT: usize = 8;

const YEAR_AT: usize = 10;

const HOUR_AT: usize = 13;

const MINUTE_AT: usize = 16;

const SECOND_AT: usize = 19;

const SIGN_AT: usize = 22;

const ZONE_HOURS_AT: usize = 23;

const ZONE_MINUTES_AT: usize = 25;

/// The octets of a month's name.
const MONTH_OCTETS: usize = 3;

/// The years of a century.
const YEARS_OF_CENTURY: u32 = 100;

/// The digit at a place, or 0.
fn digit_at(bytes: &[u8], at: usize) -> u32
    ensures value { result ≡ reading.digit_at bytes.now at }
    ensures most { result ≤ 9 }
{
    let octet = octet_at(bytes, at);
    if is_digit(octet as u16) {
        (octet - b'0') as u32
    } else {
        0
    }
}

/// The number of the two digits from a place on.
fn two_at(bytes: &[u8], at: usize) -> u32
    requires { at ≤ 25 }
    ensures value { result ≡ reading.two_at bytes.now at }
    ensures most { result ≤ 99 }
{
    10 * digit_at(bytes, at) + digit_at(bytes, at + 1)
}

/// A month by its name.
#[tactic(auto, unfolding(crate::specs::Dates::month_named))]
fn month_named(name: &[u8]) -> u8
    ensures value { result ≡ reading.month_named (map classes.lower name.now) }
    ensures least { 1 ≤ result }
    ensures most { result ≤ 12 }
{
    if is_key(name, b"jan") {
        1
    } else if is_key(name, b"feb") {
        2
    } else if is_key(name, b"mar") {
        3
    } else if is_key(name, b"apr") {
        4
    } else if is_key(name, b"may") {
        5
    } else if is_key(name, b"jun") {
        6
    } else if is_key(name, b"jul") {
        7
    } else if is_key(name, b"aug") {
        8
    } else if is_key(name, b"sep") {
        9
    } else if is_key(name, b"oct") {
        10
    } else if is_key(name, b"nov") {
        11
    } else {
        12
    }
}

/// The day number of the first of the month, 0 for 1970-01-01.
fn first_of(year: u32, month: u8) -> i32
    requires year { year ≤ 9999 }
    requires first { 1 ≤ month }
    requires last { month ≤ 12 }
    ensures value { result ≡ pos (dates.days_to year month) -ℤ pos 719528 }
    ensures most { dates.days_to year month ≤ 3652424 }
{
    Date::constrain(year as i16, month, 1).to_unix_epoch_day()
}

/// The days from the first of January of the year 0 to the first of the month.
fn days_to(year: u32, month: u8) -> u64
    requires year { year ≤ 9999 }
    requires first { 1 ≤ month }
    requires last { month ≤ 12 }
    ensures value { result ≡ dates.days_to year month }
    ensures most { result ≤ 3652424 }
{
    (first_of(year, month) as i64 + DAYS_TO_EPOCH) as u64
}

/// Seconds from the year 0 on, less `off` of them, kept within the years 0 to 9999 and counted from 1970 on.
fn kept_within(on: u64, off: u64) -> i64
    ensures { result ≡ dates.kept_within on off }
{
    let seconds = on.saturating_sub(off).min(LAST_SECOND);
    seconds as i64 - SECONDS_TO_EPOCH
}

/// The seconds of a day of a month, a time of the day and a zone n seconds east or west.
fn seconds_of(year: u32, month: u8, day: u32, time: u32, east: bool, zone: u32) -> i64
    requires year { year ≤ 9999 }
    requires first { 1 ≤ month }
    requires last { month ≤ 12 }
    ensures { result ≡ dates.seconds_of year month day time east zone }
{
    let local = SECONDS_OF_DAY * (days_to(year, month) + day as u64) + time as u64;
    if east {
        kept_within(local, SECONDS_OF_DAY + zone as u64)
    } else {
        kept_within(local + zone as u64, SECONDS_OF_DAY)
    }
}

/// The date from its quote on, in seconds since 1970-01-01T00:00:00Z: DQUOTE date-day-fixed "-" date-month "-" 4DIGIT SP
/// 2DIGIT ":" 2DIGIT ":" 2DIGIT SP ("+" / "-") 4DIGIT DQUOTE.
#[tactic(auto, unfolding(crate::specs::Dates::date_in))]
pub fn date_in(bytes: &[u8]) -> i64
    ensures { result ≡ reading.date_in bytes.now }
{
    let year = YEARS_OF_CENTURY * two_at(bytes, CENTURY_AT) + two_at(bytes, YEAR_AT);
    let month = month_named(before(behind(bytes, MONTH_AT), MONTH_OCTETS));
    let day = two_at(bytes, DAY_AT);
    let time = SECONDS_OF_HOUR * two_at(bytes, HOUR_AT)
        + SECONDS_OF_MINUTE * two_at(bytes, MINUTE_AT)
        + two_at(bytes, SECOND_AT);
    let zone = SECONDS_OF_HOUR * two_at(bytes, ZONE_HOURS_AT)
        + SECONDS_OF_MINUTE * two_at(bytes, ZONE_MINUTES_AT);
    let east = octet_at(bytes, SIGN_AT) == b'+';
    seconds_of(year, month, day, time, east, zone)
}
