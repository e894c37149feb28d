// The moments of dates.
ghost use Rattle.std.specs.Prelude.{◌≡◌, ◌<◌, ◌≤◌, true, false, negsuc, pos, ◌+ℤ◌, ◌-ℤ◌, ◌*ℤ◌, ◌≤ℤ◌, IfOk, IfSome, MatchOption, Some, None};
ghost use Rattle.jiff_core.specs.Calendar.{IsEpochDay};
ghost use Rattle.header_dates.specs.Dates as dates;
ghost use Rattle.header_dates.specs.reading.DateReading as reading;

use crate::date::{Clock, Day, Moment};
use crate::dates::{behind_day_name, clock, day};
use crate::pieces::{PartPlace, next_piece};
use crate::zones::zone;
use header_tokens::{Alphabet, is_row};
use jiff_core::civil::Date;
use mail_header::as_raw;
use std::alloc::{AllocError, Global};

/// The last year of which there are dates: four digits tell it.
pub const MAX_YEAR: u32 = 9_999;

const SECONDS_OF_DAY: u32 = 86_400;

const SECONDS_OF_HOUR: u32 = 3_600;

const SECONDS_OF_MINUTE: u32 = 60;

fn clock_exists(clock: Clock) -> bool
    ensures { result ≡ dates.clock_exists clock }
{
    clock.hour <= 23 && clock.minute <= 59 && clock.second <= 60
}

/// The seconds since midnight. Second 60 is 59.
fn seconds_of_day(clock: Clock) -> u32
    requires hour { clock.hour ≤ 23 }
    requires minute { clock.minute ≤ 59 }
    ensures value { result ≡ dates.seconds_of_day clock }
    ensures small { result < 86400 }
{
    clock.hour * SECONDS_OF_HOUR + clock.minute * SECONDS_OF_MINUTE + clock.second.min(59)
}

/// The days since 1970-01-01 of a day, where the calendar has it.
fn day_number(day: Day) -> Option<i32>
    ensures value { MatchOption result (dates.day_exists day ≡ false) (λ n. (dates.day_exists day ≡ true) × (n ≡ dates.day_number day)) }
    ensures bound { IfSome result IsEpochDay }
{
    if day.year > MAX_YEAR {
        return None;
    }
    if day.month > 12 {
        return None;
    }
    if day.day > 31 {
        return None;
    }
    match Date::new(day.year as i16, day.month as i8, day.day as i8) {
        Err(_) => None,
        Ok(date) => Some(date.to_unix_epoch_day()),
    }
}

/// The seconds since 1970 in UTC.
fn seconds(day_number: i32, seconds_of_day: u32, zone: i32) -> i64
    requires day { IsEpochDay day_number }
    requires low { negsuc 1439 ≤ℤ zone }
    requires high { zone ≤ℤ pos 1440 }
    requires small { seconds_of_day < 86400 }
    ensures value { result ≡ day_number *ℤ pos 86400 +ℤ pos seconds_of_day -ℤ (zone *ℤ pos 60) }
    ensures bound { result ≤ℤ pos 253402387199 }
{
    day_number as i64 * SECONDS_OF_DAY as i64 + seconds_of_day as i64
        - zone as i64 * SECONDS_OF_MINUTE as i64
}

/// The moment of a day, a time and a zone in minutes east of UTC, where the day and the time exist. A leap second, which
/// is second 60 (RFC 5322 section 3.3), is read as second 59. No moment is later than a day after the year 9999.
pub fn moment_of(day: Day, clock: Clock, zone: i32) -> Option<Moment>
    requires low { negsuc 1439 ≤ℤ zone }
    requires high { zone ≤ℤ pos 1440 }
    ensures value { result ≡ dates.moment_of day clock zone }
    ensures bound { IfSome result (λ m. m.seconds ≤ℤ pos 253402387199) }
{
    if !clock_exists(clock) {
        return None;
    }
    match day_number(day) {
        None => None,
        Some(number) => Some(Moment {
            seconds: seconds(number, seconds_of_day(clock), zone),
            offset_minutes: zone,
        }),
    }
}

/// The moment, where nothing is left at the place.
fn at_end(place: PartPlace<'_>, moment: Option<Moment>) -> Option<Moment>
    ensures { result ≡ reading.at_end (reading.pieces_at place.entry) moment }
{
    match next_piece(place) {
        None => moment,
        Some(_) => None,
    }
}

/// The moment of the date at the place.
fn date_at(place: PartPlace<'_>) -> Option<Moment>
    ensures { result ≡ reading.date_in (reading.pieces_at place.entry) }
{
    let (day, rest) = day(place)?;
    let (clock, rest) = clock(rest)?;
    let (zone, rest) = zone(rest)?;
    at_end(rest, moment_of(day, clock, zone))
}

/// The moment of a raw value that is a date (RFC 5322 sections 3.3 and 4.3), of which comments and folding are
/// passed over. The day of the week isn't checked, and no white space is needed between a number and a word. There is
/// no reading where the date doesn't exist.
pub fn as_date(alloc: Global, raw: &[u8]) -> Result<Option<Moment>, AllocError>
    ensures { IfOk result (λ m. dates.IsDateForm raw.now m) }
{
    let text = as_raw(alloc, raw)?;
    let text = text.as_slice();
    if !is_row(Alphabet::Mail, text) {
        return Ok(None);
    }
    let rest = behind_day_name(text);
    Ok(date_at(PartPlace { atom: &[], rest }))
}
