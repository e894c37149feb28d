// The text of a moment in its zone.
ghost use Rattle.std.specs.Prelude.{◌≡◌, ◌<◌, ◌≤◌, ◌+◌, ◌/◌, ◌*◌, ◌++◌, ◌∷◌, true, pos, negsuc, ◌+ℤ◌, ◌*ℤ◌, ◌≤ℤ◌, IfOk, OnOk, string_bytes};
ghost use Rattle.jiff_core.specs.Date.{epoch_day};
ghost use Rattle.header_dates.specs.Dates as dates;
ghost use Rattle.field_values.specs.MomentText as texts;

use header_dates::{Clock, Day, Moment};
use jiff_core::civil::Date;
use std::alloc::{AllocError, Global};

/// The seconds from the first of January of the year 0 to 1970-01-01.
pub(crate) const SECONDS_TO_EPOCH: i64 = 62_167_219_200;

/// The days from the first of January of the year 0 to 1970-01-01.
const DAYS_TO_EPOCH: i64 = 719_528;

const SECONDS_OF_DAY: u64 = 86_400;

/// The seconds on the clocks of its zone, from the first of January of the year 0 on.
fn local_seconds(moment: Moment) -> u64
    requires { texts.IsShown moment }
    ensures value { pos result ≡ texts.local_seconds moment }
    ensures small { result < 315569520000 }
{
    (moment.seconds + moment.offset_minutes as i64 * 60 + SECONDS_TO_EPOCH) as u64
}

/// The date n days after the first of January of the year 0.
fn date_at(days: u64) -> Date
    requires { days < 3652425 }
    ensures year { pos 0 ≤ℤ result.year }
    ensures number { epoch_day result +ℤ pos 719528 ≡ pos days }
{
    let Ok(date) = Date::from_unix_epoch_day(days as i64 - DAYS_TO_EPOCH) else {
        unreachable!();
    };
    date
}

/// The year of a date from the year 0 on.
fn year_of(date: Date) -> u32
    requires { pos 0 ≤ℤ date.year }
    ensures { pos result ≡ date.year }
{
    date.year as u32
}

/// The day of the calendar, n days after the first of January of the year 0.
fn day_at(days: u64) -> Day
    requires { days < 3652425 }
    ensures exists { dates.day_exists result ≡ true }
    ensures number { dates.day_number result +ℤ pos 719528 ≡ pos days }
{
    let date = date_at(days);
    Day {
        year: year_of(date),
        month: date.month as u32,
        day: date.day as u32,
    }
}

/// The time of the day n seconds after midnight.
fn clock_at(seconds: u32) -> Clock
    requires { seconds < 86400 }
    ensures exists { dates.clock_exists result ≡ true }
    ensures number { dates.seconds_of_day result ≡ seconds }
    ensures no_leap { result.second ≤ 59 }
{
    Clock {
        hour: seconds / 3600,
        minute: seconds / 60 % 60,
        second: seconds % 60,
    }
}

fn digit(number: u32) -> char
    requires { number < 10 }
    ensures value { result ≡ 48 + number }
    ensures ascii { result < 128 }
{
    char::from(b'0' + number as u8)
}

fn push_two_digits(text: &mut String, number: u32) -> Result<(), AllocError>
    requires { number < 100 }
    ensures { OnOk result (string_bytes text.new ≡ string_bytes text.old ++ texts.two_digits number) }
{
    text.push(digit(number / 10))?;
    text.push(digit(number % 10))
}

/// yyyy-mm-dd
#[tactic(auto, unfolding(crate::specs::MomentText::day_text))]
fn push_day(text: &mut String, day: Day) -> Result<(), AllocError>
    requires { dates.day_exists day ≡ true }
    ensures { OnOk result (string_bytes text.new ≡ string_bytes text.old ++ texts.day_text day) }
{
    push_two_digits(text, day.year / 100)?;
    push_two_digits(text, day.year % 100)?;
    text.push('-')?;
    push_two_digits(text, day.month)?;
    text.push('-')?;
    push_two_digits(text, day.day)
}

/// hh:mm:ss
#[tactic(auto, unfolding(crate::specs::MomentText::clock_text))]
fn push_clock(text: &mut String, clock: Clock) -> Result<(), AllocError>
    requires { dates.clock_exists clock ≡ true }
    ensures { OnOk result (string_bytes text.new ≡ string_bytes text.old ++ texts.clock_text clock) }
{
    push_two_digits(text, clock.hour)?;
    text.push(':')?;
    push_two_digits(text, clock.minute)?;
    text.push(':')?;
    push_two_digits(text, clock.second)
}

/// hh:mm
fn push_hours(text: &mut String, minutes: u32) -> Result<(), AllocError>
    requires { minutes < 6000 }
    ensures { OnOk result (string_bytes text.new ≡ string_bytes text.old ++ texts.hours_text minutes) }
{
    push_two_digits(text, minutes / 60)?;
    text.push(':')?;
    push_two_digits(text, minutes % 60)
}

/// Z, or +hh:mm or -hh:mm.
#[tactic(auto, unfolding(crate::specs::MomentText::zone_text))]
fn push_zone(text: &mut String, offset_minutes: i32) -> Result<(), AllocError>
    requires low { negsuc 1438 ≤ℤ offset_minutes }
    requires high { offset_minutes ≤ℤ pos 1439 }
    ensures { OnOk result (string_bytes text.new ≡ string_bytes text.old ++ texts.zone_text offset_minutes) }
{
    if offset_minutes == 0 {
        text.push('Z')
    } else if offset_minutes > 0 {
        text.push('+')?;
        push_hours(text, offset_minutes as u32)
    } else {
        text.push('-')?;
        push_hours(text, offset_minutes.unsigned_abs())
    }
}

/// yyyy-mm-ddThh:mm:ss and the zone.
#[tactic(auto, unfolding(crate::specs::MomentText::local_text))]
fn push_local(
    text: &mut String,
    day: Day,
    clock: Clock,
    offset_minutes: i32,
) -> Result<(), AllocError>
    requires day { dates.day_exists day ≡ true }
    requires clock { dates.clock_exists clock ≡ true }
    requires low { negsuc 1438 ≤ℤ offset_minutes }
    requires high { offset_minutes ≤ℤ pos 1439 }
    ensures { OnOk result (string_bytes text.new ≡ string_bytes text.old ++ texts.local_text day clock offset_minutes) }
{
    push_day(text, day)?;
    text.push('T')?;
    push_clock(text, clock)?;
    push_zone(text, offset_minutes)
}

/// The date and the time in the moment's zone, as `2024-01-02T10:00:00+01:00`, or with `Z` for UTC.
pub(crate) fn moment_text(alloc: Global, moment: Moment) -> Result<String, AllocError>
    requires { texts.IsShown moment }
    ensures { IfOk result (λ text. texts.IsMomentText moment (string_bytes text)) }
{
    let seconds = local_seconds(moment);
    let day = day_at(seconds / SECONDS_OF_DAY);
    let clock = clock_at((seconds % SECONDS_OF_DAY) as u32);
    let mut text = String::new(alloc);
    push_local(&mut text, day, clock, moment.offset_minutes)?;
    Ok(text)
}
