// The day and the time of moments in their zones.
ghost use Rattle.std.specs.Prelude.{◌≡◌, ◌<◌, ◌≤◌, true, pos, ◌+ℤ◌, ◌≤ℤ◌};
ghost use Rattle.jiff_core.specs.Calendar.{weekday_number};
ghost use Rattle.jiff_core.specs.Date.{epoch_day};
ghost use Rattle.jiff_core.specs.Weekday.{monday_zero};
ghost use Rattle.header_dates.specs.Dates as dates;
ghost use Rattle.zoned_moments.specs.Zoned.{IsLocalTime, local_seconds as local_seconds_of};

use crate::moments::{SECONDS_TO_EPOCH, ZonedMoment};
use header_dates::{Clock, Day};
use jiff_core::civil::{Date, Weekday};

/// The days from the first of January of the year 0 to 1970-01-01.
const DAYS_TO_EPOCH: i64 = 719_528;

const SECONDS_OF_DAY: u64 = 86_400;

/// The seconds on the clocks of its zone, from the first of January of the year 0 on.
fn local_seconds(zoned: ZonedMoment) -> u64
    ensures value { pos result ≡ local_seconds_of zoned.moment }
    ensures small { result < 315569520000 }
{
    let moment = zoned.moment;
    (moment.seconds + moment.offset_minutes as i64 * 60 + SECONDS_TO_EPOCH) as u64
}

/// The date n days after the first of January of the year 0.
fn date_at(days: u64) -> Date
    requires { days < 3652425 }
    ensures year { pos 0 ≤ℤ result.year }
    ensures number { epoch_day result +ℤ pos 719528 ≡ pos days }
{
    let Ok(date) = Date::from_unix_epoch_day(days as i64 - DAYS_TO_EPOCH) else {
        unreachable!();
    };
    date
}

/// The year of a date from the year 0 on.
fn year_of(date: Date) -> u32
    requires { pos 0 ≤ℤ date.year }
    ensures { pos result ≡ date.year }
{
    date.year as u32
}

/// The day of a date, n days after the first of January of the year 0.
fn day_of(date: Date) -> Day
    requires { pos 0 ≤ℤ date.year }
    ensures exists { dates.day_exists result ≡ true }
    ensures number { dates.day_number result ≡ epoch_day date }
{
    Day {
        year: year_of(date),
        month: date.month as u32,
        day: date.day as u32,
    }
}

/// The time of the day n seconds after midnight.
fn clock_at(seconds: u32) -> Clock
    requires { seconds < 86400 }
    ensures exists { dates.clock_exists result ≡ true }
    ensures number { dates.seconds_of_day result ≡ seconds }
    ensures no_leap { result.second ≤ 59 }
{
    Clock {
        hour: seconds / 3600,
        minute: seconds / 60 % 60,
        second: seconds % 60,
    }
}

/// What clocks in a zone show.
#[derive(Clone, Copy)]
pub struct LocalTime {
    pub weekday: Weekday,
    pub day: Day,
    pub clock: Clock,
}

/// What clocks in its zone show then.
pub fn local_time(zoned: ZonedMoment) -> LocalTime
    ensures local { IsLocalTime zoned.moment result.day result.clock }
    ensures day { dates.day_exists result.day ≡ true }
    ensures clock { dates.clock_exists result.clock ≡ true }
    ensures weekday { monday_zero result.weekday ≡ weekday_number (dates.day_number result.day) }
{
    let seconds = local_seconds(zoned);
    let date = date_at(seconds / SECONDS_OF_DAY);
    let clock = clock_at((seconds % SECONDS_OF_DAY) as u32);
    LocalTime {
        weekday: date.weekday(),
        day: day_of(date),
        clock,
    }
}
