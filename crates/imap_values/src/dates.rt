// The date of an APPEND (RFC 9051 section 9, date-time).
ghost use Rattle.std.specs.Prelude.{◌≡◌, ◌≤◌, ◌++◌, pos, ◌-ℤ◌, OnOk};
ghost use Rattle.imap_types.specs.Dates as dates;

use jiff_core::civil::Date;
use std::alloc::AllocError;

/// The seconds from the first of January of the year 0 to 1970-01-01.
pub const SECONDS_TO_EPOCH: i64 = 62_167_219_200;

/// The days from the first of January of the year 0 to 1970-01-01.
pub const DAYS_TO_EPOCH: i64 = 719_528;

/// The last second of the year 9999, since 1970-01-01.
const LAST_SECOND: i64 = 253_402_300_799;

/// The seconds of a day.
pub const SECONDS_OF_DAY: u64 = 86_400;

/// The seconds of an hour.
pub const SECONDS_OF_HOUR: u32 = 3_600;

/// The seconds of a minute.
pub const SECONDS_OF_MINUTE: u32 = 60;

/// The minutes of an hour.
const MINUTES_OF_HOUR: u32 = 60;

/// The seconds from the year 0 on, kept within the years 0 to 9999.
fn seconds_from(date: i64) -> u64
    ensures value { result ≡ dates.seconds_from date }
    ensures most { result ≤ 315569519999 }
{
    if date < -SECONDS_TO_EPOCH {
        0
    } else if LAST_SECOND < date {
        (LAST_SECOND + SECONDS_TO_EPOCH) as u64
    } else {
        (date + SECONDS_TO_EPOCH) as u64
    }
}

/// The days since 1970-01-01 of the day n days after the first of January of the year 0.
fn epoch_day_at(days: u64) -> i64
    requires { days ≤ 3652424 }
    ensures { result ≡ pos days -ℤ pos 719528 }
{
    days as i64 - DAYS_TO_EPOCH
}

/// The date n days after the first of January of the year 0.
fn date_at(days: u64) -> Date
    requires { days ≤ 3652424 }
    ensures year { result.year ≡ pos (dates.day_at days).year }
    ensures month { result.month ≡ (dates.day_at days).month }
    ensures day { result.day ≡ (dates.day_at days).day }
    ensures small { (dates.day_at days).year ≤ 9999 }
{
    let day = epoch_day_at(days);
    let Ok(date) = Date::from_unix_epoch_day(day) else {
        return Date::ZERO;
    };
    date
}

/// Adds the two digits of a number.
fn push_two_digits(out: &mut Vec<u8>, number: u32) -> Result<(), AllocError>
    requires { number ≤ 99 }
    ensures { OnOk result (out.new.items ≡ out.old.items ++ dates.two_digits number) }
{
    out.push(b'0' + (number / 10) as u8)?;
    out.push(b'0' + (number % 10) as u8)?;
    Ok(())
}

/// The name of a month, 1 to 12.
fn month_name(month: u8) -> &'static [u8]
    ensures { result.now ≡ dates.month_name month }
{
    match month {
        1 => b"Jan",
        2 => b"Feb",
        3 => b"Mar",
        4 => b"Apr",
        5 => b"May",
        6 => b"Jun",
        7 => b"Jul",
        8 => b"Aug",
        9 => b"Sep",
        10 => b"Oct",
        11 => b"Nov",
        _ => b"Dec",
    }
}

/// Adds a day: dd-Mon-yyyy.
#[tactic(auto, unfolding(imap_types::specs::Dates::day_text))]
fn push_day(out: &mut Vec<u8>, year: u32, month: u8, day: u8) -> Result<(), AllocError>
    requires year { year ≤ 9999 }
    requires day { day ≤ 99 }
    ensures { OnOk result (out.new.items ≡ out.old.items ++ dates.day_text year month day) }
{
    push_two_digits(out, day as u32)?;
    out.push(b'-')?;
    out.extend_from_slice(month_name(month))?;
    out.push(b'-')?;
    push_two_digits(out, year / 100)?;
    push_two_digits(out, year % 100)?;
    Ok(())
}

/// Adds a time, by the seconds of its day: hh:mm:ss.
#[tactic(auto, unfolding(imap_types::specs::Dates::clock_text))]
fn push_clock(out: &mut Vec<u8>, seconds: u32) -> Result<(), AllocError>
    requires { seconds ≤ 86399 }
    ensures { OnOk result (out.new.items ≡ out.old.items ++ dates.clock_text seconds) }
{
    push_two_digits(out, seconds / SECONDS_OF_HOUR)?;
    out.push(b':')?;
    push_two_digits(out, seconds / SECONDS_OF_MINUTE % MINUTES_OF_HOUR)?;
    out.push(b':')?;
    push_two_digits(out, seconds % SECONDS_OF_MINUTE)?;
    Ok(())
}

/// Adds the date in quotes, by the seconds since 1970-01-01T00:00:00Z: DQUOTE dd-Mon-yyyy SP hh:mm:ss SP "+0000" DQUOTE.
/// One outside the years 0 to 9999 is written as the nearest within them.
#[tactic(auto, unfolding(imap_types::specs::Dates::date_text))]
pub fn push_date(out: &mut Vec<u8>, date: i64) -> Result<(), AllocError>
    ensures { OnOk result (out.new.items ≡ out.old.items ++ dates.date_text date) }
{
    let seconds = seconds_from(date);
    let day = date_at(seconds / SECONDS_OF_DAY);
    out.push(b'"')?;
    push_day(out, day.year as u32, day.month, day.day)?;
    out.push(b' ')?;
    push_clock(out, (seconds % SECONDS_OF_DAY) as u32)?;
    out.extend_from_slice(b" +0000\"")?;
    Ok(())
}
