// Dates of messages (RFC 5322 section 3.3).
ghost use Rattle.std.specs.Prelude.{◌≡◌, ◌<◌, ◌++◌, true, pos, negsuc, ◌≤ℤ◌, IfOk, OnOk};
ghost use Rattle.jiff_core.specs.Calendar.{weekday_number};
ghost use Rattle.jiff_core.specs.Weekday.{monday_zero};
ghost use Rattle.header_dates.specs.Dates as dates;
ghost use Rattle.message_texts.specs.DateTexts as texts;

use header_dates::{Clock, Day};
use jiff_core::civil::Weekday;
use std::alloc::{AllocError, Global};
use zoned_moments::{LocalTime, ZonedMoment, local_time};

fn day_name(weekday: Weekday) -> &'static str
    ensures { result.now ≡ texts.day_name (monday_zero weekday) }
{
    match weekday {
        Weekday::Monday => "Mon",
        Weekday::Tuesday => "Tue",
        Weekday::Wednesday => "Wed",
        Weekday::Thursday => "Thu",
        Weekday::Friday => "Fri",
        Weekday::Saturday => "Sat",
        Weekday::Sunday => "Sun",
    }
}

fn month_name(month: u32) -> &'static str
    ensures { result.now ≡ texts.month_name month }
{
    match month {
        1 => "Jan",
        2 => "Feb",
        3 => "Mar",
        4 => "Apr",
        5 => "May",
        6 => "Jun",
        7 => "Jul",
        8 => "Aug",
        9 => "Sep",
        10 => "Oct",
        11 => "Nov",
        _ => "Dec",
    }
}

fn push_two_digits(text: &mut Vec<u8>, number: u32) -> Result<(), AllocError>
    requires { number < 100 }
    ensures { OnOk result (text.new.items ≡ text.old.items ++ texts.two_digits number) }
{
    text.push(b'0' + (number / 10) as u8)?;
    text.push(b'0' + (number % 10) as u8)?;
    Ok(())
}

/// dd Mon yyyy
#[tactic(auto, unfolding(crate::specs::DateTexts::day_text))]
fn push_day(text: &mut Vec<u8>, day: Day) -> Result<(), AllocError>
    requires { dates.day_exists day ≡ true }
    ensures { OnOk result (text.new.items ≡ text.old.items ++ texts.day_text day) }
{
    push_two_digits(text, day.day)?;
    text.push(b' ')?;
    text.extend_from_slice(month_name(day.month).as_bytes())?;
    text.push(b' ')?;
    push_two_digits(text, day.year / 100)?;
    push_two_digits(text, day.year % 100)
}

/// hh:mm:ss
#[tactic(auto, unfolding(crate::specs::DateTexts::clock_text))]
fn push_clock(text: &mut Vec<u8>, clock: Clock) -> Result<(), AllocError>
    requires { dates.clock_exists clock ≡ true }
    ensures { OnOk result (text.new.items ≡ text.old.items ++ texts.clock_text clock) }
{
    push_two_digits(text, clock.hour)?;
    text.push(b':')?;
    push_two_digits(text, clock.minute)?;
    text.push(b':')?;
    push_two_digits(text, clock.second)
}

/// A sign and hhmm
#[tactic(auto, unfolding(crate::specs::DateTexts::zone_text))]
fn push_zone(text: &mut Vec<u8>, offset_minutes: i32) -> Result<(), AllocError>
    requires low { negsuc 1438 ≤ℤ offset_minutes }
    requires high { offset_minutes ≤ℤ pos 1439 }
    ensures { OnOk result (text.new.items ≡ text.old.items ++ texts.zone_text offset_minutes) }
{
    text.push(if offset_minutes < 0 { b'-' } else { b'+' })?;
    let minutes = offset_minutes.unsigned_abs();
    push_two_digits(text, minutes / 60)?;
    push_two_digits(text, minutes % 60)
}

/// The day and the time, with one space in each gap.
#[tactic(auto, unfolding(crate::specs::DateTexts::date_text))]
fn push_local(text: &mut Vec<u8>, local: LocalTime, offset_minutes: i32) -> Result<(), AllocError>
    requires day { dates.day_exists local.day ≡ true }
    requires clock { dates.clock_exists local.clock ≡ true }
    requires weekday { monday_zero local.weekday ≡ weekday_number (dates.day_number local.day) }
    requires low { negsuc 1438 ≤ℤ offset_minutes }
    requires high { offset_minutes ≤ℤ pos 1439 }
    ensures { OnOk result (text.new.items ≡ text.old.items ++ texts.date_text local.day local.clock offset_minutes) }
{
    text.extend_from_slice(day_name(local.weekday).as_bytes())?;
    text.extend_from_slice(b", ")?;
    push_day(text, local.day)?;
    text.push(b' ')?;
    push_clock(text, local.clock)?;
    text.push(b' ')?;
    push_zone(text, offset_minutes)
}

/// The moment as a date in its zone, as `Tue, 02 Jan 2024 10:00:00 +0100`.
pub(crate) fn date_text(alloc: Global, zoned: ZonedMoment) -> Result<Vec<u8>, AllocError>
    ensures { IfOk result (λ v. texts.IsDateOf zoned.moment v.items) }
{
    let mut text = Vec::new(alloc);
    push_local(&mut text, local_time(zoned), zoned.moment.offset_minutes)?;
    Ok(text)
}
