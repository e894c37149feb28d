// Moments that can be written as dates.
ghost use Rattle.std.specs.Prelude.{◌≡◌, ◌≤ℤ◌, negsuc, pos, option_map};
ghost use Rattle.header_dates.specs.Dates as dates;
ghost use Rattle.zoned_moments.specs.Zoned.{IsZoned, utc_moment};

use header_dates::{Clock, Day, Moment, moment_of};

/// The seconds from the first of January of the year 0 to 1970-01-01.
pub(crate) const SECONDS_TO_EPOCH: i64 = 62_167_219_200;

/// The last second of the year 9999, since 1970-01-01.
const LAST_SECOND: i64 = 253_402_300_799;

/// A moment whose zone is less than a day off, and which is in the years 0 to 9999 there: four digits tell its year (RFC 5322
/// section 3.3).
#[derive(Clone, Copy)]
pub struct ZonedMoment {
    pub moment: Moment,
    pub ghost zoned: { IsZoned moment },
}

/// The second in UTC; outside the years 0 to 9999 the nearest of them.
pub fn in_utc(seconds: i64) -> ZonedMoment
    ensures { result.moment ≡ utc_moment seconds }
{
    ZonedMoment {
        moment: Moment {
            seconds: seconds.clamp(-SECONDS_TO_EPOCH, LAST_SECOND),
            offset_minutes: 0,
        },
    }
}

/// The moment of a day and a time in a zone that is so many minutes east of UTC, where the day and the time exist.
pub fn zoned_moment(day: Day, clock: Clock, zone: i32) -> Option<ZonedMoment>
    requires west { negsuc 1438 ≤ℤ zone }
    requires east { zone ≤ℤ pos 1439 }
    ensures { option_map (λ z. z.moment) result ≡ dates.moment_of day clock zone }
{
    let moment = moment_of(day, clock, zone)?;
    Some(ZonedMoment { moment })
}
