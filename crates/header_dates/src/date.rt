// Moments, days and times of the day, as a date gives them.
/// A moment, and the zone in which it was written.
#[derive(Clone, Copy, PartialEq, Eq, Debug)]
pub struct Moment {
    /// Seconds since 1970-01-01T00:00:00Z.
    pub seconds: i64,
    /// How far the zone is east of UTC.
    pub offset_minutes: i32,
}

/// A day of the calendar, which may not exist.
#[derive(Clone, Copy)]
pub struct Day {
    /// With its century, also where the date has fewer than four digits (RFC 5322 section 4.3).
    pub year: u32,
    /// 1 is January.
    pub month: u32,
    /// Of the month, from 1 on where it exists.
    pub day: u32,
}

/// A time of the day, which may not exist.
#[derive(Clone, Copy)]
pub struct Clock {
    /// At most 23 where it exists.
    pub hour: u32,
    /// At most 59 where it exists.
    pub minute: u32,
    /// At most 60 where it exists, which is a leap second; 0 where a date tells no seconds.
    pub second: u32,
}
