//! Moments in their zones, and the day and the time that clocks there show.
#![tactic(auto)]

pub mod clocks;
pub mod moments;

pub use clocks::{LocalTime, local_time};
pub use moments::{ZonedMoment, in_utc, zoned_moment};
