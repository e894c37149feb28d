// The present moment.
ghost use Rattle.std.specs.Prelude.{Option, ℕ};
ghost use Rattle.gate_host.specs.Chance.{IsShownMoment};

use std::rt::Clock;

/// A clock that shows the date.
pub trait WallClock {
    /// The seconds that may be shown; None where the host has no clock. A caller knows nothing else of it.
    ghost shows: { Self → Option ℕ → Type 0 };

    /// Whole seconds since 1970-01-01T00:00:00Z; none where the host has no clock, or it stands before then.
    fn seconds(&self) -> Option<u64>
        ensures { shows self.now result };
}

/// The seconds of the toolchain's clock.
pub fn seconds_over<C: Clock>(clock: &C) -> Option<u64> {
    Some(clock.since_1970().ok()?.as_secs())
}

/// The present moment in seconds: 0 where the host has no clock, and the last moment of the type past that.
pub fn present_moment<H: WallClock>(host: &H) -> i64
    ensures { IsShownMoment (H.shows host.now) result }
{
    match host.seconds() {
        Some(seconds) => seconds.min(i64::MAX as u64) as i64,
        None => 0,
    }
}
