// The monotonic clock.
ghost use Rattle.std.specs.Prelude.{Option, ℕ};

use std::rt::Clock;

/// A clock that never goes back.
pub trait Ticks {
    /// The milliseconds that a look may give, None where it fails, between the clock before it and after it. A caller knows
    /// nothing else of it: so what one look gave is never what another one gives.
    ghost reads: { Self → Option ℕ → Self → Type 0 };

    /// The milliseconds since some moment; none where the clock cannot be read.
    fn milliseconds(&mut self) -> Option<u64>
        ensures { reads self.old result self.new };
}

impl Ticks for HostRuntime {
    ghost use Rattle.std.specs.Prelude.{⊤};

    ghost reads = { λ _ _ _. ⊤ };

    fn milliseconds(&mut self) -> Option<u64> {
        monotonic(self)
    }
}

/// The toolchain's monotonic clock.
fn monotonic<C: Clock>(clock: &C) -> Option<u64> {
    let time = clock.monotonic().ok()?;
    u64::try_from(time.as_millis()).ok()
}
