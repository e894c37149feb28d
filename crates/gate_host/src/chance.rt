// Random words.
ghost use Rattle.std.specs.Prelude.{◌≡◌, ◌+◌, ◌*◌, ◌%◌, ◌^◌};
ghost use Rattle.std.specs.Duration.{as_nanos};
ghost use Rattle.gate_host.specs.Chance.{IsDrawnWord};

use crate::Draws;
use std::rt::Clock;
use std::time::Duration;

/// A word of the host's random octets. Where it gives none, the word is made of the time and the process's number,
/// so that two runs of the program most likely differ in it.
pub fn random_word<H: Draws + Clock>(host: &H, process: u32) -> u64
    ensures { IsDrawnWord (H.draws host.now) result }
{
    match host.draw() {
        Some(octets) => u64::from_be_bytes(octets),
        None => word_of(since_1970(host), process),
    }
}

/// The time since 1970, or none where the host has no clock.
fn since_1970<C: Clock>(clock: &C) -> Duration {
    match clock.since_1970() {
        Ok(time) => time,
        Err(_) => Duration::ZERO,
    }
}

/// The time in nanoseconds with the process's number added to its upper half.
fn word_of(time: Duration, process: u32) -> u64
    ensures { result ≡ (as_nanos time + process * 2 ^ 32) % 2 ^ 64 }
{
    let nanoseconds = (time.as_nanos() % (1 << 64)) as u64;
    nanoseconds.wrapping_add(u64::from(process) << 32)
}
