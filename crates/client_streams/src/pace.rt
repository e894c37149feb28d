// How long octets may take that come, or are taken, one after another.
ghost use Rattle.std.specs.Prelude.{◌≡◌, ◌<◌, ◌≤◌, ◌+◌, ◌-◌, IfSome, IfNone};
ghost use Rattle.client_streams.specs.Patience as spec;

/// How many milliseconds octets may take, beside those that their number gives.
pub const PATIENCE_MILLISECONDS: u64 = 60_000;

/// How many milliseconds a client is waited for at once as it is given octets; one that takes none of them in this time is late.
pub const STALL_MILLISECONDS: u64 = 10_000;

/// How many octets a millisecond adds at least: 10,000 a second.
pub const MIN_OCTETS_PER_MILLISECOND: u64 = 10;

/// Octets since a moment.
#[derive(Clone, Copy, Debug, PartialEq, Eq)]
pub struct Pace {
    /// The moment, in milliseconds of the monotonic clock.
    pub since: u64,
    /// How many octets have come since.
    pub octets: u64,
}

impl Pace {
    /// When the next octet is due, in milliseconds of the monotonic clock.
    pub fn due(&self) -> u64
        ensures { result ≡ spec.pace_due self.now }
    {
        self.since.saturating_add(patience(self.octets))
    }

    /// Octets more.
    pub fn add(&mut self, count: usize)
        ensures { self.new ≡ spec.with_octets count self.old }
    {
        self.octets = self.octets.saturating_add(count as u64);
    }
}

/// How many milliseconds octets may take, by how many there were.
pub fn patience(octets: u64) -> u64
    ensures { result ≡ spec.patience octets }
{
    PATIENCE_MILLISECONDS.saturating_add(octets / MIN_OCTETS_PER_MILLISECOND)
}

/// How many milliseconds are left until then; none where the moment has come.
pub fn left(due: u64, now: u64) -> Option<u64>
    ensures some { IfSome result (λ limit. (0 < limit) × (now + limit ≡ due)) }
    ensures none { IfNone result (due ≤ now) }
{
    if now < due { Some(due - now) } else { None }
}
