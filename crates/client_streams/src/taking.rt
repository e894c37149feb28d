// How a client takes what it is sent.
ghost use Rattle.std.specs.Prelude.{◌≡◌, ◌<◌, ◌≤◌, ◌+◌, ◌-◌, IfSome, IfNone};
ghost use Rattle.client_streams.specs.Patience as spec;

use crate::pace::{STALL_MILLISECONDS, left, patience};

/// For how long a client was waited for as it was given octets, and how many it took. It counts the time that its caller says: of
/// the client that is served not that between two sends, which is the gateway's own; of one that takes what is left, that between two
/// looks.
#[derive(Clone, Copy, Debug, PartialEq, Eq)]
pub struct Taking {
    /// Milliseconds in all.
    pub waited: u64,
    /// How many octets in all.
    pub octets: u64,
}

impl Taking {
    /// Nothing was sent yet.
    pub fn new() -> Taking
        ensures { result ≡ spec.untaken }
    {
        Taking {
            waited: 0,
            octets: 0,
        }
    }

    /// For how many milliseconds the client may be waited for now; none where it is late.
    pub fn limit(&self) -> Option<u64>
        ensures some { IfSome result (λ limit. (0 < limit) × (limit ≡ spec.send_limit self.now)) }
        ensures none { IfNone result (spec.patience self.now.octets ≤ self.now.waited) }
    {
        let left = left(patience(self.octets), self.waited)?;
        Some(left.min(STALL_MILLISECONDS))
    }

    /// Octets more, for which the client was waited for between these moments.
    pub fn add(&mut self, count: usize, since: u64, now: u64)
        ensures { self.new ≡ spec.taken_more count since now self.old }
    {
        self.waited = self.waited.saturating_add(now.saturating_sub(since));
        self.octets = self.octets.saturating_add(count as u64);
    }
}
