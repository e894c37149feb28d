// Counts of faults, which stay at their last value.
ghost use Rattle.std.specs.Prelude.{◌≡◌, ◌≤◌};
ghost use Rattle.gate_host.specs.Faults.{one_more};

/// The count after one more fault.
pub(crate) fn raised(count: u64) -> u64
    ensures value { result ≡ one_more count }
    ensures later { count ≤ result }
{
    count.saturating_add(1)
}
