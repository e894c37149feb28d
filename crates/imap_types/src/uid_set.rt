// Sets of UIDs (RFC 9051 section 9, sequence-set).
ghost use Rattle.std.specs.Prelude.{IsTrue, ◌↔◌, ◌≡◌, ◌≤◌, MatchOption, ℕ, All};
ghost use Rattle.imap_types.specs.UidSets.{InRange, IsWithin, Holds, HoldsOnly};

use octets::Listed;

/// The UIDs from `first` to `last`, both among them.
#[derive(Clone, Copy, Debug, PartialEq, Drop)]
pub struct UidRange {
    /// In a set that was read it is not 0, and at most `last`.
    pub first: u32,
    /// The range holds nothing where it is below `first`.
    pub last: u32,
}

/// UIDs by ranges, in the order in which they were told.
#[derive(Debug, PartialEq, Drop)]
pub struct UidSet {
    /// They may overlap, and a lesser one may come later.
    pub ranges: Listed<UidRange>,
}

impl UidRange {
    fn holds(&self, uid: u32) -> bool
        ensures { IsTrue result ↔ InRange self.now uid }
    {
        self.first <= uid && uid <= self.last
    }

    /// Whether it holds no UID but this one.
    #[tactic(auto, unfolding(crate::specs::UidSets::IsWithin))]
    fn is_within(&self, uid: u32) -> bool
        ensures { IsTrue result ↔ IsWithin uid self.now }
    {
        self.last < self.first || self.first == uid && self.last == uid
    }
}

/// Some UID of the ranges.
fn some_uid(ranges: &[UidRange]) -> Option<u32>
    ensures { MatchOption result ((uid : ℕ) → Holds ranges.now uid → ⊥) (λ uid. Holds ranges.now uid) }
{
    match ranges.iter().find(|range| range.first <= range.last) {
        Some(range) => Some(range.first),
        None => None,
    }
}

/// Whether the ranges hold no UID but this one.
fn are_within(ranges: &[UidRange], uid: u32) -> bool
    ensures { IsTrue result ↔ All (IsWithin uid) ranges.now }
{
    ranges.iter().all(|range| range.is_within(uid))
}

fn only_in(ranges: &[UidRange]) -> Option<u32>
    ensures { MatchOption result ((uid : ℕ) → HoldsOnly ranges.now uid → ⊥) (λ uid. HoldsOnly ranges.now uid) }
{
    match some_uid(ranges) {
        None => None,
        Some(uid) => {
            if are_within(ranges, uid) {
                Some(uid)
            } else {
                None
            }
        }
    }
}

impl UidSet {
    /// Whether the UID is in one of the ranges.
    pub fn contains(&self, uid: u32) -> bool
        ensures { IsTrue result ↔ Holds self.now.ranges uid }
    {
        self.ranges.as_slice().iter().any(|range| range.holds(uid))
    }

    /// The one UID that the set holds; None where it holds none or several.
    pub fn only(&self) -> Option<u32>
        ensures { MatchOption result ((uid : ℕ) → HoldsOnly self.now.ranges uid → ⊥) (λ uid. HoldsOnly self.now.ranges uid) }
    {
        only_in(self.ranges.as_slice())
    }
}
