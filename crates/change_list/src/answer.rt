// What changed after a place, as it is answered.
use octets::Listed;

/// What changed after a place (RFC 8620, section 5.2). Each list is ascending.
#[derive(Debug, PartialEq, Drop)]
pub struct Changes {
    /// The place up to which these are the changes.
    pub to: u64,
    /// Ids that aren't there at the place asked about, and are at `to`.
    pub created: Listed<u64>,
    /// Ids that are there at both places and were touched in between, also where their values are equal again.
    pub updated: Listed<u64>,
    /// Ids that are there at the place asked about, and aren't at `to`.
    pub destroyed: Listed<u64>,
    /// Whether there are updated ids, and counts are all that changed in them (RFC 8621, section 2.2).
    pub counts_only: bool,
}
