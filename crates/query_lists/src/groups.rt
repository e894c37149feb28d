// The first row of each group.
ghost use Rattle.std.specs.Prelude.{◌≡◌, ◌||◌, ◌==◌, ℕ, IfOk, OnOk, not};
ghost use Rattle.std.specs.BTreeSet.{contains};
ghost use Rattle.std.specs.Ordering.{nat_cmp};
ghost use Rattle.query_lists.specs.Groups as groups;

use std::alloc::{AllocError, Global};
use std::collections::BTreeSet;

/// A row by its number, and the group that it is in: of an Email its Thread.
#[derive(Clone, Copy, Debug, PartialEq, Eq)]
pub struct GroupedRow {
    /// The row's number.
    pub number: u64,
    /// The group's number.
    pub group: u64,
}

/// Adds a group to those seen, and says whether it is new among them.
fn is_new(seen: &mut BTreeSet<u64>, group: u64) -> Result<bool, AllocError>
    ensures new { IfOk result (λ new. new ≡ not (contains nat_cmp seen.old group)) }
    ensures seen { OnOk result ((q : ℕ) → contains nat_cmp seen.new q ≡ (contains nat_cmp seen.old q || group == q)) }
{
    Ok(seen.insert(group)?)
}

/// Of each group the row that stands first (RFC 8621 section 4.4.3), in the order of the rows.
pub fn first_of_each(alloc: Global, rows: &[GroupedRow]) -> Result<Vec<GroupedRow>, AllocError>
    ensures { IfOk result (λ v. v.items ≡ groups.first_of_each rows.now) }
{
    let mut seen = BTreeSet::new(alloc);
    let mut first = Vec::new(alloc);
    for row in rows {
        let new = is_new(&mut seen, row.group)?;
        if new {
            first.push(*row)?;
        }
    }
    Ok(first)
}
