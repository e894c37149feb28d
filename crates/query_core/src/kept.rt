// Rows that are kept of others.
ghost use Rattle.std.specs.Prelude.{◌≡◌, ◌++◌, ◌∷◌, [], OnOk, if◌then◌else◌};

use std::alloc::AllocError;

/// Adds a row, where it is taken.
pub(crate) fn keep_if<T: Copy>(rows: &mut Vec<T>, row: T, taken: bool) -> Result<(), AllocError>
    ensures { OnOk result (rows.new.items ≡ (if taken then rows.old.items ++ row ∷ [] else rows.old.items)) }
{
    if taken {
        rows.push(row)?;
    }
    Ok(())
}
