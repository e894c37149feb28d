// Types as a client has them, and brings them up to date.
use crate::plain::KINDS;
use crate::shown::{put_row, put_rows};
use mail_state::{MailState, MailType};
use std::alloc::{AllocError, Global};
use std::collections::BTreeMap;

/// A type as a client has it, and the place up to which it has it.
#[derive(Drop)]
pub(crate) struct Copy {
    kind: MailType,
    place: u64,
    rows: BTreeMap<u64, String>,
    alloc: Global,
}

/// What stands before the counts of a Mailbox.
fn before_counts(row: &str) -> &str {
    row.split_once(':').map_or(row, |(front, _)| front)
}

impl Copy {
    fn new(alloc: Global, state: &MailState, kind: MailType) -> Result<Copy, AllocError> {
        let mut copy = Copy {
            kind,
            place: state.list(kind).place(),
            rows: BTreeMap::new(alloc),
            alloc,
        };
        copy.take(state, &state.numbers(kind)?, false)?;
        Ok(copy)
    }

    /// Takes what is served of these numbers now: whether it differs in nothing but its counts, where that is told.
    fn take(
        &mut self,
        state: &MailState,
        numbers: &[u64],
        counts_only: bool,
    ) -> Result<bool, AllocError> {
        let mut is_told = true;
        for number in numbers {
            let mut now = String::new(self.alloc);
            put_row(&mut now, state, self.kind, *number, false)?;
            let old = self.rows.get(number).map_or("", |row| row);
            let is_front = !old.is_empty() && before_counts(old) == before_counts(&now);
            is_told = is_told && (!counts_only || is_front);
            if now.is_empty() {
                self.rows.remove(number);
            } else {
                self.rows.insert(*number, now)?;
            }
        }
        Ok(is_told)
    }

    /// Whether the copy has what is served.
    fn is_served(&self, state: &MailState) -> Result<bool, AllocError> {
        let mut served = String::new(self.alloc);
        put_rows(&mut served, state, self.kind, false)?;
        let mut kept = String::new(self.alloc);
        for row in self.rows.values() {
            kept.push_str(row)?;
        }
        Ok(served == kept)
    }

    /// Applies what changed since the copy's place: whether it has what is served then.
    fn bring_up(&mut self, state: &MailState) -> Result<bool, AllocError> {
        let Ok(changes) = state.list(self.kind).since(self.place, None) else {
            return Ok(false);
        };
        let counts_only = changes.counts_only;
        self.take(state, changes.created.as_slice(), false)?;
        let is_told = self.take(state, changes.updated.as_slice(), counts_only)?;
        self.take(state, changes.destroyed.as_slice(), false)?;
        let may_be_counts = !counts_only || self.kind == MailType::Mailbox;
        Ok(is_told && may_be_counts && self.is_served(state)?)
    }
}

/// Keeps a copy of each type.
pub(crate) fn keep_copies(
    alloc: Global,
    copies: &mut Vec<Copy>,
    state: &MailState,
) -> Result<(), AllocError> {
    for kind in KINDS {
        copies.push(Copy::new(alloc, state, kind)?)?;
    }
    Ok(())
}

/// Brings copies up to date: whether all have what is served then.
pub(crate) fn are_brought_up(copies: &mut [Copy], state: &MailState) -> Result<bool, AllocError> {
    for copy in copies {
        if !copy.bring_up(state)? {
            return Ok(false);
        }
    }
    Ok(true)
}
