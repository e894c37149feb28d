// What came of answers.
use std::alloc::AllocError;

/// How many answers there were of each sort.
#[derive(Clone, Copy)]
pub(crate) struct Counts {
    /// They splice the earlier list to the present one.
    pub(crate) right: u64,
    /// Of these, those where the two lists differ.
    pub(crate) changed: u64,
    /// The ids that they take out and put in.
    pub(crate) removed: u64,
    pub(crate) added: u64,
    /// Not calculated, since others of a Thread count.
    pub(crate) threads: u64,
    /// Not calculated, since the state is too old.
    pub(crate) old: u64,
    /// Too many, where one less was allowed than there are.
    pub(crate) many: u64,
    /// All others.
    pub(crate) wrong: u64,
}

impl Counts {
    pub(crate) fn none() -> Counts {
        Counts {
            right: 0,
            changed: 0,
            removed: 0,
            added: 0,
            threads: 0,
            old: 0,
            many: 0,
            wrong: 0,
        }
    }

    pub(crate) fn add(&mut self, other: &Counts) {
        self.right = self.right.saturating_add(other.right);
        self.changed = self.changed.saturating_add(other.changed);
        self.removed = self.removed.saturating_add(other.removed);
        self.added = self.added.saturating_add(other.added);
        self.threads = self.threads.saturating_add(other.threads);
        self.old = self.old.saturating_add(other.old);
        self.many = self.many.saturating_add(other.many);
        self.wrong = self.wrong.saturating_add(other.wrong);
    }

    /// Adds the counts, in a line.
    pub(crate) fn put(&self, out: &mut String) -> Result<(), AllocError> {
        let (right, changed, wrong) = (self.right, self.changed, self.wrong);
        let (removed, added) = (self.removed, self.added);
        write!(
            out,
            " right {right}, changed {changed}, removed {removed}, added {added}"
        )?;
        let (threads, old, many) = (self.threads, self.old, self.many);
        writeln!(
            out,
            ", threads {threads}, old {old}, many {many}, wrong {wrong}"
        )
    }
}
