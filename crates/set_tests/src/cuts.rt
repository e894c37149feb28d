// Items over a link that is cut.
use crate::rows::Rows;
use std::alloc::AllocError;

/// Prints that the items ended so from one count to another.
fn put_run(
    out: &mut String,
    word: &str,
    first: usize,
    last: usize,
    ends: &str,
) -> Result<(), AllocError> {
    if first == last {
        writeln!(out, "{word} {first}: {ends}")
    } else {
        writeln!(out, "{word} {first} to {last}: {ends}")
    }
}

impl Rows {
    /// How the items end where the store takes so many of their octets, and gives all.
    fn ends_taken(&self, before: usize, count: usize) -> Result<String, AllocError> {
        let played = self.play(self.octets.len(), before.saturating_add(count))?;
        Ok(played.ends)
    }

    /// How they end where it takes all, and gives so many.
    fn ends_given(&self, count: usize) -> Result<String, AllocError> {
        let played = self.play(count, usize::MAX)?;
        Ok(played.ends)
    }

    /// By the number of octets that the store takes.
    fn taken_table(&self, before: usize, all: usize, out: &mut String) -> Result<(), AllocError> {
        let mut first = 0;
        let mut ends = self.ends_taken(before, 0)?;
        for count in 1..=all {
            let next = self.ends_taken(before, count)?;
            if next != ends {
                put_run(out, "takes", first, count - 1, &ends)?;
                first = count;
                ends = next;
            }
        }
        put_run(out, "takes", first, all, &ends)
    }

    /// By the number of octets that the store gives.
    fn given_table(&self, out: &mut String) -> Result<(), AllocError> {
        let all = self.octets.len();
        let mut first = 0;
        let mut ends = self.ends_given(0)?;
        for count in 1..=all {
            let next = self.ends_given(count)?;
            if next != ends {
                put_run(out, "gives", first, count - 1, &ends)?;
                first = count;
                ends = next;
            }
        }
        put_run(out, "gives", first, all, &ends)
    }

    /// Cuts the link at each octet that the store takes or gives in the items, and prints how they end.
    pub(crate) fn cuts(&self, out: &mut String) -> Result<(), AllocError> {
        let whole = self.play(self.octets.len(), usize::MAX)?;
        self.taken_table(whole.before, whole.count, out)?;
        self.given_table(out)
    }
}
