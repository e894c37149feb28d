// A life that is cut at each octet, and lives of which each call of the outside fails in turn.
use crate::lives::{Lives, Mark};
use crate::playing::{Played, play};
use std::alloc::AllocError;
use test_rows::first_number;

/// What has come of a life once the store gave this many octets.
fn told_after(marks: &[Mark], count: usize) -> Option<&Mark> {
    let mut told = None;
    for mark in marks {
        if mark.end <= count {
            told = Some(mark);
        }
    }
    told
}

/// Whether this is all that came of the life.
fn is_told(mark: Option<&Mark>, played: &Played) -> bool {
    match mark {
        Some(mark) => played.answers == mark.answers && played.mail == mark.mail,
        None => false,
    }
}

/// Whether this is what came of the last life, and its mail is left.
fn ends_so(mark: Option<&Mark>, played: &Played) -> bool {
    match mark {
        Some(mark) => {
            played.answers.ends_with(mark.answers.as_str()) && played.mail == mark.mail
        }
        None => false,
    }
}

/// Whether the first life came to its end, and the second one didn't.
fn fails_second(mark: Option<&Mark>, played: &Played) -> bool {
    match mark {
        Some(mark) => match played.answers.strip_prefix(mark.answers.as_str()) {
            Some(rest) => !rest.starts_with(mark.answers.as_str()),
            None => false,
        },
        None => false,
    }
}

fn put_other(out: &mut String, count: u64, played: &Played) -> Result<(), AllocError> {
    writeln!(
        out,
        "otherwise at {count}: {}|{}",
        played.answers, played.mail
    )
}

impl Lives {
    /// A life that is cut after `count` octets has what its marks say, and one after it ends as a life does that isn't cut.
    fn cut(&self, whole: &[u8], count: usize, out: &mut String) -> Result<(), AllocError> {
        let (cut, _) = whole.split_at(count.min(whole.len()));
        let mut links = Vec::new(self.alloc);
        links.push(cut.to_vec(self.alloc)?)?;
        let first = play(self.alloc, &self.setting, &links)?;
        if !is_told(told_after(&self.marks, count), &first) {
            put_other(out, count as u64, &first)?;
        }
        links.push(whole.to_vec(self.alloc)?)?;
        let second = play(self.alloc, &self.setting, &links)?;
        if !ends_so(self.marks.last(), &second) {
            put_other(out, count as u64, &second)?;
        }
        Ok(())
    }

    /// Cuts a life after each number of octets.
    pub(crate) fn cuts(&self, whole: &[u8], out: &mut String) -> Result<(), AllocError> {
        for count in 0..=whole.len() {
            self.cut(whole, count, out)?;
        }
        let len = whole.len();
        writeln!(out, "cut after 0 to {len} octets")
    }

    /// Of these lives, of which this call fails, the last one ends as a life does in which none fails.
    fn fail(
        &mut self,
        links: &[Vec<u8>],
        call: u64,
        out: &mut String,
    ) -> Result<Played, AllocError> {
        self.setting.failing = call;
        let played = play(self.alloc, &self.setting, links)?;
        if !ends_so(self.marks.last(), &played) {
            put_other(out, call, &played)?;
        }
        Ok(played)
    }

    /// Three lives with this text.
    fn three(&self, whole: &[u8]) -> Result<Vec<Vec<u8>>, AllocError> {
        let mut links = Vec::new(self.alloc);
        for _ in 0..3 {
            links.push(whole.to_vec(self.alloc)?)?;
        }
        Ok(links)
    }

    /// Three lives, of which each call fails in turn up to one that has to be of the second life.
    pub(crate) fn fails(
        &mut self,
        text: &str,
        whole: &[u8],
        out: &mut String,
    ) -> Result<(), AllocError> {
        let (piece, rest) = first_number(text);
        let (last, _) = first_number(rest);
        self.setting.piece = usize::try_from(piece).unwrap_or(0);
        let links = self.three(whole)?;
        for call in 1..last {
            self.fail(&links, call, out)?;
        }
        let played = self.fail(&links, last, out)?;
        let second = fails_second(self.marks.last(), &played);
        writeln!(
            out,
            "calls 1 to {last} in pieces of {piece}; the last one is of the second life: {second}"
        )
    }
}
