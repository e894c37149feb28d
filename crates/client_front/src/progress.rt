// How far a request has come, and when it is due.
ghost use Rattle.std.specs.Prelude.{◌≡◌};
ghost use Rattle.client_front.specs.Deadlines as spec;
ghost use Rattle.client_front.specs.HeadEnd as head;

use crate::line_ends::{CR, LF};
use client_streams::Pace;

/// How many milliseconds a head may take.
pub const HEAD_MILLISECONDS: u64 = 10_000;

/// Where in a request the next octet stands.
#[derive(Clone, Copy, Debug, PartialEq, Eq)]
pub(crate) enum Stage {
    /// In empty lines before the head.
    Blank,
    /// In a line of the head.
    Line,
    /// At the start of a line.
    LineStart,
    /// After a CR at the start of a line.
    Returned,
    /// After the head's empty line.
    Body,
}

/// How far a request has come: in its head since it was handed on, in its body since the head's end.
#[derive(Clone, Copy, Debug, PartialEq, Eq)]
pub(crate) struct Progress {
    pub(crate) stage: Stage,
    pub(crate) pace: Pace,
}

pub(crate) fn is_body(stage: Stage) -> bool
    ensures { result ≡ head.is_body stage }
{
    match stage {
        Stage::Body => true,
        Stage::Blank | Stage::Line | Stage::LineStart | Stage::Returned => false,
    }
}

pub(crate) fn stage_after(stage: Stage, octet: u8) -> Stage
    ensures { result ≡ head.stage_after stage octet }
{
    match (stage, octet) {
        (Stage::Body, _) => Stage::Body,
        (Stage::Blank, CR | LF) => Stage::Blank,
        (Stage::Line, LF) => Stage::LineStart,
        (Stage::LineStart, LF) => Stage::Body,
        (Stage::LineStart, CR) => Stage::Returned,
        (Stage::Returned, LF) => Stage::Body,
        _ => Stage::Line,
    }
}

/// A request after one octet more, which has come by now.
fn after_octet(progress: Progress, octet: u8, now: u64) -> Progress
    ensures { result ≡ head.after_octet now progress octet }
{
    match stage_after(progress.stage, octet) {
        Stage::Body if is_body(progress.stage) => Progress {
            stage: Stage::Body,
            pace: Pace {
                since: progress.pace.since,
                octets: progress.pace.octets.saturating_add(1),
            },
        },
        Stage::Body => Progress {
            stage: Stage::Body,
            pace: Pace {
                since: now,
                octets: 0,
            },
        },
        stage => Progress {
            stage,
            pace: progress.pace,
        },
    }
}

/// A request after octets more, which have come by now.
fn after_octets(mut progress: Progress, octets: &[u8], now: u64) -> Progress
    ensures { result ≡ head.after_octets now octets.now progress }
{
    for octet in octets {
        progress = after_octet(progress, *octet, now);
    }
    progress
}

impl Progress {
    /// A request whose client is handed on now.
    pub(crate) fn new(now: u64) -> Progress
        ensures { result ≡ spec.begun now }
    {
        Progress {
            stage: Stage::Blank,
            pace: Pace {
                since: now,
                octets: 0,
            },
        }
    }

    /// When the next octet is due.
    pub(crate) fn due(&self) -> u64
        ensures { result ≡ spec.due self.now }
    {
        match self.stage {
            Stage::Body => self.pace.due(),
            Stage::Blank | Stage::Line | Stage::LineStart | Stage::Returned => {
                self.pace.since.saturating_add(HEAD_MILLISECONDS)
            }
        }
    }

    /// Notes octets that have come by now.
    pub(crate) fn note(&mut self, octets: &[u8], now: u64)
        ensures { self.new ≡ head.noted octets.now now self.old }
    {
        if is_body(self.stage) {
            self.pace.add(octets.len());
            return;
        }
        *self = after_octets(*self, octets, now);
    }
}
