// What a client that waits has sent of a head.
ghost use Rattle.std.specs.Prelude.{◌≡◌, ◌≤◌, length, take, drop, option_map, IfSome, Some};
ghost use Rattle.client_front.specs.Scanning as spec;
ghost use Rattle.client_front.specs.Scanning.{IsComing};

use crate::first_octet::can_begin;
use crate::progress::{Stage, is_body, stage_after};
use client_streams::ClientStream;

/// After how many octets without a head's end its client waits no longer: it is handed on, and its head is too large.
pub const MAX_HEAD_OCTETS: usize = 16_384;

/// How far a head was looked through.
#[derive(Clone, Copy, Debug, PartialEq, Eq)]
pub(crate) struct Scan {
    /// How many octets of it had come.
    pub(crate) seen: usize,
    /// Where the next octet stands.
    pub(crate) stage: Stage,
}

/// What a client has sent of a head.
#[derive(Clone, Copy, Debug, PartialEq, Eq)]
pub(crate) enum Coming {
    /// No octet yet.
    Nothing,
    /// Octets that a head may begin with.
    Part(Scan),
    /// A head, or as many octets as a head has at most.
    Whole,
    /// An octet that begins no head; or it ended or failed before it sent one.
    Never,
}

/// Where the next octet stands after these.
fn stage_from(mut stage: Stage, octets: &[u8]) -> Stage
    ensures { result ≡ spec.stage_from stage octets.now }
{
    for octet in octets {
        stage = stage_after(stage, *octet);
    }
    stage
}

/// The octets without the first so many.
fn octets_after(octets: &[u8], seen: usize) -> &[u8]
    ensures { result.now ≡ drop seen octets.now }
{
    if seen <= octets.len() {
        octets.split_at(seen).1
    } else {
        &[]
    }
}

impl Scan {
    /// Nothing was looked through.
    pub(crate) fn new() -> Scan
        ensures { result ≡ spec.unscanned }
    {
        Scan {
            seen: 0,
            stage: Stage::Blank,
        }
    }

    /// These have come so far. Those that were looked through before are not looked through again.
    fn after(self, octets: &[u8]) -> Scan
        ensures { result ≡ spec.scanned octets.now self }
    {
        Scan {
            seen: octets.len(),
            stage: stage_from(self.stage, octets_after(octets, self.seen)),
        }
    }

    fn coming(self) -> Coming
        ensures { result ≡ spec.coming_at self }
    {
        if is_body(self.stage) || self.seen >= MAX_HEAD_OCTETS {
            Coming::Whole
        } else {
            Coming::Part(self)
        }
    }

    /// What a client whose octets were looked through so far has sent by now, of which these octets are shown.
    fn coming_with(self, octets: &[u8]) -> Coming
        ensures { result ≡ spec.coming self (Some octets.now) }
    {
        match octets {
            [] => Coming::Nothing,
            [first, ..] if can_begin(*first) => self.after(octets).coming(),
            [_, ..] => Coming::Never,
        }
    }

    /// What the client has sent by now.
    pub(crate) fn look<S: ClientStream>(self, stream: &S) -> Coming
        ensures { IsComing S.shows self stream.now result }
    {
        let mut room = [0u8; MAX_HEAD_OCTETS];
        match stream.peek(&mut room) {
            Some(count) => {
                let (octets, _) = room.split_at(count);
                self.coming_with(octets)
            }
            None => Coming::Never,
        }
    }
}
