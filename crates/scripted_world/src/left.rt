// What is left of a script, and what each call plays of it.
ghost use Rattle.std.specs.Prelude.{◌≡◌, ◌+◌, ◌-◌, ◌<◌, ◌≤◌, ◌↔◌, [], IsSome, IsTrue, MatchBool, OnErr, OnOk, drop, length, max, min, nat_le, nat_lt, take, ◌==◌, ◌&&◌};
ghost use Rattle.std.specs.List.{list_any};
ghost use Rattle.gate_world.specs.Pieces.{Gives, octets_of, without};
ghost use Rattle.scripted_world.specs.Script.{accepted, asked_clock, counted, dialed, drawn, ended, held, is_next_kept, is_next_to_fail, next_moment, next_word, read_on, received_on, unplayed, with_batch, with_client};

use crate::{Fail, Script};
use octets::Bytes;
use std::alloc::AllocError;
use std::marker::Model;

/// What is left of a text.
#[derive(Drop)]
struct Rest {
    // None is no octets.
    text: Option<Bytes>,
    // The place of the first octet that is left.
    at: usize,
}

impl Model for Rest {
    ghost use Rattle.std.specs.Prelude.{◌≤◌, List, ℕ, drop, length};
    ghost use Rattle.gate_world.specs.Pieces.{octets_of};

    ghost Value = { List ℕ };

    ghost view = { λ r. drop r.at (octets_of r.text) };

    ghost invariant = { λ r. r.at ≤ length (octets_of r.text) };
}

impl Rest {
    /// All of the text; none is no octets.
    fn new(text: Option<Bytes>) -> Rest
        ensures { result ≡ octets_of text }
    {
        Rest { text, at: 0 }
    }

    /// Copies the next octets to the front of `into`, at most `piece` and at least one where there are any; how many.
    fn read(&mut self, piece: usize, into: &mut [u8]) -> usize
        ensures gives { Gives piece self.old into.new result }
        ensures rest { self.new ≡ drop result self.old }
    {
        let (_, left) = slice_of(&self.text).split_at(self.at);
        let count = left.len().min(piece.max(1)).min(into.len());
        into[..count].copy_from_slice(&left[..count]);
        self.at += count;
        count
    }
}

// The octets of a text; none is no octets.
fn slice_of(text: &Option<Bytes>) -> &[u8]
    ensures { result.now ≡ octets_of text.now }
{
    match text {
        None => &[],
        Some(text) => text.as_slice(),
    }
}

/// What is left of a script.
#[derive(Drop)]
pub(crate) struct Left {
    /// Its link lives, clients and words are those that are left.
    pub(crate) script: Script,
    /// What the store still gives in this link life; none where there is no link life.
    link: Option<Rest>,
    /// What the client that came last still gives; none where none came.
    client: Option<Rest>,
    /// How many calls that can fail were made.
    calls: u64,
}

// Copies the next octets of what stands there.
fn read_of(rest: &mut Option<Rest>, piece: usize, into: &mut [u8]) -> usize
    ensures gives { Gives piece (octets_of rest.old) into.new result }
    ensures rest { rest.new ≡ without result rest.old }
{
    match rest {
        None => 0,
        Some(rest) => rest.read(piece, into),
    }
}

// Whether every call fails by the call of this number.
fn has_stopped(stop_at: u64, call: u64) -> bool
    ensures { result ≡ (nat_lt 0 stop_at && nat_le stop_at call) }
{
    stop_at != 0 && stop_at <= call
}

// Whether the call of this number is one of those that fail.
fn is_among(fails: &[Fail], call: u64) -> bool
    ensures { result ≡ list_any (λ fail. fail.call == call) fails.now }
{
    fails.iter().any(|fail| fail.call == call)
}

// Whether the call of this number is one of those that fail and keep their batch.
fn is_among_kept(fails: &[Fail], call: u64) -> bool
    ensures { result ≡ list_any (λ fail. (fail.call == call) && fail.kept) fails.now }
{
    fails.iter().any(|fail| fail.call == call && fail.kept)
}

impl Left {
    /// Nothing of the script is played.
    pub(crate) fn new(script: Script) -> Left
        ensures { result ≡ unplayed script }
    {
        Left {
            script,
            link: None,
            client: None,
            calls: 0,
        }
    }

    /// Counts a call that can fail, and says whether it fails.
    pub(crate) fn count_call(&mut self) -> bool
        ensures fails { result ≡ is_next_to_fail self.old }
        ensures counted { self.new ≡ counted self.old }
    {
        self.calls = self.calls.saturating_add(1);
        has_stopped(self.script.stop_at, self.calls)
            || is_among(self.script.fails.as_slice(), self.calls)
    }

    /// Whether the next call keeps its batch, where it is an append that fails.
    pub(crate) fn is_next_kept(&self) -> bool
        ensures { result ≡ is_next_kept self.now }
    {
        is_among_kept(self.script.fails.as_slice(), self.calls.saturating_add(1))
    }

    /// The batches that are kept, in the order in which they were appended.
    pub(crate) fn held(&self) -> &[Bytes]
        ensures { result.now ≡ held self.now }
    {
        self.script.batches.as_slice()
    }

    /// One batch more is kept, after the others.
    pub(crate) fn keep(&mut self, batch: Bytes) -> Result<(), AllocError>
        ensures ok { OnOk result (self.new ≡ with_batch batch self.old) }
        ensures err { OnErr result (self.new ≡ self.old) }
    {
        self.script.batches.push(batch)
    }

    /// The next link life begins.
    pub(crate) fn dial(&mut self)
        ensures { self.new ≡ dialed self.old }
    {
        self.link = Some(Rest::new(self.script.links.pop_front()));
    }

    /// The link life ends.
    pub(crate) fn end_link(&mut self)
        ensures { self.new ≡ ended self.old }
    {
        self.link = None;
    }

    pub(crate) fn is_linked(&self) -> bool
        ensures { IsTrue result ↔ IsSome self.now.link }
    {
        self.link.is_some()
    }

    /// Copies the next octets of the link life to the front of `into`; how many.
    pub(crate) fn read(&mut self, into: &mut [u8]) -> usize
        ensures gives { Gives self.old.script.piece (octets_of self.old.link) into.new result }
        ensures rest { self.new ≡ read_on result self.old }
    {
        read_of(&mut self.link, self.script.piece, into)
    }

    /// One client more comes, after the others.
    pub(crate) fn add_client(&mut self, octets: Bytes) -> Result<(), AllocError>
        ensures ok { OnOk result (self.new ≡ with_client self.old octets) }
        ensures err { OnErr result (self.new ≡ self.old) }
    {
        self.script.clients.push(octets)
    }

    /// The next client comes, where there is one.
    pub(crate) fn accept(&mut self) -> bool
        ensures { MatchBool result ((0 < length self.old.script.clients) × (self.new ≡ accepted self.old)) ((self.old.script.clients ≡ []) × (self.new ≡ self.old)) }
    {
        match self.script.clients.pop_front() {
            None => false,
            Some(client) => {
                self.client = Some(Rest::new(Some(client)));
                true
            }
        }
    }

    /// Copies the next octets of the client to the front of `into`; how many.
    pub(crate) fn recv(&mut self, into: &mut [u8]) -> usize
        ensures gives { Gives self.old.script.piece (octets_of self.old.client) into.new result }
        ensures rest { self.new ≡ received_on result self.old }
    {
        read_of(&mut self.client, self.script.piece, into)
    }

    /// Asks the clock for the next moment.
    pub(crate) fn ask_clock(&mut self) -> i64
        ensures moment { result ≡ next_moment self.old.script.moments }
        ensures rest { self.new ≡ asked_clock self.old }
    {
        if self.script.moments.len() > 1 {
            return self.script.moments.pop_front().unwrap_or(0);
        }
        self.script.moments.as_slice().first().copied().unwrap_or(0)
    }

    /// Draws the next word.
    pub(crate) fn draw(&mut self) -> u64
        ensures word { result ≡ next_word self.old.script.words }
        ensures rest { self.new ≡ drawn self.old }
    {
        if self.script.words.len() > 1 {
            return self.script.words.pop_front().unwrap_or(0);
        }
        self.script.words.as_slice().first().copied().unwrap_or(0)
    }
}
