// How clients that wait come, ask, and are closed.
ghost use Rattle.std.specs.Prelude.{◌≡◌, ◌≢◌, ◌<◌, ◌+◌, ◌↔◌, ℕ, [], ◌∷◌, ◌++◌, true, false, All, length, slice_index_or, slice_set, IsTrue, IfOk, IfSome, IfNone, OnOk, OnErr};
ghost use Rattle.std.specs.List.{remove};
ghost use Rattle.std.specs.VecDeque.{deque_len};
ghost use Rattle.client_front.specs.Scanning.{IsComing};
ghost use Rattle.client_front.specs.Waiting as spec;
ghost use Rattle.client_front.specs.Waiting.{Admits, ClosedUnless, Expires, FindsRoom, IsAsked, LooksAtLate, MakesRoom, held};

use crate::progress::HEAD_MILLISECONDS;
use crate::scan::{Coming, Scan};
use crate::waiting::{Idle, MAX_HELD_CLIENTS, Waiting};
use client_streams::ClientStream;

fn stream_of<S: Drop>(client: Idle<S>) -> S
    ensures { result ≡ client.stream }
{
    client.stream
}

/// Whether a client that was looked at asks.
pub(crate) fn is_whole(coming: Coming) -> bool
    ensures { result ≡ spec.asks coming }
{
    match coming {
        Coming::Whole => true,
        Coming::Nothing | Coming::Part(_) | Coming::Never => false,
    }
}

/// Whether none comes any more of a client that was looked at.
pub(crate) fn is_never(coming: Coming) -> bool
    ensures { result ≡ spec.is_never coming }
{
    match coming {
        Coming::Never => true,
        Coming::Nothing | Coming::Part(_) | Coming::Whole => false,
    }
}

impl<S: Drop> Waiting<S> {
    fn is_full(&self) -> bool
        ensures full { result ≡ spec.is_full (held self.now) }
        ensures room { result ≡ false → deque_len self.now.idle + deque_len self.now.asking < MAX_HELD_CLIENTS }
    {
        let (idle, asking) = (self.idle.len(), self.asking.len());
        idle >= MAX_HELD_CLIENTS || asking >= MAX_HELD_CLIENTS - idle
    }

    fn has_key(&self, at: usize, key: u64) -> bool
        requires { at < length self.now.idle.items }
        ensures { (d : Idle S) → IsTrue result ↔ ((slice_index_or self.now.idle.items at d).key ≡ key) }
    {
        self.idle[at].key == key
    }

    /// Where the first idle client with the key stands.
    fn place_of(&self, key: u64) -> Option<usize>
        ensures some { IfSome result (λ at. (at < length self.now.idle.items) × ((d : Idle S) → (slice_index_or self.now.idle.items at d).key ≡ key)
            × ((k : ℕ) (d : Idle S) → k < at → (slice_index_or self.now.idle.items k d).key ≢ key)) }
        ensures none { IfNone result (All (λ client. client.key ≢ key) self.now.idle.items) }
    {
        for at in 0..self.idle.len() {
            if self.has_key(at, key) {
                return Some(at);
            }
        }
        None
    }

    /// Whether no octet of the idle client there was seen yet.
    fn is_unseen(&self, at: usize) -> bool
        requires { at < length self.now.idle.items }
        ensures { (d : Idle S) → IsTrue result ↔ ((slice_index_or self.now.idle.items at d).scan.seen ≡ 0) }
    {
        self.idle[at].scan.seen == 0
    }

    fn is_late_at(&self, at: usize, now: u64) -> bool
        requires { at < length self.now.idle.items }
        ensures { (d : Idle S) → result ≡ spec.is_late now (slice_index_or self.now.idle.items at d) }
    {
        self.idle[at].due <= now
    }

    /// Where the first idle client stands that is late.
    fn place_of_late(&self, now: u64) -> Option<usize>
        ensures some { IfSome result (λ at. (at < length self.now.idle.items) × ((d : Idle S) → spec.is_late now (slice_index_or self.now.idle.items at d) ≡ true)
            × ((k : ℕ) (d : Idle S) → k < at → spec.is_late now (slice_index_or self.now.idle.items k d) ≡ false)) }
        ensures none { IfNone result (All (λ client. spec.is_late now client ≡ false) self.now.idle.items) }
    {
        for at in 0..self.idle.len() {
            if self.is_late_at(at, now) {
                return Some(at);
            }
        }
        None
    }

    /// The client that was seen first to have a whole head.
    pub(crate) fn next_asking(&mut self) -> Option<S>
        ensures some { IfSome result (λ stream. self.old.asking.items ≡ stream ∷ self.new.asking.items) }
        ensures none { IfNone result (self.old.asking.items ≡ []) }
        ensures same { IfNone result (held self.new ≡ held self.old) }
        ensures idle { self.new.idle.items ≡ self.old.idle.items }
    {
        self.asking.pop_front()
    }

    /// Notes what the idle client there has sent of its head by now.
    fn note(&mut self, at: usize, scan: Scan, now: u64)
        requires { at < length self.old.idle.items }
        ensures idle { (d : Idle S) → self.new.idle.items ≡ slice_set self.old.idle.items at (spec.read_on now scan (slice_index_or self.old.idle.items at d)) }
        ensures asking { self.new.asking.items ≡ self.old.asking.items }
    {
        let client = &mut self.idle[at];
        if client.scan.seen == 0 {
            client.due = now.saturating_add(HEAD_MILLISECONDS);
        }
        client.scan = scan;
    }

    /// Holds one more client at the end.
    fn push(&mut self, client: Idle<S>)
        requires { deque_len self.old.idle + deque_len self.old.asking < MAX_HELD_CLIENTS }
        ensures { held self.new ≡ spec.held_if true client (held self.old) }
    {
        self.idle.push_back_reserved(client);
    }
}

impl<S: ClientStream> Waiting<S> {
    /// What the idle client there has sent of its head.
    fn look_at(&self, at: usize) -> Coming
        requires { at < length self.now.idle.items }
        ensures { (d : Idle S) → IsComing S.shows (slice_index_or self.now.idle.items at d).scan (slice_index_or self.now.idle.items at d).stream result }
    {
        let client = &self.idle[at];
        client.scan.look(&client.stream)
    }

    /// The idle client there is idle no longer: it asks, or is closed.
    fn leave(&mut self, at: usize, asks: bool)
        requires { at < length self.old.idle.items }
        ensures idle { self.new.idle.items ≡ remove self.old.idle.items at }
        ensures asking { (d : Idle S) → self.new.asking.items ≡ self.old.asking.items ++ spec.asks_if asks (slice_index_or self.old.idle.items at d).stream }
        ensures closed { (d : Idle S) → ClosedUnless S.closes asks (slice_index_or self.old.idle.items at d).stream }
        ensures fewer { asks ≡ false → deque_len self.new.idle + deque_len self.new.asking < deque_len self.old.idle + deque_len self.old.asking }
    {
        if let Some(client) = self.idle.remove(at) {
            let stream = stream_of(client);
            if asks {
                self.asking.push_back_reserved(stream);
            } else {
                stream.close();
            }
        }
    }

    /// Closes the client that came first of those whose head isn't whole; those before it ask. Whether there is one.
    pub(crate) fn make_room(&mut self) -> bool
        ensures made { MakesRoom S.shows S.closes result (held self.old) (held self.new) }
        ensures room { IsTrue result → deque_len self.new.idle + deque_len self.new.asking < MAX_HELD_CLIENTS }
    {
        'oldest: while !self.idle.is_empty() {
            let asks = is_whole(self.look_at(0));
            self.leave(0, asks);
            if !asks {
                return true;
            }
        }
        false
    }

    /// Whether there is room for one more client, where room is made for it if there is none.
    fn find_room(&mut self) -> bool
        ensures found { FindsRoom S.shows S.closes result (held self.old) (held self.new) }
        ensures room { IsTrue result → deque_len self.new.idle + deque_len self.new.asking < MAX_HELD_CLIENTS }
    {
        if self.is_full() {
            self.make_room()
        } else {
            true
        }
    }

    /// Holds one more client. Where as many are held as may be, the one that came first of those whose head isn't whole is closed,
    /// and where there is none the new one is.
    pub(crate) fn admit(&mut self, client: Idle<S>)
        ensures { Admits S.shows S.closes client (held self.old) (held self.new) }
    {
        if self.find_room() {
            self.push(client);
        } else {
            stream_of(client).close();
        }
    }

    /// Looks at the idle client there, the first that is late: it asks where its head is whole by now, stays where its first octets are seen only
    /// now, and is closed else.
    fn end_wait(&mut self, at: usize, now: u64)
        requires within { at < length self.old.idle.items }
        requires late { (d : Idle S) → spec.is_late now (slice_index_or self.old.idle.items at d) ≡ true }
        requires earlier { (k : ℕ) (d : Idle S) → k < at → spec.is_late now (slice_index_or self.old.idle.items k d) ≡ false }
        ensures { LooksAtLate S.shows S.closes now (held self.old) (held self.new) }
    {
        match self.look_at(at) {
            Coming::Part(scan) => {
                if self.is_unseen(at) {
                    self.note(at, scan, now);
                } else {
                    self.leave(at, false);
                }
            }
            Coming::Whole => self.leave(at, true),
            Coming::Nothing => self.leave(at, false),
            Coming::Never => self.leave(at, false),
        }
    }

    /// Looks at the idle clients that are late, in order of their coming: none is late then.
    pub(crate) fn expire(&mut self, now: u64)
        ensures { Expires S.shows S.closes now (held self.old) (held self.new) }
    {
        'late: while let Some(at) = self.place_of_late(now) {
            self.end_wait(at, now);
        }
    }

    /// Looks at the client with the key, where there is one: it asks where its head is whole, and is closed where none can come.
    pub(crate) fn ask(&mut self, key: u64, now: u64)
        ensures { IsAsked S.shows S.closes now key (held self.old) (held self.new) }
    {
        let Some(at) = self.place_of(key) else {
            return;
        };
        match self.look_at(at) {
            Coming::Nothing => {}
            Coming::Part(scan) => self.note(at, scan, now),
            Coming::Whole => self.leave(at, true),
            Coming::Never => self.leave(at, false),
        }
    }
}
