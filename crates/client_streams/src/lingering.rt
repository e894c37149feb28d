// Clients whose response has ended and that have not ended what they send: they are closed a short time after it.
ghost use Rattle.std.specs.Prelude.{◌≡◌, ◌<◌, ◌≤◌, ◌↔◌, [], IsTrue, IfOk};
ghost use Rattle.std.specs.VecDeque.{deque_capacity, deque_len};
ghost use Rattle.client_streams.specs.declared.lingering.TheConstants.{MAX_LINGERING_CLIENTS};
ghost use Rattle.client_streams.specs.Lingering.{FirstGoesOn, GoOn, Lingers, MakesWay};

use crate::client_stream::ClientStream;
use crate::finished::Finished;
use std::alloc::{AllocError, Global};
use std::collections::VecDeque;

/// How many of them stay open at most.
pub const MAX_LINGERING_CLIENTS: usize = 64;

/// Clients that stay open for a short time, so that they read their response before they are closed.
#[derive(Drop)]
pub struct Lingering<S: Drop> {
    pub clients: VecDeque<Finished<S>>,
    // As many as may be open stay so without memory being asked for.
    ghost few: { deque_len clients ≤ MAX_LINGERING_CLIENTS },
    ghost has_room: { MAX_LINGERING_CLIENTS ≤ deque_capacity clients },
}

impl<S: Drop> Lingering<S> {
    /// No clients, and room for as many as may be open.
    pub fn new(alloc: Global) -> Result<Lingering<S>, AllocError>
        ensures { IfOk result (λ lingering. lingering.clients.items ≡ []) }
    {
        let clients = VecDeque::with_capacity(alloc, MAX_LINGERING_CLIENTS)?;
        Ok(Lingering { clients })
    }

    /// Whether none is open.
    pub fn is_empty(&self) -> bool
        ensures { IsTrue result ↔ (self.now.clients.items ≡ []) }
    {
        self.clients.is_empty()
    }
}

impl<S: ClientStream> Lingering<S> {
    /// Closes the client that was finished first where as many are open as may be, after what has come of it was dropped.
    fn make_way(&mut self)
        ensures way { MakesWay S.gives S.closes self.old.clients.items self.new.clients.items }
        ensures room { deque_len self.new.clients < MAX_LINGERING_CLIENTS }
    {
        if self.clients.len() >= MAX_LINGERING_CLIENTS {
            if let Some(mut first) = self.clients.pop_front() {
                let _ = first.drop_all();
                first.close();
            }
        }
    }

    /// Leaves one more client open, and closes the one that was finished first where as many were open as may be.
    pub fn add(&mut self, client: Finished<S>)
        ensures { Lingers S.gives S.closes client self.old.clients.items self.new.clients.items }
    {
        self.make_way();
        self.clients.push_back_reserved(client);
    }

    /// Drops what has come of the client that stands first; then it stands last where more may come and it isn't due, and is closed
    /// else.
    fn first_goes_on(&mut self, now: u64)
        ensures { FirstGoesOn S.gives S.closes now self.old.clients.items self.new.clients.items }
    {
        let Some(mut client) = self.clients.pop_front() else {
            return;
        };
        if client.stays_open(now) {
            self.clients.push_back_reserved(client);
        } else {
            client.close();
        }
    }

    /// Drops what has come of each, and closes those of which no more comes and those that are due. It does not wait.
    pub fn go_on(&mut self, now: u64)
        ensures { GoOn S.gives S.closes now self.old.clients.items self.new.clients.items }
    {
        for turn in 0..self.clients.len() {
            self.first_goes_on(now);
        }
    }
}
