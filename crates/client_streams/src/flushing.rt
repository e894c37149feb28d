// Clients of whose response some octets are to be sent yet: they take them while others are served.
ghost use Rattle.std.specs.Prelude.{◌≡◌, ◌+◌, ◌<◌, ◌≤◌, ◌↔◌, [], length, nat_lt, IsTrue, IfOk};
ghost use Rattle.std.specs.VecDeque.{deque_capacity, deque_len};
ghost use Rattle.client_streams.specs.declared.flushing.TheConstants.{MAX_FLUSHING_CLIENTS};
ghost use Rattle.client_streams.specs.Flushing.{FirstFlushes, FlushOn, IsFlushed};
ghost use Rattle.client_streams.specs.Sending.{nothing_kept};

use crate::client_stream::ClientStream;
use crate::lingering::Lingering;
use crate::send_buffer::SendBuffer;
use crate::unflushed::{Flow, Unflushed};
use std::alloc::{AllocError, Global};
use std::collections::VecDeque;
use std::mem;

/// How many of them there are at most.
pub const MAX_FLUSHING_CLIENTS: usize = 7;

/// Clients that take what is left of their response, and a buffer for each that may be there beside them.
#[derive(Drop)]
pub struct Flushing<S: Drop> {
    pub clients: VecDeque<Unflushed<S>>,
    spare: VecDeque<SendBuffer>,
    // As many as may be there stand without memory being asked for.
    ghost all: { deque_len clients + deque_len spare ≡ MAX_FLUSHING_CLIENTS },
    ghost has_room: { MAX_FLUSHING_CLIENTS ≤ deque_capacity clients },
    ghost has_spare_room: { MAX_FLUSHING_CLIENTS ≤ deque_capacity spare },
}

/// As many buffers as there may be clients.
fn spare_buffers(alloc: Global) -> Result<VecDeque<SendBuffer>, AllocError>
    ensures all { IfOk result (λ spare. deque_len spare ≡ MAX_FLUSHING_CLIENTS) }
    ensures room { IfOk result (λ spare. MAX_FLUSHING_CLIENTS ≤ deque_capacity spare) }
{
    let mut spare = VecDeque::with_capacity(alloc, MAX_FLUSHING_CLIENTS)?;
    'buffers: for made in 0..MAX_FLUSHING_CLIENTS {
        spare.push_back_reserved(SendBuffer::new(alloc)?);
    }
    Ok(spare)
}

impl<S: Drop> Flushing<S> {
    /// No clients, and room for as many as may be there.
    pub fn new(alloc: Global) -> Result<Flushing<S>, AllocError>
        ensures { IfOk result (λ flushing. flushing.clients.items ≡ []) }
    {
        let clients = VecDeque::with_capacity(alloc, MAX_FLUSHING_CLIENTS)?;
        let spare = spare_buffers(alloc)?;
        Ok(Flushing { clients, spare })
    }

    /// Whether there is none.
    pub fn is_empty(&self) -> bool
        ensures { IsTrue result ↔ (self.now.clients.items ≡ []) }
    {
        self.clients.is_empty()
    }

    /// Whether there is a place for one more.
    pub fn has_place(&self) -> bool
        ensures { result ≡ nat_lt (length self.now.clients.items) MAX_FLUSHING_CLIENTS }
    {
        self.clients.len() < MAX_FLUSHING_CLIENTS
    }
}

impl<S: ClientStream> Flushing<S> {
    /// One more client takes what is left of its response, where there is a place for it; the buffer of it is an empty one then.
    pub fn add(&mut self, stream: S, buffer: &mut SendBuffer, now: u64)
        ensures added { IsFlushed S.closes now stream buffer.old self.old.clients.items self.new.clients.items }
        ensures empty { buffer.new ≡ nothing_kept }
    {
        match self.spare.pop_front() {
            Some(fresh) => {
                let kept = mem::replace(buffer, fresh);
                self.clients
                    .push_back_reserved(Unflushed::new(stream, kept, now));
            }
            None => stream.close(),
        }
        buffer.clear();
    }

    /// Gives the client that stands first what it takes now; then it stands last where it waits for the rest, stays open where it has
    /// all, and is closed else.
    fn first_goes_on(&mut self, lingering: &mut Lingering<S>, now: u64)
        ensures { FirstFlushes S.takes S.ends S.gives S.closes now self.old.clients.items lingering.old.clients.items self.new.clients.items lingering.new.clients.items }
    {
        let Some(mut client) = self.clients.pop_front() else {
            return;
        };
        match client.go_on(now) {
            Flow::Waits => self.clients.push_back_reserved(client),
            Flow::Sent => {
                let (finished, buffer) = client.end(now);
                self.spare.push_back_reserved(buffer);
                lingering.add(finished);
            }
            Flow::Lost => {
                let buffer = client.close();
                self.spare.push_back_reserved(buffer);
            }
        }
    }

    /// Gives each what it takes now: those that have all stay open for a short time, and those that are late are closed. It does not
    /// wait.
    pub fn go_on(&mut self, lingering: &mut Lingering<S>, now: u64)
        ensures { FlushOn S.takes S.ends S.gives S.closes now lingering.old.clients.items self.old.clients.items self.new.clients.items lingering.new.clients.items }
    {
        'clients: for turn in 0..self.clients.len() {
            self.first_goes_on(lingering, now);
        }
    }
}
