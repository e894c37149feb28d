// What is kept for the client that is served, and clients whose response has ended.
ghost use Rattle.std.specs.Prelude.{◌≡◌, ◌↔◌, IsTrue, IfOk};
ghost use Rattle.client_streams.specs.Flushing.{IsFlushed};
ghost use Rattle.client_streams.specs.Leaving as spec;
ghost use Rattle.client_streams.specs.Leaving.{AllGoOn, IsOver, nobody_open, open_of};
ghost use Rattle.client_streams.specs.Lingering.{Lingers};
ghost use Rattle.client_streams.specs.Sending.{nothing_kept};

use crate::client_stream::ClientStream;
use crate::finished::Finished;
use crate::flushing::Flushing;
use crate::lingering::Lingering;
use crate::send_buffer::SendBuffer;
use std::alloc::{AllocError, Global};

/// What is kept for the client that is served; clients that take what is left of their response; and those that have all of it and are
/// open yet.
#[derive(Drop)]
pub struct Leaving<S: Drop> {
    pub served: SendBuffer,
    pub flushing: Flushing<S>,
    pub lingering: Lingering<S>,
}

impl<S: Drop> Leaving<S> {
    /// No clients, and room for all that may be kept, and for as many clients as there may be. No memory is asked for later.
    pub fn new(alloc: Global) -> Result<Leaving<S>, AllocError>
        ensures { IfOk result (λ leaving. open_of leaving ≡ nobody_open) }
    {
        let served = SendBuffer::new(alloc)?;
        let flushing = Flushing::new(alloc)?;
        let lingering = Lingering::new(alloc)?;
        Ok(Leaving {
            served,
            flushing,
            lingering,
        })
    }

    /// Whether no client is there whose response has ended.
    pub fn is_over(&self) -> bool
        ensures { IsTrue result ↔ IsOver (open_of self.now) }
    {
        self.flushing.is_empty() && self.lingering.is_empty()
    }

    /// Whether there is a place for one more that takes what is left of its response.
    pub fn has_place(&self) -> bool
        ensures { result ≡ spec.has_place (open_of self.now) }
    {
        self.flushing.has_place()
    }

    /// Nothing is kept for the client that is served.
    pub fn begin(&mut self)
        ensures { open_of self.new ≡ record (open_of self.old) { kept = nothing_kept } }
    {
        self.served.clear();
    }
}

impl<S: ClientStream> Leaving<S> {
    /// Leaves one more client open, which has all of its response.
    pub fn linger(&mut self, client: Finished<S>)
        ensures added { Lingers S.gives S.closes client (open_of self.old).lingering (open_of self.new).lingering }
        ensures same { open_of self.new ≡ record (open_of self.old) { lingering = (open_of self.new).lingering } }
    {
        self.lingering.add(client);
    }

    /// The client that was served takes what is kept of its response.
    pub fn flush(&mut self, stream: S, now: u64)
        ensures added { IsFlushed S.closes now stream (open_of self.old).kept (open_of self.old).flushing (open_of self.new).flushing }
        ensures same { open_of self.new ≡ record (open_of self.old) { kept = nothing_kept; flushing = (open_of self.new).flushing } }
    {
        self.flushing.add(stream, &mut self.served, now);
    }

    /// Gives each what it takes now, and drops what has come of those that have all. It does not wait.
    pub fn go_on(&mut self, now: u64)
        ensures { AllGoOn S.takes S.ends S.gives S.closes now (open_of self.old) (open_of self.new) }
    {
        self.flushing.go_on(&mut self.lingering, now);
        self.lingering.go_on(now);
    }
}
