// The link to a store, over TCP.
ghost use Rattle.std.specs.Prelude.{◌≡◌, ◌<◌, ◌≤◌, length, take, None, IsSome, IsNone, IsErr, IfOk, OnOk, OnErr};
ghost use Rattle.std.specs.Io.KnownBytes.{Appends, Consumes};
ghost use Rattle.gate_host.specs.Dialing.{Connects, FirstAnswer};
ghost use Rattle.gate_host.specs.Faults.{one_more};
ghost use Rattle.gate_host.specs.Streams.{known_of};

use crate::Dialer;
use crate::faults::raised;
use crate::streams::{read_some, write_some};
use gate_world::Failed;
use octets::Text;
use std::net::{Ipv4Addr, SocketAddr, SocketAddrV4};

/// How many seconds a dial, a read or a write may wait.
pub const PATIENCE_SECONDS: u64 = 60;

/// The most addresses of a store that are dialed.
pub const MAX_ADDRESSES: usize = 32;

/// A link to a store over TCP, which is a host's name or address, `:` and a port. Each wait is `PATIENCE_SECONDS` at most.
#[derive(Drop)]
pub struct TcpLink<D: Dialer + Drop> {
    dialer: D,
    store: Text,
    /// The stream of this link life; none where there is no link life.
    pub stream: Option<D::Stream>,
    /// How often a dial, a read or a write has failed; the last number stays.
    pub faults: u64,
}

impl<D: Dialer + Drop> TcpLink<D> {
    /// A link that is not dialed yet, to this store: a host's name or address, `:` and a port.
    pub fn new(dialer: D, store: Text) -> TcpLink<D>
        ensures dialer { result.dialer ≡ dialer }
        ensures store { result.store ≡ store }
        ensures stream { IsNone result.stream }
        ensures faults { result.faults ≡ 0 }
    {
        TcpLink {
            dialer,
            store,
            stream: None,
            faults: 0,
        }
    }

    // Ends the link life and counts the fault.
    fn fail(&mut self) -> Failed
        ensures same { self.new ≡ record self.old { stream = None; faults = one_more self.old.faults } }
        ensures later { self.old.faults ≤ self.new.faults }
    {
        self.hang_up();
        self.faults = raised(self.faults);
        Failed
    }

    /// Ends the link life that there may be, and begins one: the store's addresses are dialed in order, until one answers.
    pub fn dial(&mut self) -> Result<(), Failed>
        ensures connects { Connects (D.looks_up self.old.dialer) (D.dials self.old.dialer) PATIENCE_SECONDS self.old.store self.new.stream }
        ensures ok { OnOk result (IsSome self.new.stream) }
        ensures same { OnOk result (self.new ≡ record self.old { stream = self.new.stream }) }

        ensures err { OnErr result (self.new ≡ record self.old { stream = None; faults = one_more self.old.faults }) }
        ensures later { self.old.faults ≤ self.new.faults }
    {
        self.stream = None;
        self.stream = connect(&self.dialer, self.store.as_str());
        if self.stream.is_none() {
            return Err(self.fail());
        }
        Ok(())
    }

    /// What the store says next. A link that is not dialed, and one that the store closed, fail.
    pub fn read(&mut self, into: &mut [u8]) -> Result<usize, Failed>
        ensures bound { IfOk result (λ n. (0 < n) × (n ≤ length into.new)) }
        ensures octets { IfOk result (λ n. Consumes (known_of D.Stream.remaining self.old.stream) (known_of D.Stream.remaining self.new.stream) (take n into.new)) }
        ensures ok { OnOk result (IsSome self.new.stream) }
        ensures same { OnOk result (self.new ≡ record self.old { stream = self.new.stream }) }

        ensures undialed { IsNone self.old.stream → IsErr result }
        ensures err { OnErr result (self.new ≡ record self.old { stream = None; faults = one_more self.old.faults }) }
        ensures later { self.old.faults ≤ self.new.faults }
    {
        let got = match &mut self.stream {
            None => None,
            Some(stream) => read_some(stream, into),
        };
        match got {
            Some(count) => Ok(count),
            None => Err(self.fail()),
        }
    }

    /// Tells the store some of the octets, from their front. A link that is not dialed fails.
    pub fn write(&mut self, from: &[u8]) -> Result<usize, Failed>
        ensures bound { IfOk result (λ n. (0 < n) × (n ≤ length from.now)) }
        ensures octets { IfOk result (λ n. Appends (known_of D.Stream.contents self.old.stream) (known_of D.Stream.contents self.new.stream) (take n from.now)) }
        ensures ok { OnOk result (IsSome self.new.stream) }
        ensures same { OnOk result (self.new ≡ record self.old { stream = self.new.stream }) }

        ensures undialed { IsNone self.old.stream → IsErr result }
        ensures err { OnErr result (self.new ≡ record self.old { stream = None; faults = one_more self.old.faults }) }
        ensures later { self.old.faults ≤ self.new.faults }
    {
        let taken = match &mut self.stream {
            None => None,
            Some(stream) => write_some(stream, from),
        };
        match taken {
            Some(count) => Ok(count),
            None => Err(self.fail()),
        }
    }

    /// Ends the link life.
    pub fn hang_up(&mut self)
        ensures { self.new ≡ record self.old { stream = None } }
    {
        self.stream = None;
    }
}

// The stream of the first address of the store that answers.
fn connect<D: Dialer>(dialer: &D, store: &str) -> Option<D::Stream>
    ensures { Connects (D.looks_up dialer.now) (D.dials dialer.now) PATIENCE_SECONDS store.now result }
{
    let mut room = [SocketAddr::V4(SocketAddrV4::new(Ipv4Addr::UNSPECIFIED, 0)); MAX_ADDRESSES];
    let count = dialer.addresses(store, &mut room)?;
    first_answer(dialer, &room[..count])
}

// The stream of the first of the addresses that answers.
fn first_answer<D: Dialer>(dialer: &D, addresses: &[SocketAddr]) -> Option<D::Stream>
    ensures { FirstAnswer (D.dials dialer.now) PATIENCE_SECONDS addresses.now result }
{
    for address in addresses {
        if let Some(stream) = dialer.dial(*address, PATIENCE_SECONDS) {
            return Some(stream);
        }
    }
    None
}
