//! Clients that come over TCP, one handed on at a time: those that have not sent a whole head yet are held and block nobody,
//! and a request has a deadline.
#![tactic(auto)]

// What is asked of a host.
mod clock;
mod sockets;
mod toolchain;

// Where a head begins, and where it ends.
mod first_octet;
mod line_ends;

// Clients that wait until their head is whole.
mod holding;
mod scan;
mod waiting;

// The client that is served, and its deadlines.
mod progress;
mod serving;

// All of them.
mod acceptor;
mod front;

// What is proved of the definitions.
pub mod laws;

pub use client_streams::{
    ClientStream, DRAIN_MILLISECONDS, MAX_DRAIN_OCTETS, MAX_FLUSHING_CLIENTS, MAX_KEPT_OCTETS,
    MAX_LINGERING_CLIENTS, MIN_OCTETS_PER_MILLISECOND, PATIENCE_MILLISECONDS, STALL_MILLISECONDS,
    TcpClient, read_once, write_once,
};
pub use clock::Ticks;
pub use front::ClientFront;
pub use progress::HEAD_MILLISECONDS;
pub use scan::MAX_HEAD_OCTETS;
pub use sockets::{ClientListener, Next};
pub use toolchain::TcpClients;
pub use waiting::{IDLE_MILLISECONDS, MAX_HELD_CLIENTS};
