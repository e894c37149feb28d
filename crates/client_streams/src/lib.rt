//! A client's stream, how long a client may take over octets, and clients whose response has ended: they take what is left of it, and
//! stay for a short time, while others are served.
#![tactic(auto)]

// A client's stream, and the toolchain's under it.
mod client_stream;
mod streams;
mod tcp_client;

// How long octets may take.
mod pace;
mod taking;

// What a client has not taken yet of its response.
mod flushing;
mod send_buffer;
mod unflushed;

// Clients whose response has ended.
mod finished;
mod leaving;
mod lingering;

pub use client_stream::ClientStream;
pub use finished::{DRAIN_MILLISECONDS, Finished, MAX_DRAIN_OCTETS};
pub use flushing::{Flushing, MAX_FLUSHING_CLIENTS};
pub use leaving::Leaving;
pub use lingering::{Lingering, MAX_LINGERING_CLIENTS};
pub use pace::{
    MIN_OCTETS_PER_MILLISECOND, PATIENCE_MILLISECONDS, Pace, STALL_MILLISECONDS, left, patience,
};
pub use send_buffer::{MAX_KEPT_OCTETS, SendBuffer};
pub use streams::{read_once, write_once};
pub use taking::Taking;
pub use tcp_client::TcpClient;
pub use unflushed::{Flow, MAX_STEP_MILLISECONDS, Unflushed};
