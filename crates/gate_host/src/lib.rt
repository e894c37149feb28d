//! The outside of the gateway on a real host: a store over TCP, clients over the standard streams or a listener, a
//! console, a clock, and random words. None of them tells a tape; each counts its faults.
#![tactic(auto)]

// What a host gives.
mod chance;
mod faults;
mod host;
mod moment;
mod session_listener;
mod sockets;
mod streams;

// The parts of the world.
mod clients;
mod error_console;
mod listener_front;
mod session_front;
mod standard_front;
mod tcp_link;

// All of them.
mod host_world;

pub use chance::random_word;
pub use clients::Clients;
pub use error_console::ErrorConsole;
pub use host::Host;
pub use host_world::HostWorld;
pub use listener_front::ListenerFront;
pub use moment::{WallClock, present_moment, seconds_over};
pub use session_front::{SESSION_READ_SECONDS, SESSION_WRITE_SECONDS, SessionFront};
pub use session_listener::{SessionListener, TcpSessions};
pub use sockets::{Dialer, Draws, addresses_over, draw_over};
pub use standard_front::StandardFront;
pub use tcp_link::{MAX_ADDRESSES, PATIENCE_SECONDS, TcpLink};
