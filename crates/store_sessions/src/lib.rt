//! Sessions over octets with a store that answers commands: each client is greeted, its commands are read as its octets come, and
//! each is answered (RFC 9051 sections 3 and 7.6).
#![tactic(auto)]

// What is behind a session, and what a client's octets come to.
mod command_store;
mod turn;

// One session, and one client after another.
mod clients;
mod next;
mod session;

// What holds of commands and of sessions.
mod laws;

pub use clients::serve_sessions;
pub use command_store::CommandStore;
pub use laws::{clients_are_answered, read_may_be_told};
pub use next::SessionError;
pub use session::{GREETING, serve_client};
pub use turn::{Turn, take_turn};
