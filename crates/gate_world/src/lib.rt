//! The outside of the gateway: its parts as traits, and what each call adds to the tape of events.
#![tactic(auto)]

// The outside.
mod event;
mod outside;
mod tape;
mod watcher;

// Texts that are sent, octets that came.
mod sending;
mod unread;

pub use event::Event;
pub use outside::{
    Chance, Clock, Console, Failed, Front, KeepError, Keeper, Link, Secrets, Taped, World,
};
pub use sending::{send_all, write_all};
pub use tape::Tape;
pub use unread::{FillError, MAX_FILL_OCTETS, Unread};
pub use watcher::Watcher;
