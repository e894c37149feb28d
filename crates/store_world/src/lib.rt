//! A world in memory with a store behind its link, for tests.
#![tactic(auto)]

// Octets on their way.
mod octet_queue;
mod ready;
mod sent;

// What the store replies, and the world.
mod replies;
mod store_world;

pub use store_world::StoreWorld;
