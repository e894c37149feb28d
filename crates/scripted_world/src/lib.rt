//! Worlds in memory that follow a script.
#![tactic(auto)]

// What is followed, and what is left of it.
mod left;
mod playback;
mod script;

// The worlds.
mod script_world;
mod steady_world;

pub use script::{Fail, Script};
pub use script_world::ScriptWorld;
pub use steady_world::SteadyWorld;
