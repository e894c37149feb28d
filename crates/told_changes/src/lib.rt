//! What a completed exchange tells, also one that changes mail: where messages went, what became of flags and folders.
#![tactic(auto)]

// Where messages went.
mod appends;
mod codes;
mod headers;
mod landing;
mod landings;
mod moves;

// Flags and folders.
mod changes;

// The whole.
mod laws;
mod telling;

pub use landing::Landing;
pub use landings::{contradiction, told_landing};
pub use laws::{
    changing_goes_on, changing_keeps_well_formed, contradicted_tells_nothing, next_is_not_passed,
    reading_tells_as_before,
};
pub use telling::{is_changing, tell};
