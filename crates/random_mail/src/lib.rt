//! Mail that a store tells, where each change of it is a line, and changes that are drawn at random.
#![tactic(auto)]

// Changes that are told.
mod told;

// Changes that are drawn.
mod random;

pub use random::Random;
pub use told::Told;
