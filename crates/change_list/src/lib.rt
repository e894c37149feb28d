//! The last touches of a type, what changed since a place (RFC 8620, section 5.2), and the laws by which a client's
//! copy stays right.
#![tactic(auto)]

// Touches and answers.
mod answer;
mod entries;
mod error;

// The list.
mod list;
mod parts;
mod since;
mod walk;

// Laws.
pub mod laws;

pub use answer::Changes;
pub use entries::{Entry, Kind};
pub use error::SinceError;
pub use list::{ChangeList, MAX_PLACE, WINDOW};
