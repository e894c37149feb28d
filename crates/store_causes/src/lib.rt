//! Whether a store can be used: one link life in which it is asked what serving asks, and the cause where it can't.
#![tactic(auto)]

// Causes.
mod answers;
mod beginning;
mod cause;

// What is known of a life, and a plan that is watched.
mod asking;
mod notes;
mod rounds;
mod watched;

// The check.
mod check;

// Laws.
mod laws;

pub use beginning::MAX_BEGINNING_OCTETS;
pub use cause::{Asked, Breach, StoreCause};
pub use check::{Checked, check_store};
pub use laws::{
    answers_are_so, beginnings_hide_the_password, checks_only_read, checks_take_reads,
    each_stop_has_a_cause, one_cause,
};
