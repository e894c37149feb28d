//! What the definitions of changing calls promise of the calls of a request, as clauses of functions that do nothing.
#![tactic(auto)]

mod laws;

pub use laws::{
    calls_keep_one_history, causes_end_calls, changing_calls_end_by_their_causes,
    ended_lives_have_causes, items_are_fit, set_calls_end_by_their_causes,
};
