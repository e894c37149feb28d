//! Clients are served, one after another: what they ask at either door, the mail over which they are answered, and what they
//! are sent.
#![tactic(auto)]

// Who is served, and what clients ask.
mod account;
mod asking;
mod door;
mod front;
mod reading;
mod upload;

// The work, and answers.
mod answers;
mod line;
mod response;

// One client after another.
mod clients;
mod gate;
mod outcomes;

// Laws.
mod laws;

pub use clients::serve;
pub use door::Door;
pub use front::{FrontError, Input, receive};
pub use gate::Gate;
pub use laws::{
    answers_are_of_the_served_history, histories_go_on, no_fault_no_blame, no_life_without_need,
    obeyed_clients_are_told, obeyed_requests_answered, obeyed_runs_are_told, one_answer,
    quiet_runs_are_told, runs_keep_told_bodies, runs_know_what_was_told,
};
pub use line::with_line_end;
pub use outcomes::ClientOutcome;
