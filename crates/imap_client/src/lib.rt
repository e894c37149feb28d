//! The client of an IMAP store (RFC 9051): one link life after another, exchanges, and what is asked in order: to connect,
//! a round over all folders, the body of a message.
#![tactic(auto)]

// A link life, and plans that are followed in it.
mod client;
mod following;
mod plan;

// Plans.
mod body;
mod connection;
mod dialing;
mod round;
mod selecting;

// Laws.
mod laws;

pub use client::Client;
pub use connection::{Connection, Stage, is_ok, tells};
pub use following::{follow, follow_keeping, follow_torn};
pub use imap_exchange::{LinkEnd, MAX_EXCHANGE_OCTETS, MAX_LIFE_OCTETS};
pub use laws::{
    capabilities_after_login_count, commands_are_sent_in_order, fetches_keep_folders,
    finished_fetches_are_whole, finished_lives_go_on, finished_rounds_are_whole, no_bye_is_welcome,
    obeyed_plans_end_ok, one_fetch, one_round, one_run, refusals_stop, sparse_folders_take_three,
    torn_commands_were_taken,
};
pub use plan::{Due, Plan, Refusal};
pub use round::{Round, RoundStage, is_selectable};
