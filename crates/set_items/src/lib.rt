//! An item of a call that changes mail: what it asks of the store step by step, what the answers make of it, and how it is done
//! in the link life of its request (RFC 8620 section 5.3).
#![tactic(auto)]

// How far an item is, and what an answer makes of it.
mod obeying;
mod selecting;
mod stage;

// An item is done.
mod item;
mod item_plan;
mod sharing;

// Laws.
mod laws;

pub use item::{ItemEnd, do_item};
pub use laws::{
    causes_end_items, ended_lives_break_no_call, exchanges_are_answers, items_end_by_their_causes,
    made_by_one_append, no_append_is_repeated, partial_only_after_a_change,
    refused_items_send_no_more,
};
