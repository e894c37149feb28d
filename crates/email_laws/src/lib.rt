//! What the definitions of the items of Email/set promise, as clauses of functions that do nothing.
#![tactic(auto)]

mod laws;

pub use laws::{
    email_destroys_send_both, email_items_append_nothing, email_items_are_fit,
    email_items_begin_held, email_updates_send_what_is_asked,
};
