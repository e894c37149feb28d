//! What the definitions of the items of Mailbox/set promise, as clauses of functions that do nothing.
#![tactic(auto)]

mod laws;

pub use laws::{
    mailbox_creations_send_what_is_asked, mailbox_destroys_send_delete,
    mailbox_items_append_nothing, mailbox_items_are_fit, mailbox_items_begin_held,
    mailbox_updates_send_what_is_asked,
};
