//! The reply of Email/set, Mailbox/set and Email/import by what their items came to, and the ids of what was created (RFC 8620 section
//! 5.3, RFC 8621 sections 2.5, 4.6 and 4.8).
#![tactic(auto)]

// The state that a call names.
mod states;

// Values.
mod emails;
mod refusals;

// The reply, and the ids of what was created.
mod created;
mod lists;
mod replies;

// Laws.
mod laws;

pub use created::put_created;
pub use laws::{items_are_answered, replies_are_whole};
pub use replies::set_reply;
pub use states::is_at_state;
