//! The checks of the items of Mailbox/set, in order, and what each asks of the store (RFC 8620 section 5.3, RFC 8621 section 2.5).
#![tactic(auto)]

// What is asked, and what is sent for it.
mod properties;
mod steps;

// Items.
mod create;
mod destroy;
mod update;

// Laws.
pub mod laws;

pub use create::create_mailbox;
pub use destroy::destroy_mailbox;
pub use properties::wrong_parent;
pub use update::update_mailbox;
