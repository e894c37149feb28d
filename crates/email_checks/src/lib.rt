//! The checks of the items of Email/set, in order, and what each item is to do (RFC 8620 section 5.3, RFC 8621 section 4.6).
#![tactic(auto)]

// Parts of patches.
mod email_test;
mod keywords;

// What they ask.
mod folders_asked;
mod keywords_asked;

// What an item is to do.
mod email_update;
mod emails;

pub use email_test::{is_map_of_folders, is_map_of_keywords};
pub use email_update::can_be_moved_into;
pub use emails::{destroy_email, update_email};
pub use keywords::{flag_of, keywords_in};
