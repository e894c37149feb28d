//! What an Email/get or an Email/parse asks of each Email (RFC 8621 sections 4.1, 4.2 and 4.9): its properties, those of the parts of
//! its body, and which values of the body.
#![tactic(auto)]

// Properties that header fields give.
mod header_form;
mod header_property;

// Properties.
mod email_property;
mod part_property;

// What is asked.
mod defaults;
mod kinds;
mod wanted;

// Laws.
pub mod laws;

pub use defaults::{Defaults, email_defaults, part_defaults};
pub use email_property::{EmailProperty, email_key, email_property_named};
pub use header_form::{HeaderForm, is_permitted};
pub use header_property::{HeaderProperty, header_property_named};
pub use kinds::flag_at;
pub use part_property::{PartProperty, part_key, part_property_named};
pub use wanted::{BodyWanted, EmailWanted, email_wanted, needs_body};
