//! Patches of Email/set and Mailbox/set, and when two values are one (RFC 8620 section 5.3).
#![tactic(auto)]

mod patches;
mod values;

pub use patches::{
    Part, Pointer, PropertyTest, is_invalid_patch, patch_of, properties_of, wrong_properties,
};
pub use values::same_value;
