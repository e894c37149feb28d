//! What the message of an Email that is to be created says (RFC 8621 section 4.6). No value has a control character where it could
//! break a line of the message.
#![tactic(auto)]

// Parts of a draft.
pub mod attachment;
pub mod mailbox;

// The whole.
pub mod draft;
pub mod error;

pub use attachment::Attachment;
pub use draft::Draft;
pub use error::BuildError;
pub use mailbox::Mailbox;
