//! Which octets a blob id names (RFC 8620 section 6, RFC 8621 section 4.1.4): the message of an Email or an upload, or a
//! leaf within it, however deep messages stand in messages.
#![tactic(auto)]

// Ids.
mod blob_id;
mod leaf_numbers;

// Octets.
mod nested_leaves;
mod read_blob;
mod read_message;

// Laws.
pub mod laws;

pub use blob_id::{BlobId, EMAIL_ROOT, Root, read_blob_id};
pub use leaf_numbers::{LEAF_MARK, MAX_LEAVES};
pub use read_blob::ReadBlob;
