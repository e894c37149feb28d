// A creation that passes its checks.

use mail_drafts::Draft;
use octets::{Bytes, Names};

/// What is kept of a creation that passes its checks, until a moment and a word are drawn for its message.
#[derive(Drop)]
pub struct ReadyCreation {
    /// The name of the folder that its message is put into.
    pub name: Bytes,
    /// What its message says.
    pub draft: Draft,
    /// The flags of its keywords.
    pub flags: Names,
    /// The second that is asked as its date, since 1970-01-01T00:00:00Z.
    pub date: Option<i64>,
}
