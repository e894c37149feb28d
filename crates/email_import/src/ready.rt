// An import whose octets are to be sought.

use octets::{Bytes, Names, Text};

/// What is kept of an import whose properties are right, until its octets are there.
#[derive(Drop)]
pub struct ReadyImport {
    /// The id of the blob that its message is.
    pub blob: Text,
    /// The name of the folder that its message is put into.
    pub name: Bytes,
    /// Whether that folder takes messages.
    pub takes: bool,
    /// The flags of its keywords.
    pub flags: Names,
    /// The second that is asked as its date, since 1970-01-01T00:00:00Z.
    pub date: Option<i64>,
}
