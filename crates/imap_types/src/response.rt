// What a store's responses say (RFC 9051 section 7).
use crate::code::Code;
use crate::uid_set::UidSet;
use octets::{Bytes, Names};

/// The status of a tagged or an untagged status response.
#[derive(Clone, Copy, Debug, PartialEq, Drop)]
pub enum Status {
    /// RFC 9051 section 7.1.1. With a tag: the command is done.
    Ok,
    /// RFC 9051 section 7.1.2. With a tag: the command is refused.
    No,
    /// RFC 9051 section 7.1.3. With a tag: the command isn't understood.
    Bad,
    /// A greeting after which no LOGIN is due (RFC 9051 section 7.1.4); it has no tag.
    Preauth,
    /// The store is about to close the link (RFC 9051 section 7.1.5); it has no tag.
    Bye,
}

/// The items of a FETCH response, of each the last one told.
#[derive(Debug, PartialEq, Drop)]
pub struct FetchItems {
    /// Never 0. None where it wasn't told; so with each other item.
    pub uid: Option<u32>,
    /// In kept form: lower case, sorted by octets, each once, without `\recent`.
    pub flags: Option<Names>,
    /// The mod-sequence (RFC 7162 section 3.1.4.2).
    pub modseq: Option<u64>,
    /// When the message came, in seconds since 1970-01-01T00:00:00Z, within the years 0 to 9999.
    pub date: Option<i64>,
    /// Octets of the whole message.
    pub size: Option<u64>,
    /// The first 32,768 octets of the message's header.
    pub header: Option<Bytes>,
    /// The first 50,000,000 octets of the message.
    pub body: Option<Bytes>,
}

/// The items of a STATUS response, of each the last one told.
#[derive(Clone, Copy, Debug, PartialEq, Drop)]
pub struct StatusItems {
    /// How many the folder has. A value above 2^32 - 1 is passed over; so with both that follow.
    pub messages: Option<u32>,
    /// UIDNEXT.
    pub uid_next: Option<u32>,
    /// UIDVALIDITY.
    pub uid_validity: Option<u32>,
    /// The greatest mod-sequence (RFC 7162 section 3.1.2.1).
    pub modseq: Option<u64>,
}

/// What one response says.
#[derive(Debug, PartialEq, Drop)]
pub enum Response {
    /// The line that completes a command: OK, NO or BAD.
    Tagged {
        /// 1 to 32 letters and digits.
        tag: Bytes,
        status: Status,
        code: Code,
    },
    /// A status line after `* `, of any status.
    Untagged {
        status: Status,
        code: Code,
    },
    /// A continuation.
    Continue,
    /// The words as they were told.
    Capability(Names),
    /// The words as they were told.
    Enabled(Names),
    /// A folder. A name that is INBOX in letters of any case is `INBOX`.
    List {
        /// In kept form, as flags.
        attributes: Names,
        /// None where folders have no hierarchy.
        delimiter: Option<u8>,
        name: Bytes,
    },
    /// Counts of a folder, whose name is as in a LIST.
    StatusItems {
        name: Bytes,
        items: StatusItems,
    },
    /// In kept form, as in a FETCH.
    Flags(Names),
    /// How many messages the selected folder has (RFC 9051 section 7.4.1).
    Exists(u32),
    /// The sequence number of a message that is gone (RFC 9051 section 7.5.1).
    Expunge(u32),
    /// What is told of one message (RFC 9051 section 7.5.2).
    Fetch {
        /// Its sequence number, which isn't its UID.
        seq: u32,
        items: FetchItems,
    },
    /// UIDs of messages that are gone (RFC 7162 section 3.2.10).
    Vanished {
        /// Whether `(EARLIER)` stands before them.
        earlier: bool,
        uids: UidSet,
    },
    /// An untagged line that begins otherwise. What it says isn't kept.
    Other,
}
