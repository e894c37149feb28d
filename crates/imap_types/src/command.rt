// What a store is asked (RFC 9051 section 6, RFC 6154 section 2, RFC 7162 section 3.2).
use octets::{Bytes, Names};

/// A command of the client.
#[derive(Debug, PartialEq, Drop)]
pub enum Command {
    /// RFC 9051 section 6.1.1.
    Capability,
    /// RFC 9051 section 6.2.3. A user or password with an octet outside 32 to 126 is sent as a literal, else quoted.
    Login {
        user: Bytes,
        password: Bytes,
    },
    /// QRESYNC and IMAP4rev2.
    Enable,
    /// Every folder, and whether it is subscribed (RFC 9051 section 6.3.9).
    List {
        /// Whether the special-use attributes are asked too (RFC 6154 section 2).
        special_use: bool,
    },
    /// RFC 9051 section 6.3.2; with QRESYNC where the folder is known (RFC 7162 section 3.2.5).
    Select {
        name: Bytes,
        /// The validity and the mod-sequence up to which the folder is known.
        known: Option<(u32, u64)>,
    },
    /// RFC 9051 section 6.4.2.
    Unselect,
    /// The UID and flags of every message of the selected folder.
    FetchFlags,
    /// Headers of the messages from one UID to another. `modseq` says whether the folder has mod-sequences.
    FetchSlice {
        from: u32,
        /// It is among them.
        to: u32,
        modseq: bool,
    },
    /// Headers of the messages from a UID on.
    FetchNew {
        /// A store tells the message of the greatest UID even where all are below (RFC 9051 section 6.4.9).
        from: u32,
        modseq: bool,
    },
    /// The first 50,000,000 octets of a message of the selected folder, which doesn't become seen.
    FetchBody {
        uid: u32,
    },
    /// Changes flags of a message of the selected folder (RFC 9051 section 6.4.6).
    Store {
        uid: u32,
        /// Whether the flags are set, and not taken.
        add: bool,
        /// As they are kept, in lower case; system flags are sent with a capital, as `\Seen`.
        flags: Names,
    },
    /// Moves a message of the selected folder to the named one (RFC 9051 section 6.4.8).
    Move {
        uid: u32,
        name: Bytes,
    },
    /// Removes a message of the selected folder where it has `\Deleted` (UID EXPUNGE, RFC 9051 section 6.4.9).
    Expunge {
        uid: u32,
    },
    /// Puts a message into a folder (RFC 9051 section 6.3.12), as a literal.
    Append {
        name: Bytes,
        /// As for `Store`.
        flags: Names,
        /// Seconds since 1970-01-01T00:00:00Z. Outside the years 0 to 9999 the nearest second of them is sent.
        date: i64,
        message: Bytes,
    },
    /// RFC 9051 section 6.3.4.
    Create {
        name: Bytes,
    },
    /// RFC 9051 section 6.3.5.
    Delete {
        name: Bytes,
    },
    /// RFC 9051 section 6.3.6.
    Rename {
        from: Bytes,
        to: Bytes,
    },
    /// RFC 9051 sections 6.3.7 and 6.3.8.
    Subscribe {
        name: Bytes,
        /// Whether the folder is subscribed, and not unsubscribed.
        on: bool,
    },
}
