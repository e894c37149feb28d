// The rows of the served types.

use crate::Envelope;
use octets::{Bytes, Names, Text};

/// An Email (RFC 8621 section 4). What most queries read stands first, so that they read one place in memory a row.
#[derive(Debug, Drop)]
pub struct EmailRow {
    /// The key of the row among Emails.
    pub number: u64,
    /// That of its message, which is the same in whatever folder the message is.
    pub mark: u64,
    /// The number of its folder.
    pub folder: u64,
    /// When it came, in seconds since 1970-01-01T00:00:00Z.
    pub received: i64,
    /// Octets of the whole message.
    pub size: u64,
    /// The number of its Thread.
    pub thread: u64,
    /// Not served.
    pub uid: u32,
    /// Sorted by octets, each once.
    pub keywords: Names,
    /// As the message has it: where it is long, its first lines.
    pub header: Bytes,
    /// What the header says, as `read_envelope` reads it.
    pub envelope: Envelope,
}

/// What a Mailbox is for (RFC 8621 section 2).
#[derive(Clone, Copy, Debug, PartialEq, Eq)]
pub enum Role {
    /// INBOX, by its name.
    Inbox,
    /// `\All` (RFC 6154 section 2, as those below): all messages of the store.
    All,
    /// `\Archive`: messages that were put away.
    Archive,
    /// `\Drafts`: messages that aren't sent yet.
    Drafts,
    /// `\Flagged`: messages that are marked as important.
    Flagged,
    /// `\Junk`: messages deemed spam.
    Junk,
    /// `\Sent`: copies of messages that were sent.
    Sent,
    /// `\Trash`: messages that were deleted or are to be.
    Trash,
}

/// What the user may do in a Mailbox (RFC 8621 section 2).
#[derive(Clone, Copy, Debug, PartialEq, Eq)]
pub struct Rights {
    /// Its Emails may be listed and fetched.
    pub may_read_items: bool,
    /// Emails may be created in it or moved to it.
    pub may_add_items: bool,
    /// Emails may be moved out of it or destroyed.
    pub may_remove_items: bool,
    /// `$seen` of its Emails may be set and taken away.
    pub may_set_seen: bool,
    /// Any other keyword of them may be set and taken away.
    pub may_set_keywords: bool,
    /// A Mailbox may be made below it.
    pub may_create_child: bool,
    /// It may get another name or another parent.
    pub may_rename: bool,
    /// The Mailbox itself may be destroyed.
    pub may_delete: bool,
    /// Messages may be submitted to it directly.
    pub may_submit: bool,
}

/// A Mailbox (RFC 8621 section 2).
#[derive(Debug, Drop)]
pub struct MailboxRow {
    /// That of its folder, the key of the row.
    pub number: u64,
    /// What follows the parent's name and the delimiter, in UTF-8.
    pub name: Text,
    /// The folder's name as the store told it. Not served.
    pub full_name: Bytes,
    /// The number of the folder with the longest name above this one; None where no folder is above.
    pub parent: Option<u64>,
    /// None where the folder has none, or one of a lower number has the same.
    pub role: Option<Role>,
    /// Whether the store told `\Subscribed` of the folder.
    pub subscribed: bool,
    /// By the folder's attributes, its delimiter and whether it is INBOX.
    pub rights: Rights,
    /// Its Emails.
    pub total_emails: u64,
    /// Those of them that have neither `$seen` nor `$draft`.
    pub unread_emails: u64,
    /// Threads with an Email in it.
    pub total_threads: u64,
    /// Those of these Threads that have an unread Email, in whatever Mailbox.
    pub unread_threads: u64,
}
