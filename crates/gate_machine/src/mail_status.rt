// Whether the mail of a request can be told, and why not.
use imap_client::LinkEnd;

/// Why the mail of a request can't be told.
#[derive(Clone, Copy, Debug, PartialEq, Drop)]
pub enum MailFailure {
    /// Connecting, or the round, came to this end, which is not out of memory.
    Linked(LinkEnd),
    /// The mail is new, and the place of the history would pass the last one.
    Spent,
    /// An earlier call of the request changed mail and failed in part, or what it changed could not be served.
    Broken,
}

/// Whether what was begun for a request stands.
#[derive(Clone, Copy, Debug, PartialEq, Drop)]
pub enum MailStatus {
    /// All of it does, the round too once it was made.
    Stands,
    /// Not all of it does, for this reason.
    Unserved(MailFailure),
    /// Not all of it does, as an allocation was refused.
    OutOfMemory,
}

/// Why told mail isn't served.
#[derive(Clone, Copy, Debug, PartialEq, Drop)]
pub enum CommitEnd {
    /// A place would pass the last one.
    Spent,
    /// Out of memory.
    Memory,
}
