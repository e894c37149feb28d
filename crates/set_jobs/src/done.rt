// What an item of a changing call comes to (RFC 8620 section 5.3).

use octets::{Listed, Names, Text};

/// Why an item was not done (RFC 8620 section 5.3, RFC 8621 sections 2.5 and 4.6).
#[derive(Debug, Drop)]
pub enum SetError {
    /// A right is false, or the store refused.
    Forbidden,
    /// The store refused as a quota is full.
    OverQuota,
    /// A message is longer than 50,000,000 octets.
    TooLarge,
    /// There is no such object.
    NotFound,
    /// A pointer of the patch overlaps another, or leads nowhere.
    InvalidPatch,
    /// These have wrong values, sorted, each once.
    InvalidProperties { properties: Listed<Text> },
    /// There are no such blobs.
    BlobNotFound { ids: Listed<Text> },
    /// An Email is in one Mailbox.
    TooManyMailboxes,
    /// A Mailbox is below it.
    MailboxHasChild,
    /// An Email is in it.
    MailboxHasEmail,
}

/// What an item of a changing call came to.
#[derive(Debug, Drop)]
pub enum Done {
    /// A message was put into a folder, under this mark.
    Made { mark: u64, size: u64 },
    /// A folder was made.
    MadeMailbox { number: u64 },
    /// The object of this number was changed. `asked` is the whole set of keywords that an Email was to have, where these were
    /// patched.
    Changed { number: u64, asked: Option<Names> },
    /// The object of this number is gone.
    Gone { number: u64 },
    /// It was not done.
    Not(SetError),
}
