// Conditions of Emails.

use octets::{Bytes, Names};
use std::collections::BTreeSet;

/// A field of whose text a condition speaks.
#[derive(Clone, Copy, Debug, PartialEq, Eq)]
pub enum TextField {
    /// From
    From,
    /// To
    To,
    /// Cc
    Cc,
    /// Bcc
    Bcc,
    /// Subject
    Subject,
}

/// A condition of an Email that its own row decides (RFC 8621 section 4.4.1).
#[derive(Debug, Drop)]
pub enum RecordCondition {
    /// `inMailbox`: it is in this Mailbox. None for an id that no Mailbox can have.
    InMailbox(Option<u64>),
    /// `inMailboxOtherThan`: it is in none of these Mailboxes.
    InMailboxOtherThan(BTreeSet<u64>),
    /// `before`: it was received before this time, in seconds since 1970-01-01T00:00:00Z.
    Before(i64),
    /// `after`: it was received at this time or later.
    After(i64),
    /// `minSize`: it has at least so many octets.
    MinSize(u64),
    /// `maxSize`: it has fewer octets.
    MaxSize(u64),
    /// `hasKeyword`: it has the keyword, which is in lower case.
    HasKeyword(Bytes),
    /// `notKeyword`: it hasn't the keyword, which is in lower case.
    NotKeyword(Bytes),
    /// `from`, `to`, `cc`, `bcc` and `subject`: each of the words stands in the field's text.
    InField {
        /// The field.
        field: TextField,
        /// The words and phrases.
        words: Names,
    },
}

/// How many Emails of a Thread.
#[derive(Clone, Copy, Debug, PartialEq, Eq)]
pub enum Quantity {
    /// `allInThreadHaveKeyword`
    All,
    /// `someInThreadHaveKeyword`
    Some,
    /// `noneInThreadHaveKeyword`
    None,
}
