// What rows are sorted by.

use octets::Bytes;

/// A property by which Emails are sorted (RFC 8621 section 4.4.2).
#[derive(Debug, Drop)]
pub enum EmailSort {
    /// `receivedAt`
    ReceivedAt,
    /// `size`
    Size,
    /// `from`: the name, else the address, of the first mailbox.
    From,
    /// `to`: the same of To.
    To,
    /// `subject`: the base subject.
    Subject,
    /// `sentAt`
    SentAt,
    /// `hasKeyword`: whether it has the keyword, which is in lower case, as those below are.
    HasKeyword(Bytes),
    /// `allInThreadHaveKeyword`: whether each Email of its Thread has the keyword.
    AllInThreadHaveKeyword(Bytes),
    /// `someInThreadHaveKeyword`: whether an Email of its Thread has the keyword.
    SomeInThreadHaveKeyword(Bytes),
}

/// A comparator of Emails (RFC 8620 section 5.5).
#[derive(Debug, Drop)]
pub struct EmailComparator {
    /// What is compared.
    pub property: EmailSort,
    /// Whether the lowest comes first.
    pub is_ascending: bool,
}

/// A property by which Mailboxes are sorted (RFC 8621 section 2.3).
#[derive(Clone, Copy, Debug, PartialEq, Eq)]
pub enum MailboxSort {
    /// `name`
    Name,
    /// `sortOrder`, which is 0 of all.
    SortOrder,
}

/// A comparator of Mailboxes.
#[derive(Clone, Copy, Debug, PartialEq, Eq)]
pub struct MailboxComparator {
    /// What is compared.
    pub property: MailboxSort,
    /// Whether the lowest comes first.
    pub is_ascending: bool,
}
