// Addresses and groups.
use octets::{Bytes, Listed};

/// A mailbox: its name in UTF-8, where it has one, and its address as it is spelled.
#[derive(PartialEq, Debug, Drop)]
pub struct Address {
    /// The text of the phrase; without a phrase, that of a comment after the address, where it isn't empty. Encoded
    /// words are decoded (RFC 2047). It has no control characters.
    pub name: Option<Bytes>,
    /// Without white space, comments and line ends. It may lack the `@`.
    pub email: Bytes,
}

/// A group of mailboxes (RFC 5322 section 3.4), or a run of mailboxes outside a group, which has no name.
#[derive(PartialEq, Debug, Drop)]
pub struct Group {
    /// The text of the phrase, with encoded words decoded. None in a run outside a group.
    pub name: Option<Bytes>,
    /// In their order. A group may have none, a run outside a group has one or more.
    pub members: Listed<Address>,
}
