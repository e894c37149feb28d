// Conditions of Mailboxes.

use mail_maps::Role;
use octets::Bytes;

/// A condition of Mailboxes (RFC 8621 section 2.3).
#[derive(Debug, Drop)]
pub enum MailboxCondition {
    /// `parentId` null: it has no parent.
    IsTop,
    /// `parentId`: this Mailbox is its parent. None for an id that no Mailbox can have.
    HasParent(Option<u64>),
    /// `name`: the word stands in its name.
    Name(Bytes),
    /// `role` null: it has no role.
    HasNoRole,
    /// `role`: it has this role. None for a name that no role has.
    HasRole(Option<Role>),
    /// `hasAnyRole`: whether it has a role.
    HasAnyRole(bool),
    /// `isSubscribed`: whether it is subscribed.
    IsSubscribed(bool),
}
