// Mailboxes with their numbers.

use mail_maps::MailboxRow;

/// A Mailbox with its number.
#[derive(Clone, Copy, Debug)]
pub struct MailboxEntry<'a> {
    /// Its number among Mailboxes.
    pub number: u64,
    /// Its row.
    pub row: &'a MailboxRow,
}
