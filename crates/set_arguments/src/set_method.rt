// The methods that change mail.

/// A method whose items change mail (RFC 8620 section 5.3).
#[derive(Clone, Copy, Debug, PartialEq, Drop)]
pub enum SetMethod {
    /// Email/set (RFC 8621 section 4.6).
    EmailSet,
    /// Mailbox/set (RFC 8621 section 2.5).
    MailboxSet,
    /// Email/import (RFC 8621 section 4.8).
    EmailImport,
}
