// Why a store can't be used.
use octets::Bytes;

/// What a store was to say or to answer.
#[derive(Debug, PartialEq, Drop)]
pub enum Asked {
    /// Its greeting (RFC 9051 section 7.1).
    Greeting,
    /// CAPABILITY, before LOGIN or after it.
    Capabilities,
    /// LOGIN.
    Login,
    /// ENABLE of IMAP4rev2 and QRESYNC.
    Enabling,
    /// LIST.
    Listing,
    /// SELECT of this folder.
    Selecting(Bytes),
    /// What is fetched in this folder.
    Fetching(Bytes),
}

/// Why something isn't answered.
#[derive(Clone, Copy, Debug, PartialEq, Eq, Drop)]
pub enum Breach {
    /// The link failed: the store said nothing for too long, or ended it.
    Silent,
    /// An untagged BYE.
    Bye,
    /// No response begins at this offset of the octets that the store gave in the life.
    Unreadable { at: u64 },
    /// A tagged line with another tag than the one that is due, or an OK before the command could be sent whole.
    Stray,
    /// More octets than an exchange or a life may have.
    TooMuch,
}

/// Why a store can't be used.
#[derive(Debug, PartialEq, Drop)]
pub enum StoreCause {
    /// It isn't reached.
    Unreached,
    /// This isn't answered.
    Unanswered { asked: Asked, breach: Breach },
    /// This is answered NO or BAD.
    Refused(Asked),
    /// LOGIN isn't allowed over this link: LOGINDISABLED (RFC 9051 section 6.2.3).
    LoginDisabled,
    /// What it told after LOGIN lacks one of them: whether it told IMAP4rev2, and QRESYNC.
    Lacking { rev2: bool, qresync: bool },
    /// ENABLE was answered OK, and QRESYNC isn't enabled.
    NotEnabled,
    /// The OK to the SELECT of this folder told no UIDVALIDITY.
    NoValidity(Bytes),
}
