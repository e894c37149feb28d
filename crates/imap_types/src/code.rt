// Codes of status lines (RFC 9051 section 7.1).
use crate::uid_set::UidSet;

/// The code in brackets at the front of a status line's text.
#[derive(Debug, PartialEq, Drop)]
pub enum Code {
    /// No text in brackets stands there.
    Absent,
    /// RFC 9051 section 7.1. Never 0.
    UidValidity(u32),
    /// No message to come has a lesser UID (RFC 9051 section 7.1). Never 0.
    UidNext(u32),
    /// RFC 7162 section 3.1.2.1.
    HighestModSeq(u64),
    /// RFC 7162 section 3.1.2.2.
    NoModSeq,
    /// RFC 7162 section 3.2.11.
    Closed,
    /// The UIDVALIDITY of the folder and the UID that a message got there (RFC 4315 section 3).
    AppendUid {
        validity: u32,
        uid: u32,
    },
    /// The UIDVALIDITY of the target, the UIDs that were copied and those that they got (RFC 4315 section 3).
    CopyUid {
        validity: u32,
        from: UidSet,
        to: UidSet,
    },
    /// RFC 5530 section 3.
    OverQuota,
    /// Another text in brackets.
    Other,
}
