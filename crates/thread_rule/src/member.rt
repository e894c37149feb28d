// An Email as its header names other Emails, and as a member of a Thread.

use crate::ids::Ids;
use octets::Bytes;

/// An Email by its number, with the ids of its References, In-Reply-To and Message-ID, in this order and each once,
/// and its base subject.
#[derive(Drop)]
pub struct Named {
    /// Also the number of the Thread that it founds where no other Email gives it one.
    pub email: u64,
    /// Without angle brackets. They are compared octet by octet.
    pub ids: Ids,
    /// RFC 5256 section 2.1, compared without regard to case. Empty where there is no Subject.
    pub base: Bytes,
}

/// What is kept of an Email in a Thread: its ids, its base subject, and the Thread's number.
#[derive(Drop)]
pub struct Member {
    /// As in `Named`.
    pub ids: Ids,
    /// As in `Named`.
    pub base: Bytes,
    /// By the rule, the number of the Email that founded it.
    pub thread: u64,
}
