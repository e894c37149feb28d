// What a scanner answers.

/// What octets are, so far.
#[derive(Clone, Copy, Debug, PartialEq, Eq, Drop)]
pub enum Answer {
    /// The first n octets are a whole text.
    Whole(usize),
    /// They begin a text, and are none yet.
    NeedMore,
    /// The octet at this place is the first that no text has there.
    Bad(usize),
}
