// What a scanner answers.

/// What octets are, so far.
#[derive(Clone, Copy, Debug, PartialEq, Eq, Drop)]
pub enum Scan {
    /// The first n octets are a response.
    Whole(usize),
    /// They begin a response, and are none yet.
    NeedMore,
    /// The octet at this place is the first that no response has there.
    Bad(usize),
}
