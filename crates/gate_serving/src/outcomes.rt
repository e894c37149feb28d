// How a client was served.

/// How one client was served.
#[derive(Clone, Copy, Debug, PartialEq, Eq)]
pub enum ClientOutcome {
    /// The response was sent whole.
    Whole,
    /// It wasn't, or there was no request.
    Part,
    /// No client will come.
    NoMore,
    /// Accepting failed.
    AcceptFault,
}
