// Where clients come in.

/// How requests come, and their answers are spelled.
#[derive(Clone, Copy, Debug, PartialEq, Eq)]
pub enum Door {
    /// One request of the API is all that a client gives, and is answered by a line.
    Bare,
    /// HTTP.
    Http,
}
