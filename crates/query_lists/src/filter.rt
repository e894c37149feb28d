// How filters are joined.

/// How an operator joins filters (RFC 8620 section 5.5).
#[derive(Clone, Copy, Debug, PartialEq, Eq)]
pub enum FilterOperator {
    /// Each of them takes a row.
    And,
    /// One of them takes it.
    Or,
    /// None of them takes it.
    Not,
}
