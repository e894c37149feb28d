// What an octet does.

/// What an octet does to the first symbol of a stack.
#[derive(Clone, Copy)]
pub enum Move<S> {
    /// No text goes on so.
    Fail,
    /// The symbol ends before the octet.
    Yield,
    /// The octet ends the symbol.
    End,
    /// The octet is taken, and this symbol stands in place of the one before.
    One(S),
    /// The octet is taken; the first of these reads on, and the second reads after it.
    Two(S, S),
}
