// Tokens, and the alphabets by which atoms are cut.
/// Which octets are letters of an atom.
#[derive(Clone, Copy, PartialEq, Eq, Debug)]
pub enum Alphabet {
    /// All but the specials of mail (RFC 5322 section 3.2.3).
    Mail,
    /// All but the specials of MIME (RFC 2045 section 5.1).
    Mime,
}

/// What a token is.
#[derive(Clone, Copy, PartialEq, Eq, Debug)]
pub enum Kind {
    /// Octets that are no specials. Those above 127 are letters.
    Atom,
    /// White space and folding.
    Space,
    /// A quoted text, with its quotes.
    Quoted,
    /// What stands in square brackets, with them.
    Literal,
    /// A comment, with its parentheses.
    Comment,
    /// One of `< > @ , ; :`, and in mail `.`, in MIME `/ ? =`.
    Mark,
}

/// A token, and the octets that spell it.
#[derive(Clone, Copy, Debug)]
pub struct Token<'a> {
    /// What `text` is, by its alphabet.
    pub kind: Kind,
    /// At least one octet of the value, as it stands.
    pub text: &'a [u8],
}
