// The capabilities that a request uses.

/// Which capabilities a request uses (RFC 8620 section 3.3).
#[derive(Clone, Copy, Debug, PartialEq, Eq)]
pub struct Using {
    /// `urn:ietf:params:jmap:core`
    pub core: bool,
    /// `urn:ietf:params:jmap:mail`
    pub mail: bool,
}
