// What routes are found by.

/// The method and the target of a request, as they were sent.
#[derive(Clone, Copy)]
pub struct RouteRequest<'a> {
    /// Case counts (RFC 9110 section 9.1).
    pub method: &'a [u8],
    /// The target up to its first `?`, with its escapes.
    pub path: &'a str,
    /// The target after its first `?`, with its escapes.
    pub query: &'a str,
}
