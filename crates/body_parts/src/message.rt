// Messages whose bodies are shown.

/// A message whose body is shown.
#[derive(Clone, Copy, Debug)]
pub struct ParsedMessage<'a> {
    /// Its octets, which may be any.
    pub octets: &'a [u8],
    /// Its blob id, from which its parts have theirs. None where its parts have none.
    pub id: Option<&'a [u8]>,
}
