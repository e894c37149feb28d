// A method call, and the response to one.
use octets::Text;
use serde_json::Value;

/// A method call (RFC 8620 section 3.2): the method's name, its arguments and the id of the call. The response to one
/// has the same three.
#[derive(Drop)]
pub struct Call {
    /// In a response that of its call, or `error`.
    pub name: Text,
    /// An object.
    pub arguments: Value,
    /// The client's, which the response repeats.
    pub id: Text,
}
