// Leaves that aren't encoded yet.
use octets::Bytes;

/// The octets of a leaf, and the text before them.
#[derive(Drop)]
pub(crate) struct Leaf {
    pub before: Vec<u8>,
    pub octets: Bytes,
}
