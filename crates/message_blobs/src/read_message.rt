// Messages that were read.
ghost use Rattle.std.specs.Prelude.{◌≡◌, ℕ, List, IfOk, MatchOption};
ghost use Rattle.message_blobs.specs.NestedLeaves.{LeafSpells};

use mime_tree::{Part, parse, part_bytes};
use octets::Bytes;
use std::alloc::{AllocError, Global};
use std::marker::Model;

/// A message that was read: its octets, and the tree of its parts. Contracts see the octets.
#[derive(Drop)]
pub(crate) struct ReadMessage {
    octets: Bytes,
    tree: Part,
}

impl Model for ReadMessage {
    ghost use Rattle.std.specs.Prelude.{List, ℕ};
    ghost use Rattle.message_blobs.specs.reading.ReadMessages.{IsTreeOf};

    ghost Value = { List ℕ };

    ghost view = { λ m. m.octets };

    ghost invariant = { λ m. IsTreeOf m.octets m.tree };
}

impl ReadMessage {
    /// The octets as a message, as any octets are. They are parsed once.
    pub(crate) fn read(alloc: Global, octets: Bytes) -> Result<ReadMessage, AllocError>
        ensures { IfOk result (λ m. m ≡ octets) }
    {
        let tree = parse(alloc, octets.as_slice())?;
        Ok(ReadMessage { octets, tree })
    }

    /// The octets that the leaf of this number spells, where the message has one.
    pub(crate) fn leaf(&self, alloc: Global, number: u64) -> Result<Option<Bytes>, AllocError>
        ensures { IfOk result (λ found. MatchOption found
            ((s : List ℕ) → LeafSpells self.now number s → ⊥)
            (λ s. LeafSpells self.now number s)) }
    {
        match self.tree.leaf(number) {
            None => Ok(None),
            Some(leaf) => {
                let (spelled, _) = part_bytes(alloc, self.octets.as_slice(), leaf)?;
                Ok(Some(Bytes::from_vec(spelled)?))
            }
        }
    }
}
