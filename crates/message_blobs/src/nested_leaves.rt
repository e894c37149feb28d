// The octets of a leaf, by the numbers of the leaves that it stands in.
ghost use Rattle.std.specs.Prelude.{List, ℕ, IfOk, MatchOption};
ghost use Rattle.message_blobs.specs.NestedLeaves.{LeafSpells, NamesOctets};

use crate::read_message::ReadMessage;
use octets::Bytes;
use std::alloc::{AllocError, Global};

/// The octets that the leaf of this number spells, where these are a message that has one.
fn leaf_of(alloc: Global, octets: &Bytes, number: u64) -> Result<Option<Bytes>, AllocError>
    ensures { IfOk result (λ found. MatchOption found
        ((s : List ℕ) → LeafSpells octets.now number s → ⊥)
        (λ s. LeafSpells octets.now number s)) }
{
    let message = ReadMessage::read(alloc, octets.share()?)?;
    message.leaf(alloc, number)
}

/// The octets that the numbers of leaves name in these: these themselves, which are shared, where there is no number, else those that
/// the last leaf spells. The first number is a leaf's of the message that these octets are, each further one a leaf's of the
/// message that the octets of the leaf before it are; any octets are a message. None where a message has no leaf of its number.
/// Each message is parsed once. Beside these octets those of one leaf are held, and while a leaf in it is decoded that one's.
pub(crate) fn leaf_octets(
    alloc: Global,
    octets: &Bytes,
    leaves: &[u64],
) -> Result<Option<Bytes>, AllocError>
    ensures { IfOk result (λ found. MatchOption found
        ((s : List ℕ) → NamesOctets leaves.now octets.now s → ⊥)
        (λ s. NamesOctets leaves.now octets.now s)) }
{
    let mut message = octets.share()?;
    for number in leaves {
        match leaf_of(alloc, &message, *number)? {
            None => return Ok(None),
            Some(leaf) => message = leaf,
        }
    }
    Ok(Some(message))
}
