// Leaves of a blob that are asked one after another.
ghost use Rattle.std.specs.Prelude.{◌≡◌, ◌↔◌, ℕ, List, IfOk, IfSome, IsSome, IsTrue, MatchOption, OnOk};
ghost use Rattle.message_blobs.specs.NestedLeaves.{LeafSpells, NamesOctets};

use crate::nested_leaves::leaf_octets;
use crate::read_message::ReadMessage;
use octets::Bytes;
use std::alloc::{AllocError, Global};
use std::marker::Model;

/// A message that was read, with the numbers of leaves that name it.
#[derive(Drop)]
struct NamedMessage {
    leaves: Vec<u64>,
    message: ReadMessage,
}

/// Octets of which leaves are asked one after another. The message that was read last stays read, so that leaves that stand in one message
/// cost one reading of it where they follow one another. Beside the octets and that message one leaf is held, while it is decoded.
/// Contracts see the octets.
#[derive(Drop)]
pub struct ReadBlob {
    octets: Bytes,
    last: Option<NamedMessage>,
}

impl Model for ReadBlob {
    ghost use Rattle.std.specs.Prelude.{List, ℕ, IfSome};
    ghost use Rattle.message_blobs.specs.NestedLeaves.{NamesOctets};

    ghost Value = { List ℕ };

    ghost view = { λ b. b.octets };

    ghost invariant = { λ b. IfSome b.last (λ m. NamesOctets m.leaves.items b.octets m.message) };
}

/// Reads the message that the numbers of leaves name, where they name one.
fn read_message(
    alloc: Global,
    octets: &Bytes,
    leaves: &[u64],
) -> Result<Option<NamedMessage>, AllocError>
    ensures { IfOk result (λ found. MatchOption found
        ((s : List ℕ) → NamesOctets leaves.now octets.now s → ⊥)
        (λ m. (m.leaves.items ≡ leaves.now) × NamesOctets leaves.now octets.now m.message)) }
{
    match leaf_octets(alloc, octets, leaves)? {
        None => Ok(None),
        Some(named) => Ok(Some(NamedMessage {
            leaves: leaves.to_vec(alloc)?,
            message: ReadMessage::read(alloc, named)?,
        })),
    }
}

/// Whether this is the message that the numbers name.
fn is_named(last: &Option<NamedMessage>, leaves: &[u64]) -> bool
    ensures { IsTrue result → IsSome last.now × IfSome last.now (λ m. m.leaves.items ≡ leaves.now) }
{
    match last {
        None => false,
        Some(message) => message.leaves.as_slice() == leaves,
    }
}

/// Has the message that the numbers of leaves name as the last one. What was read of another one is let go first.
fn enter(
    last: &mut Option<NamedMessage>,
    alloc: Global,
    octets: &Bytes,
    leaves: &[u64],
) -> Result<(), AllocError>
    requires { IfSome last.old (λ m. NamesOctets m.leaves.items octets.now m.message) }
    ensures named { IfSome last.new (λ m. NamesOctets m.leaves.items octets.now m.message) }
    ensures entered { OnOk result (MatchOption last.new
        ((s : List ℕ) → NamesOctets leaves.now octets.now s → ⊥)
        (λ m. NamesOctets leaves.now octets.now m.message)) }
{
    if is_named(last, leaves) {
        return Ok(());
    }
    *last = None;
    *last = read_message(alloc, octets, leaves)?;
    Ok(())
}

/// The octets that the leaf of this number spells in the message, where there is one that has it.
fn leaf_in(
    last: &Option<NamedMessage>,
    alloc: Global,
    number: u64,
) -> Result<Option<Bytes>, AllocError>
    ensures { IfOk result (λ found. MatchOption found
        (IfSome last.now (λ m. (s : List ℕ) → LeafSpells m.message number s → ⊥))
        (λ s. IsSome last.now × IfSome last.now (λ m. LeafSpells m.message number s))) }
{
    match last {
        None => Ok(None),
        Some(named) => named.message.leaf(alloc, number),
    }
}

impl ReadBlob {
    /// No message in these octets is read yet.
    pub fn new(octets: Bytes) -> ReadBlob
        ensures { result ≡ octets }
    {
        ReadBlob { octets, last: None }
    }

    /// Whether these are its octets.
    pub fn is_of(&self, octets: &Bytes) -> bool
        ensures { IsTrue result ↔ (self.now ≡ octets.now) }
    {
        self.octets.as_slice() == octets.as_slice()
    }

    /// The octets that the numbers of leaves name: the blob's own, which are shared, where there is no number, else those that the last leaf
    /// spells. The first number is a leaf's of the message that the blob is, each further one a leaf's of the message that the octets of the
    /// leaf before it are; any octets are a message. None where a message has no leaf of its number.
    pub fn leaf_octets(
        &mut self,
        alloc: Global,
        leaves: &[u64],
    ) -> Result<Option<Bytes>, AllocError>
        ensures same { self.new ≡ self.old }
        ensures named { IfOk result (λ found. MatchOption found
            ((s : List ℕ) → NamesOctets leaves.now self.old s → ⊥)
            (λ s. NamesOctets leaves.now self.old s)) }
    {
        match leaves.split_last() {
            None => Ok(Some(self.octets.share()?)),
            Some((number, outer)) => {
                enter(&mut self.last, alloc, &self.octets, outer)?;
                leaf_in(&self.last, alloc, *number)
            }
        }
    }
}
