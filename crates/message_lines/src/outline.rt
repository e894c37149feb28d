// Texts of which the leaves aren't encoded yet.
ghost use Rattle.std.specs.Prelude.{◌≡◌, ◌++◌, ◌-◌, ◌^◌, [], min, length, IfOk, OnOk};
ghost use Rattle.message_lines.specs.Bodies.{base64_lines};

use crate::bodies::{base64_len, push_base64};
use crate::leaf::Leaf;
use octets::Bytes;
use std::alloc::{AllocError, Global};
use std::marker::Model;
use std::mem;

/// A text whose leaves are still the octets that they encode, so that it is known how long it is before any is encoded.
#[derive(Drop)]
pub struct Outline {
    leaves: Vec<Leaf>,
    text: Vec<u8>,
}

impl Model for Outline {
    ghost use Rattle.std.specs.Prelude.{List, ℕ};

    ghost Value = { List ℕ };

    ghost use Rattle.message_lines.specs.Outlines.{outline_text};

    ghost view = { λ o. outline_text o.leaves.items o.text.items };
}

impl Outline {
    /// No text.
    pub fn new(alloc: Global) -> Outline
        ensures { result ≡ [] }
    {
        Outline {
            leaves: Vec::new(alloc),
            text: Vec::new(alloc),
        }
    }

    /// Adds these octets.
    pub fn push(&mut self, octets: &[u8]) -> Result<(), AllocError>
        ensures { OnOk result (self.new ≡ self.old ++ octets.now) }
    {
        self.text.extend_from_slice(octets)?;
        Ok(())
    }

    /// Adds these octets in base64, in lines.
    pub fn push_leaf(&mut self, alloc: Global, octets: Bytes) -> Result<(), AllocError>
        ensures { OnOk result (self.new ≡ self.old ++ base64_lines octets) }
    {
        let before = mem::replace(&mut self.text, Vec::new(alloc));
        self.leaves.push(Leaf { before, octets })?;
        Ok(())
    }

    /// How long the text is, as far as a number of 64 bits can tell.
    pub fn len(&self) -> u64
        ensures { result ≡ min (length self.now) (2 ^ 64 - 1) }
    {
        let mut len: u64 = 0;
        for leaf in &self.leaves {
            len = len.saturating_add(leaf.before.len() as u64);
            len = len.saturating_add(base64_len(leaf.octets.as_slice()));
        }
        len.saturating_add(self.text.len() as u64)
    }

    /// The text, for which there is room for so many octets from the start.
    pub fn encode(&self, alloc: Global, room: usize) -> Result<Vec<u8>, AllocError>
        ensures { IfOk result (λ v. v.items ≡ self.now) }
    {
        let mut text = Vec::with_capacity(alloc, room)?;
        for leaf in &self.leaves {
            text.extend_from_slice(leaf.before.as_slice())?;
            push_base64(&mut text, leaf.octets.as_slice())?;
        }
        text.extend_from_slice(self.text.as_slice())?;
        Ok(text)
    }
}
