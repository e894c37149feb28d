// A piece of a command's text.
ghost use Rattle.std.specs.Prelude.{◌≡◌, ◌++◌, OnOk};

use std::alloc::{AllocError, Global};
use std::marker::Model;

/// A piece of a command's text: the octets of the literal that it begins with, where it does, and what stands behind them. The
/// literal's octets are those of the command, and no copy.
#[derive(Drop)]
pub struct Piece<'a> {
    literal: &'a [u8],
    text: Vec<u8>,
}

impl<'a> Model for Piece<'a> {
    ghost use Rattle.std.specs.Prelude.{◌++◌, List, ℕ};

    ghost Value = { List ℕ };

    ghost view = { λ p. p.literal.now ++ p.text.items };
}

impl<'a> Piece<'a> {
    /// The octets of a literal.
    pub(crate) fn of_literal(alloc: Global, octets: &'a [u8]) -> Piece<'a>
        ensures { result ≡ octets.now }
    {
        Piece {
            literal: octets,
            text: Vec::new(alloc),
        }
    }

    /// A text without a literal.
    pub(crate) fn of_text(text: Vec<u8>) -> Piece<'a>
        ensures { result ≡ text.items }
    {
        Piece { literal: b"", text }
    }

    /// Adds octets.
    pub(crate) fn push(&mut self, octets: &[u8]) -> Result<(), AllocError>
        ensures { OnOk result (self.new ≡ self.old ++ octets.now) }
    {
        self.text.extend_from_slice(octets)
    }

    /// The octets of its literal, and those behind them.
    pub fn parts(&self) -> (&[u8], &[u8])
        ensures { result.0.now ++ result.1.now ≡ self.now }
    {
        (self.literal, self.text.as_slice())
    }
}
