// A command with what the store answered to it.
ghost use Rattle.std.specs.Prelude.{◌≡◌};
ghost use Rattle.told_folder.specs.declared.exchange.ToldError.TheVariants.{Memory};

use imap_types::{Code, Command, Response, Status};
use octets::{Bytes, Listed};
use std::alloc::AllocError;

/// A completed exchange.
#[derive(Debug, Drop)]
pub struct Exchange {
    /// What was asked.
    pub command: Command,
    /// The folder that was selected as the command was sent.
    pub selected: Option<Bytes>,
    /// Those before the tagged line, in order.
    pub responses: Listed<Response>,
    /// Of the tagged line: OK, NO or BAD.
    pub status: Status,
    /// Of the tagged line.
    pub code: Code,
}

/// Why an exchange isn't told.
#[derive(Clone, Copy, Debug, PartialEq, Drop)]
pub enum ToldError {
    /// A changing command's code names a UID of that folder that is below `next` or held. Nothing is changed then.
    Contradicts { folder: u64, uid: u32 },
    /// The mirror is to be dropped.
    Memory,
}

impl From<AllocError> for ToldError {
    ghost from_gives = { λ _ e. e ≡ Memory };

    fn from(_error: AllocError) -> ToldError {
        ToldError::Memory
    }
}
