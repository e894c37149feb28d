// Refusals of a step.
ghost use Rattle.std.specs.Prelude.{◌≡◌};
ghost use Rattle.mail_state.specs.declared.error.StateError.TheVariants.{Memory};

use std::alloc::AllocError;
use thiserror::Error;

/// Why a state doesn't follow the mail.
#[derive(Clone, Copy, Debug, PartialEq, Eq, Error)]
pub enum StateError {
    /// The place of a type would pass 2^53 - 1.
    #[error("the place {place} can't rise so far")]
    Spent { place: u64 },
    /// There was no memory.
    #[error("out of memory")]
    Memory,
}

impl From<AllocError> for StateError {
    ghost from_gives = { λ _ e. e ≡ Memory };

    fn from(_: AllocError) -> StateError {
        StateError::Memory
    }
}
