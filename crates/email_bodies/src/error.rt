// Why there is no body.
ghost use Rattle.std.specs.Prelude.{◌≡◌};
ghost use Rattle.email_bodies.specs.declared.error.BodyError.TheVariants.{Memory};

use std::alloc::AllocError;
use thiserror::Error;

/// Why the body of an Email isn't there.
#[derive(Clone, Copy, Debug, PartialEq, Eq, Error)]
pub enum BodyError {
    /// It didn't come: the link has ended, or the store didn't tell it.
    #[error("the body didn't come")]
    Ended,
    /// There was no memory.
    #[error("out of memory")]
    Memory,
}

impl From<AllocError> for BodyError {
    ghost from_gives = { λ _ e. e ≡ Memory };

    fn from(_: AllocError) -> BodyError {
        BodyError::Memory
    }
}
