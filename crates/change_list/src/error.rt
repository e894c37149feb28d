// Refusals of a question about a place.
ghost use Rattle.std.specs.Prelude.{◌≡◌};
ghost use Rattle.change_list.specs.declared.error.SinceError.TheVariants.{Memory};

use std::alloc::AllocError;
use thiserror::Error;

/// Why what changed after a place isn't answered.
#[derive(Clone, Copy, Debug, PartialEq, Eq, Error)]
pub enum SinceError {
    /// The touches after the place are no longer all kept.
    #[error("touches are kept from place {front} on")]
    BeforeFront { front: u64 },
    /// The type hasn't come to the place.
    #[error("the last place is {place}")]
    AfterEnd { place: u64 },
    #[error("out of memory")]
    /// An allocation was refused.
    Memory,
}

impl From<AllocError> for SinceError {
    ghost from_gives = { λ _ e. e ≡ Memory };

    fn from(_: AllocError) -> SinceError {
        SinceError::Memory
    }
}
