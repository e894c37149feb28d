// Why a draft can't be read or written.
ghost use Rattle.std.specs.Prelude.{◌≡◌};
ghost use Rattle.mail_drafts.specs.declared.error.BuildError.TheVariants.{Memory};

use octets::{Listed, Text};
use std::alloc::AllocError;
use thiserror::Error;

/// Why no message can be made of what an Email that is to be created says.
#[derive(Debug, Drop, Error)]
pub enum BuildError {
    /// The property has a value that it may not have.
    #[error("a property has a bad value")]
    BadValue { property: Text },
    /// No uploads with these ids are kept.
    #[error("uploads aren't kept")]
    BlobNotFound { ids: Listed<Text> },
    /// The message would have so many octets.
    #[error("a message of {size} octets is too large")]
    TooLarge { size: u64 },
    #[error("out of memory")]
    Memory,
}

impl From<AllocError> for BuildError {
    ghost from_gives = { λ _ e. e ≡ Memory };

    fn from(_: AllocError) -> BuildError {
        BuildError::Memory
    }
}
