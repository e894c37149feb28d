// Why an upload is refused.
ghost use Rattle.std.specs.Prelude.{◌≡◌};
ghost use Rattle.blob_store.specs.declared.error.BlobError.TheVariants.{Memory};

use std::alloc::AllocError;
use thiserror::Error;

/// Why an upload isn't taken.
#[derive(Clone, Copy, Debug, PartialEq, Eq, Error)]
pub enum BlobError {
    /// It has more octets than an upload may have.
    #[error("an upload of {size} octets is too large")]
    TooLarge { size: u64 },
    /// Out of memory; the store of uploads is as before.
    #[error("out of memory")]
    Memory,
}

impl From<AllocError> for BlobError {
    ghost from_gives = { λ _ e. e ≡ Memory };

    fn from(_: AllocError) -> BlobError {
        BlobError::Memory
    }
}
