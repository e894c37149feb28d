// Why a request isn't read.
use gate_world::FillError;
use std::alloc::AllocError;
use thiserror::Error;

/// Why a head or a body isn't read.
#[derive(Clone, Copy, Debug, PartialEq, Eq, Error)]
pub enum HttpError {
    /// The octets begin no head, or no chunk where one is due; or the head's fields say no length
    /// of the body; or a chunk's data or a trailer section ends otherwise than it must; or the
    /// lines of a body's chunks are too long, taken together.
    #[error("malformed request")]
    BadHead,
    /// `MAX_HEAD_OCTETS` came that may begin a head, and it isn't whole.
    #[error("the head is too large")]
    HeadTooLarge,
    /// The body has more octets than this.
    #[error("the body has more than {limit} octets")]
    TooLarge { limit: u64 },
    /// The client ended its input inside a head or a body.
    #[error("the client ended its input")]
    Short,
    /// Octets couldn't be read from the client, or `100 Continue` couldn't be sent.
    #[error("the front failed")]
    FrontFault,
    /// Out of memory.
    #[error("out of memory")]
    Memory,
}

impl From<FillError> for HttpError {
    ghost use Rattle.http_service.specs.Errors.{of_fill};
    ghost use Rattle.std.specs.Prelude.{◌≡◌};

    ghost from_gives = { λ f e. e ≡ of_fill f };

    fn from(error: FillError) -> HttpError {
        match error {
            FillError::Failed => HttpError::FrontFault,
            FillError::Memory => HttpError::Memory,
        }
    }
}

impl From<AllocError> for HttpError {
    ghost use Rattle.http_service.specs.declared.error.HttpError.TheVariants.{Memory};
    ghost use Rattle.std.specs.Prelude.{◌≡◌};

    ghost from_gives = { λ _ e. e ≡ Memory };

    fn from(_: AllocError) -> HttpError {
        HttpError::Memory
    }
}
