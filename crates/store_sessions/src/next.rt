// How a session goes on, and why it breaks off.
use gate_world::{Failed, FillError};
use std::alloc::AllocError;

/// Why a session broke off.
#[derive(Clone, Copy, Debug, PartialEq, Eq)]
pub enum SessionError {
    /// The front failed.
    Failed,
    /// Out of memory.
    Memory,
}

/// What comes after octets were read.
#[derive(Clone, Copy, Debug, PartialEq, Eq)]
pub enum Next {
    /// What stands behind the command is read.
    Read,
    /// Octets are waited for.
    Wait,
    /// The session ends.
    End,
}

impl From<AllocError> for SessionError {
    ghost use Rattle.store_sessions.specs.declared.next.SessionError.TheVariants.{Memory};
    ghost use Rattle.std.specs.Prelude.{◌≡◌};

    ghost from_gives = { λ _ e. e ≡ Memory };

    fn from(_: AllocError) -> SessionError {
        SessionError::Memory
    }
}

impl From<Failed> for SessionError {
    ghost use Rattle.store_sessions.specs.declared.next.SessionError.TheVariants.{Failed};
    ghost use Rattle.std.specs.Prelude.{◌≡◌};

    ghost from_gives = { λ _ e. e ≡ Failed };

    fn from(_: Failed) -> SessionError {
        SessionError::Failed
    }
}

impl From<FillError> for SessionError {
    ghost use Rattle.store_sessions.specs.reading.Fills.{error_of_fill};
    ghost use Rattle.std.specs.Prelude.{◌≡◌};

    ghost from_gives = { λ f e. e ≡ error_of_fill f };

    fn from(error: FillError) -> SessionError {
        match error {
            FillError::Failed => SessionError::Failed,
            FillError::Memory => SessionError::Memory,
        }
    }
}
