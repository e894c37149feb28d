// Why a method has no answer.
ghost use Rattle.std.specs.Prelude.{◌≡◌, IfOk};
ghost use Rattle.serde_json.specs.View.{view};
ghost use Rattle.jmap_arguments.specs.Errors.{error_type, error_data};
ghost use Rattle.jmap_arguments.specs.declared.method_error.MethodError.TheVariants.{Memory};

use serde_json::{Value, json};
use std::alloc::{AllocError, Global};
use thiserror::Error;

/// Why a method has no answer (RFC 8620 sections 3.6.2, 5.2, 5.3, 5.5 and 5.6).
#[derive(Clone, Copy, Debug, PartialEq, Eq, Error)]
pub enum MethodError {
    /// The mail couldn't be asked of the store (RFC 8620 section 3.6.2).
    #[error("server unavailable")]
    ServerUnavailable,
    /// The history has no place left (RFC 8620 section 3.6.2).
    #[error("server fail")]
    ServerFail,
    /// Some of what was to be changed was, and not all (RFC 8620 section 3.6.2).
    #[error("server partial fail")]
    ServerPartialFail,
    /// No such method, or one of a capability that the request doesn't use (RFC 8620 section 3.6.2).
    #[error("unknown method")]
    UnknownMethod,
    /// An argument is missing, of another type than it must be, or wrong otherwise (RFC 8620 section 3.6.2).
    #[error("invalid arguments")]
    InvalidArguments,
    /// A result reference can't be resolved (RFC 8620 section 3.7).
    #[error("invalid result reference")]
    InvalidResultReference,
    /// `accountId` names no account of the Session (RFC 8620 section 3.6.2).
    #[error("account not found")]
    AccountNotFound,
    /// More objects than one call may ask for (RFC 8620 section 5.1).
    #[error("request too large")]
    RequestTooLarge,
    /// `ifInState` isn't the state (RFC 8620 section 5.3).
    #[error("state mismatch")]
    StateMismatch,
    /// What changed since the state that is given isn't known (RFC 8620 sections 5.2 and 5.6).
    #[error("cannot calculate changes")]
    CannotCalculateChanges,
    /// The anchor isn't among the results (RFC 8620 section 5.5).
    #[error("anchor not found")]
    AnchorNotFound,
    /// A filter that the server doesn't process (RFC 8620 section 5.5).
    #[error("unsupported filter")]
    UnsupportedFilter,
    /// A sort that the server doesn't process (RFC 8620 section 5.5).
    #[error("unsupported sort")]
    UnsupportedSort,
    /// More changes than `maxChanges` allows (RFC 8620 section 5.6).
    #[error("too many changes")]
    TooManyChanges,
    /// Out of memory; its type is that of `ServerUnavailable`.
    #[error("out of memory")]
    Memory,
}

impl From<AllocError> for MethodError {
    ghost from_gives = { λ _ e. e ≡ Memory };

    fn from(_: AllocError) -> MethodError {
        MethodError::Memory
    }
}

/// The type of the error, as an `error` response has it.
fn type_of(error: MethodError) -> &'static str
    ensures { result.now ≡ error_type error }
{
    match error {
        MethodError::ServerUnavailable | MethodError::Memory => "serverUnavailable",
        MethodError::ServerFail => "serverFail",
        MethodError::ServerPartialFail => "serverPartialFail",
        MethodError::UnknownMethod => "unknownMethod",
        MethodError::InvalidArguments => "invalidArguments",
        MethodError::InvalidResultReference => "invalidResultReference",
        MethodError::AccountNotFound => "accountNotFound",
        MethodError::RequestTooLarge => "requestTooLarge",
        MethodError::StateMismatch => "stateMismatch",
        MethodError::CannotCalculateChanges => "cannotCalculateChanges",
        MethodError::AnchorNotFound => "anchorNotFound",
        MethodError::UnsupportedFilter => "unsupportedFilter",
        MethodError::UnsupportedSort => "unsupportedSort",
        MethodError::TooManyChanges => "tooManyChanges",
    }
}

/// The arguments of an `error` response: `{"type": ..}` (RFC 8620 section 3.6.2).
pub fn error_arguments(alloc: Global, error: MethodError) -> Result<Value, AllocError>
    ensures { IfOk result (λ value. view value ≡ error_data error) }
{
    json!(in alloc; {"type": type_of(error)})
}
