// What a request asks, and why a body asks nothing.
ghost use Rattle.std.specs.Prelude.{◌≡◌};
ghost use Rattle.jmap_core.specs.declared.request.RequestError.TheVariants.{Memory};

use crate::created_ids::CreatedIds;
use jmap_arguments::Using;
use result_references::Call;
use std::alloc::AllocError;
use thiserror::Error;

/// A request (RFC 8620 section 3.3).
#[derive(Drop)]
pub struct Request {
    /// No other capability is named.
    pub using: Using,
    /// In order, at most `MAX_CALLS_IN_REQUEST`.
    pub calls: Vec<Call>,
    /// The ids created earlier, where the request has `createdIds`.
    pub created: Option<CreatedIds>,
}

/// A limit of the Session (RFC 8620 section 2).
#[derive(Clone, Copy, Debug, PartialEq, Eq)]
pub enum LimitName {
    /// Octets of a body with method calls.
    MaxSizeRequest,
    /// Method calls; it is `MAX_CALLS_IN_REQUEST`.
    MaxCallsInRequest,
    /// Octets of an upload.
    MaxSizeUpload,
}

/// Why a body is answered by no method response (RFC 8620 section 3.6.1).
#[derive(Clone, Copy, Debug, PartialEq, Eq, Error)]
pub enum RequestError {
    /// The body isn't UTF-8, or isn't JSON.
    #[error("not JSON")]
    NotJson,
    /// The JSON hasn't the form of a request.
    #[error("not a request")]
    NotRequest,
    /// `using` has a text that is neither of core nor of mail.
    #[error("unknown capability")]
    UnknownCapability,
    /// More than this limit allows.
    #[error("past a limit")]
    Limit { name: LimitName },
    /// Out of memory; the answer has the status 503 and no body.
    #[error("out of memory")]
    Memory,
}

impl From<AllocError> for RequestError {
    ghost from_gives = { λ _ e. e ≡ Memory };

    fn from(_: AllocError) -> RequestError {
        RequestError::Memory
    }
}
