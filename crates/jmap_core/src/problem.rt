// The answers to bodies that are no request, which are constant.
ghost use Rattle.std.specs.Prelude.{◌≡◌};
ghost use Rattle.jmap_core.specs.Problem.{text_of_problem};
ghost use Rattle.jmap_core.specs.declared.request.RequestError.TheVariants.{NotJson, NotRequest, UnknownCapability, Limit};
ghost use Rattle.jmap_core.specs.declared.request.LimitName.TheVariants.{MaxSizeRequest, MaxCallsInRequest, MaxSizeUpload};

use crate::request::{LimitName, RequestError};

const NOT_JSON: &[u8] = b"{\"status\":400,\"type\":\"urn:ietf:params:jmap:error:notJSON\"}";

const NOT_REQUEST: &[u8] = b"{\"status\":400,\"type\":\"urn:ietf:params:jmap:error:notRequest\"}";

const UNKNOWN_CAPABILITY: &[u8] =
    b"{\"status\":400,\"type\":\"urn:ietf:params:jmap:error:unknownCapability\"}";

const MAX_SIZE_REQUEST: &[u8] =
    b"{\"limit\":\"maxSizeRequest\",\"status\":413,\"type\":\"urn:ietf:params:jmap:error:limit\"}";

const MAX_CALLS_IN_REQUEST: &[u8] =
    b"{\"limit\":\"maxCallsInRequest\",\"status\":400,\"type\":\"urn:ietf:params:jmap:error:limit\"}";

const MAX_SIZE_UPLOAD: &[u8] =
    b"{\"limit\":\"maxSizeUpload\",\"status\":413,\"type\":\"urn:ietf:params:jmap:error:limit\"}";

fn not_json() -> &'static [u8]
    ensures { result.now ≡ text_of_problem NotJson }
{
    NOT_JSON
}

fn not_request() -> &'static [u8]
    ensures { result.now ≡ text_of_problem NotRequest }
{
    NOT_REQUEST
}

fn unknown_capability() -> &'static [u8]
    ensures { result.now ≡ text_of_problem UnknownCapability }
{
    UNKNOWN_CAPABILITY
}

fn request_too_large() -> &'static [u8]
    ensures { result.now ≡ text_of_problem (Limit MaxSizeRequest) }
{
    MAX_SIZE_REQUEST
}

fn too_many_calls() -> &'static [u8]
    ensures { result.now ≡ text_of_problem (Limit MaxCallsInRequest) }
{
    MAX_CALLS_IN_REQUEST
}

fn upload_too_large() -> &'static [u8]
    ensures { result.now ≡ text_of_problem (Limit MaxSizeUpload) }
{
    MAX_SIZE_UPLOAD
}

/// The body of the answer (RFC 8620 section 3.6.1); out of memory it is empty.
pub fn problem_text(error: RequestError) -> &'static [u8]
    ensures { result.now ≡ text_of_problem error }
{
    match error {
        RequestError::NotJson => not_json(),
        RequestError::NotRequest => not_request(),
        RequestError::UnknownCapability => unknown_capability(),
        RequestError::Limit { name } => limit_text(name),
        RequestError::Memory => b"",
    }
}

fn limit_text(name: LimitName) -> &'static [u8]
    ensures { result.now ≡ text_of_problem (Limit name) }
{
    match name {
        LimitName::MaxSizeRequest => request_too_large(),
        LimitName::MaxCallsInRequest => too_many_calls(),
        LimitName::MaxSizeUpload => upload_too_large(),
    }
}
