// What a client asks over HTTP, and why it isn't known.
use http_service::Refusal;
use octets::{Bytes, Text};

/// What a client asks over HTTP.
#[derive(Debug, Drop)]
pub enum HttpAsking {
    /// The Session object.
    Session,
    /// Method calls: the octets of the body, at most `MAX_REQUEST_OCTETS`.
    Calls {
        body: Bytes,
    },
    /// An upload: its type, and its octets, at most `MAX_UPLOAD_OCTETS`.
    Upload {
        /// The Content-Type, or `application/octet-stream` where there is none.
        media: Text,
        octets: Bytes,
    },
    /// The octets of a blob, under a name, as the type that is asked for.
    Download {
        /// The blob's id, its escapes undone.
        blob: Bytes,
        /// The last part of the path, its escapes undone.
        name: Bytes,
        /// None where no type is asked for. It may have octets that can't stand in a head.
        media: Option<Bytes>,
    },
    /// What is refused without a body.
    Refused {
        refusal: Refusal,
    },
    /// Method calls in a body of more octets than it may have.
    CallsTooLarge,
    /// An upload of more octets than it may have.
    UploadTooLarge,
}

/// Why it isn't known what a client asks.
#[derive(Clone, Copy, Debug, PartialEq, Eq)]
pub enum AskError {
    /// The client ended its input inside its request.
    Ended,
    /// The front failed before the request's end.
    Failed,
    /// Out of memory.
    Memory,
}
