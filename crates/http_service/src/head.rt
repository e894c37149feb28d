// A request's head.
ghost use Rattle.std.specs.Prelude.{◌≡◌, ◌≤◌, ◌*◌, vec_len, length, map, take, All, IfOk};
ghost use Rattle.std.specs.Option.{option_copied};
ghost use Rattle.httparse.specs.Spans.{IsRequestWithin, IsHeaderWithin, IsWithin, RequestExceeds, header_bytes, span_bytes};
ghost use Rattle.http_service.specs.Heads.{IsTarget};
ghost use Rattle.http_service.specs.reading.Parses.{MakesHead, ParsesFields, ParsesHead};

use crate::cut_target::ends_in_target;
use crate::error::HttpError;
use crate::fields::{body_in, content_type_in, is_expecting, token_in};
use crate::lines::Lines;
use crate::target::split_target;
use httparse::Status;
use httparse::spans::{EMPTY_HEADER_SPAN, HeaderSpan, RequestSpans, Span, parse_request};
use octets::Bytes;
use std::alloc::{AllocError, Global};

/// How a body's end is known (RFC 9112 section 6.3).
#[derive(Clone, Copy, Debug, PartialEq, Eq)]
pub enum BodyKind {
    /// This many octets.
    Length(u64),
    /// Chunks up to one of size 0.
    Chunked,
}

/// What a request's head says.
#[derive(Debug, PartialEq, Drop)]
pub struct Head {
    /// As it was sent; case counts (RFC 9110 section 9.1).
    pub method: Bytes,
    /// The target up to its first `?`, without the scheme and authority of a target in absolute form (RFC 9112 section
    /// 3.2.2).
    pub path: Bytes,
    /// The target after its first `?`.
    pub query: Bytes,
    /// The token of the only Authorization field, where that is of the Bearer scheme.
    pub token: Option<Bytes>,
    /// The value of the first Content-Type field.
    pub content_type: Option<Bytes>,
    /// Of no octets where there is neither Content-Length nor Transfer-Encoding.
    pub body: BodyKind,
    /// Whether the client waits for `100 Continue` before it sends the body.
    pub expects: bool,
}

fn copied(alloc: Global, octets: Option<&[u8]>) -> Result<Option<Bytes>, AllocError>
    ensures { IfOk result (λ copy. copy ≡ option_copied octets.entry) }
{
    match octets {
        None => Ok(None),
        Some(octets) => Ok(Some(Bytes::copy_of(alloc, octets)?)),
    }
}

// The method, the path and the query.
fn start_line(
    alloc: Global,
    octets: &[u8],
    method: Span,
    target: Span,
) -> Result<(Bytes, Bytes, Bytes), AllocError>
    requires method { IsWithin (length octets.now) method }
    requires target { IsWithin (length octets.now) target }
    ensures method { IfOk result (λ line. line.0 ≡ span_bytes octets.now method) }
    ensures target { IfOk result (λ line. IsTarget (span_bytes octets.now target) line.1 line.2) }
{
    let (path, query) = split_target(target.of(octets));
    let method = Bytes::copy_of(alloc, method.of(octets))?;
    let path = Bytes::copy_of(alloc, path)?;
    let query = Bytes::copy_of(alloc, query)?;
    Ok((method, path, query))
}

// What a head with these parts says.
fn head_of(
    alloc: Global,
    octets: &[u8],
    spans: RequestSpans,
    fields: &[HeaderSpan],
) -> Result<Head, HttpError>
    requires method { IsWithin (length octets.now) spans.method }
    requires target { IsWithin (length octets.now) spans.path }
    requires fields { All (IsHeaderWithin (length octets.now)) fields.now }
    ensures { MakesHead (span_bytes octets.now spans.method) (span_bytes octets.now spans.path) spans.version
        (map (header_bytes octets.now) fields.now) result }
{
    let Some(body) = body_in(octets, fields) else {
        return Err(HttpError::BadHead);
    };
    let expects = is_expecting(octets, fields, spans.version);
    let (method, path, query) = start_line(alloc, octets, spans.method, spans.path)?;
    let token = copied(alloc, token_in(octets, fields))?;
    let content_type = copied(alloc, content_type_in(octets, fields))?;
    Ok(Head {
        method,
        path,
        query,
        token,
        content_type,
        body,
        expects,
    })
}

// Room for the fields of lines of n octets: each takes two at least.
pub(crate) fn room(alloc: Global, octets: usize) -> Result<Vec<HeaderSpan>, AllocError>
    ensures { IfOk result (λ fields. octets ≤ 2 * vec_len fields) }
{
    vec![in alloc; EMPTY_HEADER_SPAN; octets / 2 + 1]
}

// The head at the front of the octets, where there is room for its fields.
fn parse_into(
    alloc: Global,
    octets: &[u8],
    fields: &mut [HeaderSpan],
) -> Result<Option<(Head, usize)>, HttpError>
    requires { RequestExceeds (length fields.old) octets.now → ⊥ }
    ensures { ParsesFields octets.now result }
{
    match parse_request(octets, fields) {
        Ok(Status::Complete(spans)) => {
            let (used, _) = fields.split_at(spans.headers);
            let head = head_of(alloc, octets, spans, used)?;
            Ok(Some((head, spans.len)))
        }
        Ok(Status::Partial) => Ok(None),
        Err(_) => Err(HttpError::BadHead),
    }
}

// The head at the front of the octets, and of how many octets it is.
fn parse(alloc: Global, octets: &[u8]) -> Result<Option<(Head, usize)>, HttpError>
    ensures { ParsesFields octets.now result }
{
    let mut fields = room(alloc, Lines::Head.end_in(octets))?;
    parse_into(alloc, octets, &mut fields)
}

/// The head at the front of the octets, and of how many octets it is. It may be that a head is still coming, which octets
/// that are cut inside their target never rule out.
pub(crate) fn parse_head(alloc: Global, octets: &[u8]) -> Result<Option<(Head, usize)>, HttpError>
    ensures { ParsesHead octets.now result }
{
    match parse(alloc, octets) {
        Err(HttpError::BadHead) => {
            if ends_in_target(octets) {
                Ok(None)
            } else {
                Err(HttpError::BadHead)
            }
        }
        parsed => parsed,
    }
}
