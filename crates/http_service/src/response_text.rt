// Heads of responses (RFC 9112 section 4).
ghost use Rattle.std.specs.Prelude.{◌≡◌, ◌++◌, [], length, IfOk, OnOk, unwrap_or};
ghost use Rattle.http.specs.StatusCode.{reason_phrase};
ghost use Rattle.http_service.specs.Responses as texts;

use crate::media::MediaType;
use http::StatusCode;
use octets::Bytes;
use std::alloc::{AllocError, Global};

/// The field that tells the scheme of the token, in a response of status 401.
#[tactic(auto, unfolding(crate::specs::Responses::challenge))]
fn challenge(status: StatusCode) -> &'static [u8]
    ensures { result.now ≡ texts.challenge status }
{
    if status == StatusCode::UNAUTHORIZED {
        b"WWW-Authenticate: Bearer\r\n"
    } else {
        b""
    }
}

fn reason(status: StatusCode) -> &'static str
    ensures { result.now ≡ unwrap_or (reason_phrase status) [] }
{
    match status.canonical_reason() {
        None => "",
        Some(reason) => reason,
    }
}

#[tactic(auto, unfolding(crate::specs::Responses::status_line))]
fn push_status_line(alloc: Global, head: &mut Vec<u8>, status: StatusCode) -> Result<(), AllocError>
    ensures { OnOk result (head.new.items ≡ head.old.items ++ texts.status_line status) }
{
    let reason = reason(status);
    let line = format!(in alloc; "HTTP/1.1 {} {reason}\r\n", status.as_u16())?;
    head.extend_from_slice(line.as_bytes())?;
    Ok(())
}

#[tactic(auto, unfolding(crate::specs::Responses::fixed_fields))]
fn push_fixed_fields(head: &mut Vec<u8>) -> Result<(), AllocError>
    ensures { OnOk result (head.new.items ≡ head.old.items ++ texts.fixed_fields) }
{
    head.extend_from_slice(b"Connection: close\r\nCache-Control: no-store\r\n")?;
    Ok(())
}

/// The type of a body that isn't empty.
fn push_type(head: &mut Vec<u8>, length: u64, media: &[u8]) -> Result<(), AllocError>
    ensures { OnOk result (head.new.items ≡ head.old.items ++ texts.type_field length media.now) }
{
    if length == 0 {
        Ok(())
    } else {
        push_media(head, media)
    }
}

#[tactic(auto, unfolding(crate::specs::Responses::media_field))]
fn push_media(head: &mut Vec<u8>, media: &[u8]) -> Result<(), AllocError>
    ensures { OnOk result (head.new.items ≡ head.old.items ++ texts.media_field media.now) }
{
    head.extend_from_slice(b"Content-Type: ")?;
    head.extend_from_slice(media)?;
    head.extend_from_slice(b"\r\n")?;
    Ok(())
}

#[tactic(auto, unfolding(crate::specs::Responses::length_field))]
fn push_length(alloc: Global, head: &mut Vec<u8>, length: u64) -> Result<(), AllocError>
    ensures { OnOk result (head.new.items ≡ head.old.items ++ texts.length_field length) }
{
    let field = format!(in alloc; "Content-Length: {length}\r\n")?;
    head.extend_from_slice(field.as_bytes())?;
    Ok(())
}

/// The head of a response with this body, of this type, its empty line with it. An empty body has no type.
pub fn response_head(
    alloc: Global,
    status: StatusCode,
    body: &[u8],
    media: &MediaType,
) -> Result<Bytes, AllocError>
    ensures { IfOk result (λ head. head ≡ texts.response_head status (length body.now) media.now) }
{
    let length = body.len() as u64;
    let mut head = Vec::new(alloc);
    push_status_line(alloc, &mut head, status)?;
    push_fixed_fields(&mut head)?;
    head.extend_from_slice(challenge(status))?;
    push_length(alloc, &mut head, length)?;
    push_type(&mut head, length, media.as_slice())?;
    head.extend_from_slice(b"\r\n")?;
    Ok(Bytes::from_vec(head)?)
}
