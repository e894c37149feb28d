// What clients are sent.
use crate::clients::Client;
use crate::written::{put_all, written};
use http::StatusCode;
use http_requests::{HttpResponse, download_media, problem_media};
use http_service::{MediaType, Refusal};
use octets::Bytes;
use std::alloc::{AllocError, Global};
use test_rows::{first_number, first_word};

/// Adds whether the response is sent where this call fails, and what the client takes.
fn put_sent(
    alloc: Global,
    response: &HttpResponse,
    failing: u64,
    out: &mut String,
) -> Result<(), AllocError> {
    let mut client = Client::new(alloc, b"", 1, failing)?;
    let sent = response.send(&mut client.world);
    client.put_taken()?;
    writeln!(out, "{sent:?}{}", client.said)
}

/// Adds what comes of a response where this call fails: of this status and media type, with this body.
pub(crate) fn put_response(alloc: Global, text: &str, out: &mut String) -> Result<(), AllocError> {
    let (failing, text) = first_number(text);
    let (status, text) = first_number(text);
    let (media, text) = first_word(text);
    let body = Bytes::from_vec(written(alloc, text)?)?;
    let status = StatusCode::from_u16(u16::try_from(status).unwrap_or(0));
    match (status, MediaType::new(media.as_bytes())) {
        (Ok(status), Some(media)) => {
            let response = HttpResponse::new(alloc, status, &media, body)?;
            put_sent(alloc, &response, failing, out)
        }
        _ => out.push_str("no such response\n"),
    }
}

/// Adds what comes of a problem with this body.
pub(crate) fn put_problem(alloc: Global, text: &str, out: &mut String) -> Result<(), AllocError> {
    let body = Bytes::from_vec(written(alloc, text)?)?;
    let response = HttpResponse::new(alloc, StatusCode::BAD_REQUEST, &problem_media(), body)?;
    put_sent(alloc, &response, 0, out)
}

/// Adds what comes of the refusal of this status.
pub(crate) fn put_refusal(alloc: Global, status: &str, out: &mut String) -> Result<(), AllocError> {
    let refusal = match status {
        "400" => Refusal::BadRequest,
        "401" => Refusal::Unauthorized,
        "404" => Refusal::NotFound,
        "405" => Refusal::MethodNotAllowed,
        "431" => Refusal::HeadTooLarge,
        _ => Refusal::Unavailable,
    };
    put_sent(alloc, &HttpResponse::refusal(refusal), 0, out)
}

/// Adds the media type of this text, or `none`, and the type of a download for which it is asked.
pub(crate) fn put_media(alloc: Global, text: &str, out: &mut String) -> Result<(), AllocError> {
    let octets = written(alloc, text)?;
    match MediaType::new(&octets) {
        Some(media) => put_all(out, "type", &[media.as_slice()])?,
        None => out.push_str("none")?,
    }
    put_all(
        out,
        "; download",
        &[download_media(Some(&octets)).as_slice()],
    )?;
    out.push('\n')
}
