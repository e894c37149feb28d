// Types of bodies.
ghost use Rattle.std.specs.Prelude.{◌≡◌, Some};
ghost use Rattle.std.specs.Option.{option_copied};
ghost use Rattle.http_requests.specs.Responses as spec;

use http_service::MediaType;

/// The type of JSON: of a Session, of answers to method calls, and of an upload's answer.
pub fn json_media() -> MediaType<'static>
    ensures { result ≡ spec.json_media }
{
    match MediaType::new(b"application/json") {
        Some(media) => media,
        None => unreachable!(),
    }
}

/// The type of a refusal that has a body.
pub fn problem_media() -> MediaType<'static>
    ensures { result ≡ spec.problem_media }
{
    match MediaType::new(b"application/problem+json") {
        Some(media) => media,
        None => unreachable!(),
    }
}

/// The text where it is a type, and else that of octets.
fn media_or_octets(text: &[u8]) -> &[u8]
    ensures { result.now ≡ spec.download_media (Some text.now) }
{
    match MediaType::new(text) {
        Some(_) => text,
        None => b"application/octet-stream",
    }
}

/// The text of the type of what is downloaded, where this type is asked for.
fn download_text(media: Option<&[u8]>) -> &[u8]
    ensures { result.now ≡ spec.download_media (option_copied media.entry) }
{
    match media {
        None => b"application/octet-stream",
        Some(text) => media_or_octets(text),
    }
}

/// The type of what is downloaded, where this type is asked for: that one, where it may stand in a head.
pub fn download_media(media: Option<&[u8]>) -> MediaType<'_>
    ensures { result ≡ spec.download_media (option_copied media.entry) }
{
    match MediaType::new(download_text(media)) {
        Some(media) => media,
        None => unreachable!(),
    }
}
