// Reading what a client asks.
ghost use Rattle.std.specs.Prelude.{◌≡◌, ◌↔◌, ◌⊎◌, IfOk, IsErrOf, IsTrue};
ghost use Rattle.gate_world.specs.Causes.{Rose, FrontAlone};
ghost use Rattle.gate_world.specs.Tape.{Adds};
ghost use Rattle.http_requests.specs.Asking as spec;
ghost use Rattle.http_requests.specs.Asking.{AsksOverHttp};

use crate::asking::{AskError, HttpAsking};
use blob_store::MAX_UPLOAD_OCTETS;
use gate_world::{Front, Secrets};
use http_routes::{Route, RouteRequest, Routes, is_token};
use http_service::{Head, HttpError, Refusal, Spare, read_body, read_head};
use octets::{Bytes, Text};
use std::alloc::{AllocError, Global};

/// The most octets of a body with method calls.
pub const MAX_REQUEST_OCTETS: u64 = 10_000_000;

/// What is answered to a request that isn't read whole, where this is answered to a body that is too large.
fn refused(too_large: HttpAsking, error: HttpError) -> Result<HttpAsking, AskError>
    ensures { result ≡ spec.asks_without too_large error }
{
    match error {
        HttpError::BadHead => Ok(HttpAsking::Refused {
            refusal: Refusal::BadRequest,
        }),
        HttpError::HeadTooLarge => Ok(HttpAsking::Refused {
            refusal: Refusal::HeadTooLarge,
        }),
        HttpError::TooLarge { limit: _ } => Ok(too_large),
        HttpError::Short => Err(AskError::Ended),
        HttpError::FrontFault => Err(AskError::Failed),
        HttpError::Memory => Err(AskError::Memory),
    }
}

/// Whether a client that sent this token is let in.
fn is_let_in(sent: &Option<Bytes>, token: &[u8]) -> bool
    ensures { IsTrue result ↔ spec.IsLetIn token.now sent.now }
{
    match sent {
        None => false,
        Some(sent) => is_token(sent.as_slice(), token),
    }
}

/// The route that the head has.
fn route_of_head(
    alloc: Global,
    routes: &Routes,
    account: &[u8],
    head: &Head,
) -> Result<Route, AllocError>
    ensures { IfOk result (λ route. spec.IsRouteOfHead account.now head.now route) }
{
    let path = String::from_utf8_lossy(alloc, head.path.as_slice())?;
    let query = String::from_utf8_lossy(alloc, head.query.as_slice())?;
    let request = RouteRequest {
        method: head.method.as_slice(),
        path: path.as_str(),
        query: query.as_str(),
    };
    routes.route(alloc, account, request)
}

/// The type of an upload with this Content-Type.
fn upload_media(alloc: Global, content_type: &Option<Bytes>) -> Result<Text, AllocError>
    ensures { IfOk result (λ media. media ≡ spec.upload_media content_type.now) }
{
    match content_type {
        None => Text::copy_of(alloc, "application/octet-stream"),
        Some(value) => {
            let media = String::from_utf8_lossy(alloc, value.as_slice())?;
            Ok(Text::from_string(media))
        }
    }
}

/// Method calls, whose body is read.
fn ask_calls<F: Front>(
    alloc: Global,
    front: &mut F,
    spare: &mut Spare,
    head: &Head,
) -> Result<HttpAsking, AskError>
    ensures tape { Adds (F.tape front.old) (F.tape front.new)
        (spec.AsksWithBody MAX_REQUEST_OCTETS HttpAsking.Calls HttpAsking.CallsTooLarge head.now spare.old result) }
    ensures alone { FrontAlone (F.faults front.old) (F.faults front.new) }
    ensures cause { IsErrOf result AskError.Failed → Rose (F.faults front.old).front (F.faults front.new).front }
    ensures hidden { F.hidden front.new ≡ F.hidden front.old }
{
    match read_body(alloc, front, spare, head, MAX_REQUEST_OCTETS) {
        Ok(body) => Ok(HttpAsking::Calls { body }),
        Err(error) => refused(HttpAsking::CallsTooLarge, error),
    }
}

/// An upload of this type, whose octets are read.
fn ask_upload<F: Front>(
    alloc: Global,
    front: &mut F,
    spare: &mut Spare,
    head: &Head,
    media: Text,
) -> Result<HttpAsking, AskError>
    ensures tape { Adds (F.tape front.old) (F.tape front.new)
        (spec.AsksWithBody MAX_UPLOAD_OCTETS (λ octets. HttpAsking.Upload media octets) HttpAsking.UploadTooLarge head.now spare.old result) }
    ensures alone { FrontAlone (F.faults front.old) (F.faults front.new) }
    ensures cause { IsErrOf result AskError.Failed → Rose (F.faults front.old).front (F.faults front.new).front }
    ensures hidden { F.hidden front.new ≡ F.hidden front.old }
{
    match read_body(alloc, front, spare, head, MAX_UPLOAD_OCTETS as u64) {
        Ok(octets) => Ok(HttpAsking::Upload { media, octets }),
        Err(error) => refused(HttpAsking::UploadTooLarge, error),
    }
}

/// What a request of this route asks.
fn ask_by_route<F: Front>(
    alloc: Global,
    front: &mut F,
    spare: &mut Spare,
    head: &Head,
    route: Route,
) -> Result<HttpAsking, AskError>
    ensures tape { Adds (F.tape front.old) (F.tape front.new)
        (λ events. spec.RouteAsks route head.now spare.old result events ⊎ spec.LacksMemory result events) }
    ensures alone { FrontAlone (F.faults front.old) (F.faults front.new) }
    ensures cause { IsErrOf result AskError.Failed → Rose (F.faults front.old).front (F.faults front.new).front }
    ensures hidden { F.hidden front.new ≡ F.hidden front.old }
{
    match route {
        Route::Session => Ok(HttpAsking::Session),
        Route::Api => ask_calls(alloc, front, spare, head),
        Route::Upload => match upload_media(alloc, &head.content_type) {
            Ok(media) => ask_upload(alloc, front, spare, head, media),
            Err(_) => Err(AskError::Memory),
        },
        Route::Download { blob, name, media } => Ok(HttpAsking::Download { blob, name, media }),
        Route::NotFound => Ok(HttpAsking::Refused {
            refusal: Refusal::NotFound,
        }),
        Route::MethodNotAllowed => Ok(HttpAsking::Refused {
            refusal: Refusal::MethodNotAllowed,
        }),
    }
}

/// What a request with this head asks.
fn ask_by_head<W: Front + Secrets>(
    alloc: Global,
    world: &mut W,
    spare: &mut Spare,
    routes: &Routes,
    account: &[u8],
    head: &Head,
) -> Result<HttpAsking, AskError>
    ensures tape { Adds (W.tape world.old) (W.tape world.new)
        (spec.HeadAsks (W.hidden world.old).token account.now head.now spare.old result) }
    ensures alone { FrontAlone (W.faults world.old) (W.faults world.new) }
    ensures cause { IsErrOf result AskError.Failed → Rose (W.faults world.old).front (W.faults world.new).front }
    ensures hidden { W.hidden world.new ≡ W.hidden world.old }
{
    if !is_let_in(&head.token, world.token()) {
        return Ok(HttpAsking::Refused {
            refusal: Refusal::Unauthorized,
        });
    }
    match route_of_head(alloc, routes, account, head) {
        Ok(route) => ask_by_route(alloc, world, spare, head, route),
        Err(_) => Err(AskError::Memory),
    }
}

/// Reads what the client that was accepted asks, where this is the one account. Its token is looked at before its path,
/// and its path before its method and its body; the body is read where the route has one.
pub fn ask_over_http<W: Front + Secrets>(
    alloc: Global,
    world: &mut W,
    routes: &Routes,
    account: &[u8],
) -> Result<HttpAsking, AskError>
    ensures tape { Adds (W.tape world.old) (W.tape world.new) (AsksOverHttp (W.hidden world.old).token account.now result) }
    ensures alone { FrontAlone (W.faults world.old) (W.faults world.new) }
    ensures cause { IsErrOf result AskError.Failed → Rose (W.faults world.old).front (W.faults world.new).front }
    ensures hidden { W.hidden world.new ≡ W.hidden world.old }
{
    let mut spare = Spare::new(alloc);
    match read_head(alloc, world, &mut spare) {
        Ok(head) => ask_by_head(alloc, world, &mut spare, routes, account, &head),
        Err(error) => refused(
            HttpAsking::Refused {
                refusal: Refusal::HeadTooLarge,
            },
            error,
        ),
    }
}
