// Which route a request has.
ghost use Rattle.std.specs.Prelude.{◌≡◌, IfOk, Some, bytes_eq};
ghost use Rattle.http_routes.specs.Paths.{UploadResource, DownloadResource};
ghost use Rattle.http_routes.specs.Routing as spec;
ghost use Rattle.http_routes.specs.Routing.{IsRoute};
ghost use Rattle.http_routes.specs.reading.Finding.{resource_of};
ghost use Rattle.http_routes.specs.reading.Parts as reading;

use crate::accept::media_in;
use crate::parts::{account_part, blob_part, decoded, name_part};
use crate::{Kind, RouteRequest, Routes};
use octets::Bytes;
use std::alloc::{AllocError, Global};

/// What a request asks for.
#[derive(Debug, Drop, PartialEq)]
pub enum Route {
    /// The Session object.
    Session,
    /// Method calls.
    Api,
    /// An upload.
    Upload,
    /// The octets of a blob, under a name, as a type.
    Download {
        /// The blob's id, its escapes undone.
        blob: Bytes,
        /// The last part of the path, its escapes undone; it may be empty.
        name: Bytes,
        /// The value of `accept`, its escapes undone; None where the query doesn't begin with it, or it is empty.
        media: Option<Bytes>,
    },
    /// There is no such path, or no such account.
    NotFound,
    /// The path is asked for by another method.
    MethodNotAllowed,
}

fn is_method(method: &[u8], wanted: &[u8]) -> bool
    ensures { result ≡ bytes_eq method.now wanted.now }
{
    method == wanted
}

/// The route, where the method is the one that the path takes.
fn of_method(method: &[u8], wanted: &[u8], route: Route) -> Route
    ensures { result ≡ spec.of_method method.now wanted.now route }
{
    if is_method(method, wanted) {
        route
    } else {
        Route::MethodNotAllowed
    }
}

/// Whether the path is of the account.
fn is_of_account(alloc: Global, account: &[u8], path: &str) -> Result<bool, AllocError>
    ensures { IfOk result (λ same. same ≡ spec.names_account account.now (reading.account_part path.now)) }
{
    let named = decoded(alloc, account_part(path))?;
    Ok(named.as_slice() == account)
}

/// The download that the path and the query name.
fn download(alloc: Global, request: RouteRequest<'_>) -> Result<Route, AllocError>
    ensures { IfOk result (λ route. route
        ≡ spec.download (reading.blob_part request.entry.path.now) (reading.name_part request.entry.path.now) request.entry.query.now) }
{
    Ok(Route::Download {
        blob: decoded(alloc, blob_part(request.path))?,
        name: decoded(alloc, name_part(request.path))?,
        media: media_in(alloc, request.query)?,
    })
}

/// The route to an upload, where the path is of one.
fn upload(alloc: Global, account: &[u8], request: RouteRequest<'_>) -> Result<Route, AllocError>
    ensures { IfOk result (λ route. route ≡ spec.route_to (Some (UploadResource (reading.account_part request.entry.path.now)))
        account.now request.entry.method.now request.entry.query.now) }
{
    if !is_of_account(alloc, account, request.path)? {
        return Ok(Route::NotFound);
    }
    Ok(of_method(request.method, b"POST", Route::Upload))
}

/// The route to a download, where the path is of one.
fn download_of(
    alloc: Global,
    account: &[u8],
    request: RouteRequest<'_>,
) -> Result<Route, AllocError>
    ensures { IfOk result (λ route. route ≡ spec.route_to
        (Some (DownloadResource (reading.account_part request.entry.path.now) (reading.blob_part request.entry.path.now)
        (reading.name_part request.entry.path.now)))
        account.now request.entry.method.now request.entry.query.now) }
{
    if !is_of_account(alloc, account, request.path)? {
        return Ok(Route::NotFound);
    }
    if !is_method(request.method, b"GET") {
        return Ok(Route::MethodNotAllowed);
    }
    download(alloc, request)
}

/// The route of a request whose path is of this kind.
fn route_of_kind(
    alloc: Global,
    account: &[u8],
    kind: Option<Kind>,
    request: RouteRequest<'_>,
) -> Result<Route, AllocError>
    ensures { IfOk result (λ route. route ≡ spec.route_to (resource_of kind request.entry.path.now)
        account.now request.entry.method.now request.entry.query.now) }
{
    match kind {
        None => Ok(Route::NotFound),
        Some(Kind::Session) => Ok(of_method(request.method, b"GET", Route::Session)),
        Some(Kind::Api) => Ok(of_method(request.method, b"POST", Route::Api)),
        Some(Kind::Upload) => upload(alloc, account, request),
        Some(Kind::Download) => download_of(alloc, account, request),
    }
}

impl Routes {
    /// The route of a request, where there is this account alone. A path or an account that is not there comes before
    /// another method.
    pub fn route(
        &self,
        alloc: Global,
        account: &[u8],
        request: RouteRequest<'_>,
    ) -> Result<Route, AllocError>
        ensures { IfOk result (λ route. IsRoute account.now request.entry.method.now request.entry.path.now request.entry.query.now route) }
    {
        route_of_kind(alloc, account, self.kind(request.path), request)
    }
}
