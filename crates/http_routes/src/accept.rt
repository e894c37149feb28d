// The type that a download asks for.
ghost use Rattle.std.specs.Prelude.{◌≡◌, IfOk};
ghost use Rattle.http_routes.specs.Accept as spec;

use crate::cutting::{after, before};
use crate::parts::decoded;
use octets::Bytes;
use std::alloc::{AllocError, Global};

/// The value of `accept`, with its escapes, where the query begins with it; else no octet.
fn accept_in(query: &str) -> &str
    ensures { result.now ≡ spec.accept_in query.now }
{
    if before(query, '=') == "accept" {
        before(after(query, '='), '&')
    } else {
        ""
    }
}

fn some_octets(octets: Bytes) -> Option<Bytes>
    ensures { result ≡ spec.some_octets octets }
{
    if octets.as_slice().is_empty() {
        None
    } else {
        Some(octets)
    }
}

/// The type that the query asks for. Which octets may stand in a head isn't looked at here.
pub(crate) fn media_in(alloc: Global, query: &str) -> Result<Option<Bytes>, AllocError>
    ensures { IfOk result (λ media. media ≡ spec.media_in query.now) }
{
    Ok(some_octets(decoded(alloc, accept_in(query))?))
}
