// Heads of refusals, which are made without memory.
ghost use Rattle.std.specs.Prelude.{◌≡◌, ℕ, List};
ghost use Rattle.http_service.specs.Responses.{response_head};
ghost use Rattle.http_service.specs.Refusals.{refusal_status};

/// A refusal whose response has no body.
#[derive(Clone, Copy, Debug, PartialEq, Eq)]
pub enum Refusal {
    /// 400: the request is malformed.
    BadRequest,
    /// 401: the token is missing or wrong.
    Unauthorized,
    /// 404: nothing is served at this path.
    NotFound,
    /// 405: what is served at this path is not asked for by this method.
    MethodNotAllowed,
    /// 431: the head is too large.
    HeadTooLarge,
    /// 503: the service can't answer now.
    Unavailable,
}

/// The head of the refusal's response, its empty line with it. It takes no memory.
pub fn refusal_head(refusal: Refusal) -> &'static [u8]
    ensures { (media : List ℕ) → result.now ≡ response_head (refusal_status refusal) 0 media }
{
    match refusal {
        Refusal::BadRequest =>
            b"HTTP/1.1 400 Bad Request\r\nConnection: close\r\nCache-Control: no-store\r\nContent-Length: 0\r\n\r\n",
        Refusal::Unauthorized =>
            b"HTTP/1.1 401 Unauthorized\r\nConnection: close\r\nCache-Control: no-store\r\nWWW-Authenticate: Bearer\r\nContent-Length: 0\r\n\r\n",
        Refusal::NotFound =>
            b"HTTP/1.1 404 Not Found\r\nConnection: close\r\nCache-Control: no-store\r\nContent-Length: 0\r\n\r\n",
        Refusal::MethodNotAllowed =>
            b"HTTP/1.1 405 Method Not Allowed\r\nConnection: close\r\nCache-Control: no-store\r\nContent-Length: 0\r\n\r\n",
        Refusal::HeadTooLarge =>
            b"HTTP/1.1 431 Request Header Fields Too Large\r\nConnection: close\r\nCache-Control: no-store\r\nContent-Length: 0\r\n\r\n",
        Refusal::Unavailable =>
            b"HTTP/1.1 503 Service Unavailable\r\nConnection: close\r\nCache-Control: no-store\r\nContent-Length: 0\r\n\r\n",
    }
}
