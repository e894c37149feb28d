// Responses, each a head and a body.
ghost use Rattle.std.specs.Prelude.{◌≡◌, IfOk, OnErr};
ghost use Rattle.gate_world.specs.Causes.{Rose, FrontAlone};
ghost use Rattle.gate_world.specs.Sending.{Sends};
ghost use Rattle.gate_world.specs.Tape.{Adds};
ghost use Rattle.http_requests.specs.Responses.{http_response, refusal_text};

use gate_world::{Failed, Front, send_all};
use http::StatusCode;
use http_service::{MediaType, Refusal, refusal_head, response_head, write_response};
use octets::Bytes;
use std::alloc::{AllocError, Global};
use std::marker::Model;

/// What a response is made of.
#[derive(Debug, Drop)]
pub(crate) enum Parts {
    /// A head, its empty line with it, and a body.
    Whole { head: Bytes, body: Bytes },
    /// The head of a refusal, which has no body.
    Head { refusal: Refusal },
}

/// A response: its whole text, with the length of its own body in its head.
#[derive(Debug, Drop)]
pub struct HttpResponse {
    parts: Parts,
}

impl Model for HttpResponse {
    ghost use Rattle.std.specs.Prelude.{List, ℕ};
    ghost use Rattle.http_requests.specs.reading.Parts.{text_of};

    ghost Value = { List ℕ };

    ghost view = { λ r. text_of r.parts };
}

impl HttpResponse {
    /// The response of this status, with a body of this type.
    pub fn new(
        alloc: Global,
        status: StatusCode,
        media: &MediaType<'_>,
        body: Bytes,
    ) -> Result<HttpResponse, AllocError>
        ensures { IfOk result (λ response. response ≡ http_response status media.now body) }
    {
        let head = response_head(alloc, status, body.as_slice(), media)?;
        Ok(HttpResponse {
            parts: Parts::Whole { head, body },
        })
    }

    /// The response to what is refused. It takes no memory.
    pub fn refusal(refusal: Refusal) -> HttpResponse
        ensures { result ≡ refusal_text refusal }
    {
        HttpResponse {
            parts: Parts::Head { refusal },
        }
    }

    /// Sends the response. It takes no memory.
    pub fn send<F: Front>(&self, front: &mut F) -> Result<(), Failed>
        ensures tape { Adds (F.tape front.old) (F.tape front.new) (Sends self.now result) }
        ensures alone { FrontAlone (F.faults front.old) (F.faults front.new) }
        ensures cause { OnErr result (Rose (F.faults front.old).front (F.faults front.new).front) }
        ensures hidden { F.hidden front.new ≡ F.hidden front.old }
    {
        match &self.parts {
            Parts::Whole { head, body } => write_response(front, head.as_slice(), body.as_slice()),
            Parts::Head { refusal } => send_all(front, refusal_head(*refusal)),
        }
    }
}
