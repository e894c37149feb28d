// Responses, spelled as the door wants them.
ghost use Rattle.std.specs.Prelude.{◌≡◌, IfOk, OnErr};
ghost use Rattle.gate_world.specs.Causes.{FrontAlone, Rose};
ghost use Rattle.gate_world.specs.Sending.{Sends};
ghost use Rattle.gate_world.specs.Tape.{Adds};
ghost use Rattle.http_service.specs.Refusals.{refusal_status};
ghost use Rattle.gate_serving.specs.Answers.{empty_answer, spelled};
ghost use Rattle.gate_serving.specs.reading.Texts.{text_sent};

use crate::door::Door;
use crate::line::with_line_end;
use gate_world::{Failed, Front, send_all};
use http::StatusCode;
use http_requests::HttpResponse;
use http_service::{MediaType, Refusal};
use octets::Bytes;
use std::alloc::{AllocError, Global};

/// What a client is sent.
#[derive(Drop)]
pub enum Response {
    /// A line, with its end.
    Line(Bytes),
    /// A line of no octet.
    LineEnd,
    /// A head, and a body or none.
    Http(HttpResponse),
}

impl Response {
    /// The answer of this status, whose body is of this type.
    pub fn new(
        alloc: Global,
        door: Door,
        status: StatusCode,
        media: &MediaType<'_>,
        body: Bytes,
    ) -> Result<Response, AllocError>
        ensures { IfOk result (λ r. text_sent r ≡ spelled door (record { status = status; media = media.now; body = body })) }
    {
        match door {
            Door::Bare => Ok(Response::Line(with_line_end(body)?)),
            Door::Http => Ok(Response::Http(HttpResponse::new(alloc, status, media, body)?)),
        }
    }

    /// The answer of this status that has no body. It takes no memory.
    pub fn empty(door: Door, refusal: Refusal) -> Response
        ensures { text_sent result ≡ spelled door (empty_answer (refusal_status refusal)) }
    {
        match door {
            Door::Bare => Response::LineEnd,
            Door::Http => Response::Http(HttpResponse::refusal(refusal)),
        }
    }

    /// Sends it. It takes no memory.
    pub fn send<F: Front>(&self, front: &mut F) -> Result<(), Failed>
        ensures tape { Adds (F.tape front.old) (F.tape front.new) (Sends (text_sent self.now) result) }
        ensures alone { FrontAlone (F.faults front.old) (F.faults front.new) }
        ensures cause { OnErr result (Rose (F.faults front.old).front (F.faults front.new).front) }
        ensures hidden { F.hidden front.new ≡ F.hidden front.old }
    {
        match self {
            Response::Line(line) => send_all(front, line.as_slice()),
            Response::LineEnd => send_all(front, b"\n"),
            Response::Http(response) => response.send(front),
        }
    }
}
