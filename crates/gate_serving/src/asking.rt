// What clients ask.
ghost use Rattle.std.specs.Prelude.{◌≡◌, true, false};
ghost use Rattle.jmap_core.specs.Request.{request_data};
ghost use Rattle.gate_serving.specs.Requests.{Calls, asks_for_mail};

use crate::upload::Upload;
use gate_calls::needs_mail;
use http_service::Refusal;
use jmap_core::{Request, RequestError};
use octets::Bytes;

/// Method calls of which none needs the mail.
#[derive(Drop)]
pub struct CallsAtOnce {
    pub request: Request,
    ghost needless: { asks_for_mail (Calls (request_data request)) ≡ false },
}

/// Method calls of which one needs the mail.
#[derive(Drop)]
pub struct CallsOverMail {
    pub request: Request,
    ghost needs: { asks_for_mail (Calls (request_data request)) ≡ true },
}

/// What is answered at once: nothing of the outside is asked for it.
#[derive(Drop)]
pub enum AskingAtOnce {
    /// Method calls.
    Calls(CallsAtOnce),
    /// No request, and why.
    Problem(RequestError),
    /// The Session.
    Session,
    /// Octets to keep (RFC 8620 section 6.1).
    Upload(Upload),
    /// What HTTP has no answer to.
    Refused(Refusal),
}

/// What is answered over the mail.
#[derive(Drop)]
pub enum AskingOverMail {
    /// Method calls.
    Calls(CallsOverMail),
    /// The octets of a blob, as this type where one is named.
    Download { blob: Bytes, media: Option<Bytes> },
}

/// What a client asks, once its body is read: `HttpAsking` has it before that.
#[derive(Drop)]
pub enum Asking {
    /// It needs no mail.
    AtOnce(AskingAtOnce),
    /// It needs the mail.
    OverMail(AskingOverMail),
}

impl Asking {
    ghost use Rattle.gate_serving.specs.reading.Askings.{asking_data};

    /// What a request of the API asks.
    pub fn of_request(request: Request) -> Asking
        ensures { asking_data result ≡ Calls (request_data request) }
    {
        if needs_mail(request.calls.as_slice()) {
            Asking::OverMail(AskingOverMail::Calls(CallsOverMail { request }))
        } else {
            Asking::AtOnce(AskingAtOnce::Calls(CallsAtOnce { request }))
        }
    }
}
