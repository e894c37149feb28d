// What a client asks is read.
ghost use Rattle.std.specs.Prelude.{◌≡◌, List, ℕ, IsErrOf};
ghost use Rattle.gate_world.specs.Causes.{Rose, FrontAlone};
ghost use Rattle.gate_world.specs.Tape.{Adds};
ghost use Rattle.jmap_core.specs.declared.request.RequestError.TheVariants.{Limit};
ghost use Rattle.gate_serving.specs.Requests.{Problem, upload_asked};
ghost use Rattle.gate_serving.specs.declared.door.Door.TheVariants.{Bare, Http};
ghost use Rattle.gate_serving.specs.reading.Askings.{AsksInBody, IsNoRequest, AsksOf, ReadsInto, asking_data};

use crate::asking::{Asking, AskingAtOnce, AskingOverMail};
use crate::door::Door;
use crate::front::{FrontError, Input, receive};
use crate::upload::Upload;
use gate_world::{Front, Secrets};
use http_requests::{AskError, HttpAsking, MAX_REQUEST_OCTETS, ask_over_http};
use http_routes::Routes;
use jmap_arguments::ACCOUNT_ID;
use jmap_core::{LimitName, RequestError, read_request};
use octets::{Bytes, Text};
use std::alloc::Global;

fn too_large(name: LimitName) -> Asking
    ensures { asking_data result ≡ Problem (Limit name) }
{
    Asking::AtOnce(AskingAtOnce::Problem(RequestError::Limit { name }))
}

// What is asked by a body that is no request.
fn problem_of(error: RequestError) -> Result<Asking, AskError>
    ensures { IsNoRequest error result }
{
    match error {
        RequestError::Memory => Err(AskError::Memory),
        RequestError::NotJson => Ok(Asking::AtOnce(AskingAtOnce::Problem(error))),
        RequestError::NotRequest => Ok(Asking::AtOnce(AskingAtOnce::Problem(error))),
        RequestError::UnknownCapability => Ok(Asking::AtOnce(AskingAtOnce::Problem(error))),
        RequestError::Limit { .. } => Ok(Asking::AtOnce(AskingAtOnce::Problem(error))),
    }
}

// What the body of a request of the API asks.
fn asking_in_body(alloc: Global, body: &[u8]) -> Result<Asking, AskError>
    ensures { AsksInBody body.now result }
{
    match read_request(alloc, body) {
        Ok(request) => Ok(Asking::of_request(request)),
        Err(error) => problem_of(error),
    }
}

// At the bare door a request is all that the client gives. No more than one octet past the limit is read.
fn read_bare<F: Front>(alloc: Global, front: &mut F) -> Result<Asking, AskError>
    ensures tape { Adds (F.tape front.old) (F.tape front.new) (λ es. (token : List ℕ) → ReadsInto Bare token result es) }
    ensures alone { FrontAlone (F.faults front.old) (F.faults front.new) }
    ensures cause { IsErrOf result AskError.Failed → Rose (F.faults front.old).front (F.faults front.new).front }
    // The client's end is the request's.
    ensures whole { IsErrOf result AskError.Ended → ⊥ }
    ensures hidden { F.hidden front.new ≡ F.hidden front.old }
{
    match receive(alloc, front, MAX_REQUEST_OCTETS as usize + 1) {
        Ok(Input::Whole(body)) => asking_in_body(alloc, body.as_slice()),
        Ok(Input::Cut(_)) => Ok(too_large(LimitName::MaxSizeRequest)),
        Err(FrontError::Failed) => Err(AskError::Failed),
        Err(FrontError::Memory) => Err(AskError::Memory),
    }
}

fn asking_of_upload(media: Text, octets: Bytes) -> Asking
    ensures { asking_data result ≡ upload_asked media octets }
{
    match Upload::new(media, octets) {
        Some(upload) => Asking::AtOnce(AskingAtOnce::Upload(upload)),
        None => too_large(LimitName::MaxSizeUpload),
    }
}

// What is asked over HTTP.
fn asking_of(alloc: Global, asked: HttpAsking) -> Result<Asking, AskError>
    ensures { AsksOf asked result }
{
    match asked {
        HttpAsking::Session => Ok(Asking::AtOnce(AskingAtOnce::Session)),
        HttpAsking::Calls { body } => asking_in_body(alloc, body.as_slice()),
        HttpAsking::Upload { media, octets } => Ok(asking_of_upload(media, octets)),
        HttpAsking::Download {
            blob,
            name: _,
            media,
        } => Ok(Asking::OverMail(AskingOverMail::Download { blob, media })),
        HttpAsking::Refused { refusal } => Ok(Asking::AtOnce(AskingAtOnce::Refused(refusal))),
        HttpAsking::CallsTooLarge => Ok(too_large(LimitName::MaxSizeRequest)),
        HttpAsking::UploadTooLarge => Ok(too_large(LimitName::MaxSizeUpload)),
    }
}

fn read_http<W: Front + Secrets>(
    alloc: Global,
    world: &mut W,
    routes: &Routes,
) -> Result<Asking, AskError>
    ensures tape { Adds (W.tape world.old) (W.tape world.new) (ReadsInto Http (W.hidden world.old).token result) }
    ensures alone { FrontAlone (W.faults world.old) (W.faults world.new) }
    ensures cause { IsErrOf result AskError.Failed → Rose (W.faults world.old).front (W.faults world.new).front }
    ensures hidden { W.hidden world.new ≡ W.hidden world.old }
{
    match ask_over_http(alloc, world, routes, ACCOUNT_ID.as_bytes()) {
        Ok(asked) => asking_of(alloc, asked),
        Err(error) => Err(error),
    }
}

/// Reads what the client that was accepted asks.
pub fn read_asking<W: Front + Secrets>(
    alloc: Global,
    world: &mut W,
    door: Door,
    routes: &Routes,
) -> Result<Asking, AskError>
    ensures tape { Adds (W.tape world.old) (W.tape world.new) (ReadsInto door (W.hidden world.old).token result) }
    ensures alone { FrontAlone (W.faults world.old) (W.faults world.new) }
    ensures cause { IsErrOf result AskError.Failed → Rose (W.faults world.old).front (W.faults world.new).front }
    ensures bare { door ≡ Bare → IsErrOf result AskError.Ended → ⊥ }
    ensures hidden { W.hidden world.new ≡ W.hidden world.old }
{
    match door {
        Door::Bare => read_bare(alloc, world),
        Door::Http => read_http(alloc, world, routes),
    }
}
