// The answers to what clients ask.
ghost use Rattle.std.specs.Prelude.{◌≡◌, ℕ, IfOk, All, List, map, string_bytes, Ok, Some, None, if◌then◌else◌};
ghost use Rattle.std.specs.Option.{option_copied};
ghost use Rattle.serde_json.specs.View.{view};
ghost use Rattle.serde_json.specs.Written.{compact_text};
ghost use Rattle.blob_store.specs.Uploads.{blob_id as id_of};
ghost use Rattle.jmap_core.specs.Problem.{text_of_problem, status_of as status_of_problem};
ghost use Rattle.jmap_core.specs.Request.{request_data};
ghost use Rattle.result_references.specs.Call.{call_data};
ghost use Rattle.jmap_core.specs.Response.{IsWhole};
ghost use Rattle.jmap_core.specs.Session.{session_data};
ghost use Rattle.email_get.specs.Asked.{FailsAfter};
ghost use Rattle.email_get.specs.Blobs.{FindsBlob, OctetsFound};
ghost use Rattle.gate_calls.specs.Sources.{CallsMake};
ghost use Rattle.gate_serving.specs.Answers.{calls_text as text_of_calls, found_answer, json_answer, problem_answer, spelled, untold_problem, upload_data};
ghost use Rattle.jmap_core.specs.CreatedIds.{Ids};
ghost use Rattle.gate_serving.specs.Doing.{ids_given, ids_told};
ghost use Rattle.gate_serving.specs.reading.Making.{AsksAndMakes};
ghost use Rattle.gate_serving.specs.reading.Texts.{text_sent};

use crate::account::Account;
use crate::door::Door;
use crate::response::Response;
use crate::upload::Upload;
use blob_store::{BlobStore, MAX_UPLOAD_OCTETS};
use email_bodies::{BodyError, BodySource};
use email_get::find_blob;
use gate_calls::{CallSource, responses_to};
use http::StatusCode;
use http_requests::{MAX_REQUEST_OCTETS, download_media, json_media, problem_media};
use http_service::Refusal;
use jmap_arguments::ACCOUNT_ID;
use jmap_core::{
    CreatedIds, LimitName, MAX_SIZE_REQUEST, MAX_SIZE_UPLOAD, Request, RequestError, problem_text,
    response_text, session_object, session_state,
};
use mail_state::MailState;
use octets::Bytes;
use result_references::Call;
use serde_json::{Value, json};
use std::alloc::{AllocError, Global};

// The Session tells the limits that hold.
const _: () = prove!(MAX_SIZE_REQUEST == MAX_REQUEST_OCTETS);

const _: () = prove!(MAX_SIZE_UPLOAD == MAX_UPLOAD_OCTETS as u64);

fn calls_text(
    alloc: Global,
    account: &Account,
    responses: &[Call],
    created: Option<&CreatedIds>,
) -> Result<String, AllocError>
    requires { All IsWhole responses.now }
    ensures { IfOk result (λ text. string_bytes text
        ≡ text_of_calls account.now.user account.now.base (map call_data responses.now) (option_copied created.entry)) }
{
    let session = session_state(alloc, account.user.as_str(), account.base.as_str())?;
    response_text(alloc, responses, created, session.as_str())
}

// JSON, of this status.
fn json_response(
    alloc: Global,
    door: Door,
    status: StatusCode,
    text: String,
) -> Result<Response, AllocError>
    ensures { IfOk result (λ r. text_sent r ≡ spelled door (json_answer status (string_bytes text))) }
{
    let body = Bytes::from_vec(text.into_bytes())?;
    Response::new(alloc, door, status, &json_media(), body)
}

// The answer that has these responses, and these ids where some are told.
fn responses_answer(
    alloc: Global,
    door: Door,
    account: &Account,
    responses: &[Call],
    created: Option<&CreatedIds>,
) -> Result<Response, AllocError>
    requires { All IsWhole responses.now }
    ensures { IfOk result (λ r. text_sent r
        ≡ spelled door (json_answer 200 (text_of_calls account.now.user account.now.base (map call_data responses.now) (option_copied created.entry)))) }
{
    let text = calls_text(alloc, account, responses, created)?;
    json_response(alloc, door, StatusCode::OK, text)
}

// The ids that are there before the first call.
fn ids_begun(alloc: Global, given: Option<CreatedIds>) -> CreatedIds
    ensures { result ≡ ids_given given }
{
    match given {
        Some(ids) => ids,
        None => CreatedIds::new(alloc),
    }
}

// All that were created by then, where the request gives some.
fn ids_to_tell(gives: bool, created: &CreatedIds) -> Option<&CreatedIds>
    ensures { option_copied result ≡ if gives then Some created.now else None }
{
    if gives { Some(created) } else { None }
}

/// The answer to method calls. The source answers each at its moment, beside the uploads that are kept. The ids that were created by then
/// are told where the request gives some.
pub fn calls_response<W, C: CallSource<W>>(
    alloc: Global,
    door: Door,
    account: &Account,
    source: &mut C,
    world: &mut W,
    uploads: &BlobStore,
    request: Request,
) -> Result<Response, AllocError>
    ensures { (ids : Ids) × CallsMake (C.answers uploads.now) (C.lacks uploads.now) (request_data request).uses
        ((source.old, world.old), ids_given (request_data request).created) ((source.new, world.new), ids) (request_data request).calls result
        (λ r responses. text_sent r
        ≡ spelled door (json_answer 200 (text_of_calls account.now.user account.now.base responses (ids_told (request_data request).created ids)))) }
{
    let Request {
        using,
        calls,
        created,
    } = request;
    let gives = created.is_some();
    let mut ids = ids_begun(alloc, created);
    let responses = responses_to(
        alloc,
        source,
        world,
        uploads,
        &mut ids,
        using,
        calls.as_slice(),
    )?;
    let told = ids_to_tell(gives, &ids);
    responses_answer(alloc, door, account, responses.as_slice(), told)
}

fn status_of(error: RequestError) -> StatusCode
    ensures { result ≡ status_of_problem error }
{
    match error {
        RequestError::NotJson | RequestError::NotRequest | RequestError::UnknownCapability => {
            StatusCode::BAD_REQUEST
        }
        RequestError::Limit { name } => match name {
            LimitName::MaxSizeRequest | LimitName::MaxSizeUpload => StatusCode::PAYLOAD_TOO_LARGE,
            LimitName::MaxCallsInRequest => StatusCode::BAD_REQUEST,
        },
        RequestError::Memory => StatusCode::SERVICE_UNAVAILABLE,
    }
}

/// Why there is no request.
pub fn problem_response(
    alloc: Global,
    door: Door,
    error: RequestError,
) -> Result<Response, AllocError>
    ensures { IfOk result (λ r. text_sent r ≡ spelled door (problem_answer (status_of_problem error) (text_of_problem error))) }
{
    let body = Bytes::copy_of(alloc, problem_text(error))?;
    Response::new(alloc, door, status_of(error), &problem_media(), body)
}

fn session_text(alloc: Global, account: &Account) -> Result<String, AllocError>
    ensures { IfOk result (λ text. string_bytes text ≡ compact_text (session_data account.now.user account.now.base)) }
{
    let session = session_object(alloc, account.user.as_str(), account.base.as_str())?;
    session.to_string(alloc)
}

/// The Session.
pub fn session_response(
    alloc: Global,
    door: Door,
    account: &Account,
) -> Result<Response, AllocError>
    ensures { IfOk result (λ r. text_sent r ≡ spelled door (json_answer 200 (compact_text (session_data account.now.user account.now.base)))) }
{
    let text = session_text(alloc, account)?;
    json_response(alloc, door, StatusCode::OK, text)
}

#[tactic(auto, using(crate::proofs::Ids::id_is_text))]
fn id_text(alloc: Global, id: &[u8]) -> Result<String, AllocError>
    requires { (octets : List ℕ) × (id.now ≡ id_of octets) }
    ensures { IfOk result (λ text. string_bytes text ≡ id.now) }
{
    String::from_utf8_lossy(alloc, id)
}

fn upload_value(alloc: Global, upload: &Upload, id: &Bytes) -> Result<Value, AllocError>
    requires id { id.now ≡ id_of upload.now.octets }
    ensures { IfOk result (λ value. view value ≡ upload_data upload.now.media upload.now.octets) }
{
    let id = id_text(alloc, id.as_slice())?;
    json!(in alloc; {
        "accountId": ACCOUNT_ID,
        "blobId": id.as_str(),
        "size": upload.octets.as_slice().len() as u64,
        "type": upload.media.as_str(),
    })
}

/// What is told of an upload that is kept under this id.
pub fn upload_response(
    alloc: Global,
    door: Door,
    upload: &Upload,
    id: &Bytes,
) -> Result<Response, AllocError>
    requires id { id.now ≡ id_of upload.now.octets }
    ensures { IfOk result (λ r. text_sent r ≡ spelled door (json_answer 201 (compact_text (upload_data upload.now.media upload.now.octets)))) }
{
    let text = upload_value(alloc, upload, id)?.to_string(alloc)?;
    json_response(alloc, door, StatusCode::CREATED, text)
}

const UNTOLD: &[u8] = b"{\"status\":404,\"type\":\"about:blank\"}";

fn untold_text() -> &'static [u8]
    ensures { result.now ≡ compact_text untold_problem }
{
    UNTOLD
}

/// A blob that can't be told.
pub fn untold_response(alloc: Global, door: Door) -> Result<Response, AllocError>
    ensures { IfOk result (λ r. text_sent r ≡ spelled door (problem_answer 404 (compact_text untold_problem))) }
{
    let body = Bytes::copy_of(alloc, untold_text())?;
    Response::new(alloc, door, StatusCode::NOT_FOUND, &problem_media(), body)
}

// The octets that a blob id names, where it names some.
fn found_response(
    alloc: Global,
    door: Door,
    found: Option<Bytes>,
    media: Option<&[u8]>,
) -> Result<Response, AllocError>
    ensures { IfOk result (λ r. text_sent r ≡ spelled door (found_answer (Ok found) (option_copied media.entry))) }
{
    match found {
        Some(octets) => Response::new(alloc, door, StatusCode::OK, &download_media(media), octets),
        None => Ok(Response::empty(door, Refusal::NotFound)),
    }
}

/// The octets that a blob id names in the mail and the uploads. The body of an Email is asked of the source.
pub fn told_response<W, B: BodySource<W>>(
    alloc: Global,
    door: Door,
    state: &MailState,
    uploads: &BlobStore,
    bodies: &mut B,
    world: &mut W,
    blob: &[u8],
    media: Option<&[u8]>,
) -> Result<Response, AllocError>
    ensures { AsksAndMakes B.answers B.lacks (bodies.old, world.old) (bodies.new, world.new) result
        (λ r asks. (found : OctetsFound) × FindsBlob state.now.rows.numbered.rows uploads.now blob.now asks found
        × (text_sent r ≡ spelled door (found_answer found (option_copied media.entry))))
        (FailsAfter (FindsBlob state.now.rows.numbered.rows uploads.now blob.now)) }
{
    match find_blob(alloc, state, uploads, bodies, world, blob) {
        Err(BodyError::Memory) => Err(AllocError),
        Err(BodyError::Ended) => untold_response(alloc, door),
        Ok(found) => found_response(alloc, door, found, media),
    }
}
