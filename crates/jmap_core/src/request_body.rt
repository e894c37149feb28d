// Reading a request.
ghost use Rattle.std.specs.Prelude.{◌≡◌, [], IfOk, map, option_map, option_and_then, option_copied, ok_or, codes};
ghost use Rattle.serde_json.specs.Find.{get, as_array};
ghost use Rattle.serde_json.specs.View.{view, items_view, members_view};
ghost use Rattle.jmap_core.specs.CreatedIds.{given_to};
ghost use Rattle.jmap_arguments.specs.Arguments.{texts_in};
ghost use Rattle.jmap_arguments.specs.Outcome.{Agrees};
ghost use Rattle.jmap_core.specs.Request as spec;
ghost use Rattle.jmap_core.specs.Request.{request_data, json_in, requested};
ghost use Rattle.result_references.specs.Call.{call_data};
ghost use Rattle.jmap_core.specs.reading.Forms.{form_data, note_capability, known_capabilities};
ghost use Rattle.jmap_core.specs.declared.request.RequestError.TheVariants.{Memory, NotJson, NotRequest};

use crate::created_ids::CreatedIds;
use crate::request::{LimitName, Request, RequestError};
use jmap_arguments::{Using, texts_in};
use octets::Text;
use result_references::Call;
use serde_json::{Map, Value};
use std::alloc::{AllocError, Global};

/// How many calls a request may have (RFC 8620 section 2).
pub const MAX_CALLS_IN_REQUEST: usize = 16;

/// The value that a body is.
fn json_of(alloc: Global, body: &[u8]) -> Result<Value, RequestError>
    ensures { Agrees Memory view result (ok_or (json_in body.now) NotJson) }
{
    match Value::from_slice(alloc, body) {
        Ok(value) => Ok(value),
        Err(error) => {
            if error.is_memory() {
                Err(RequestError::Memory)
            } else {
                Err(RequestError::NotJson)
            }
        }
    }
}

/// The call that a list of three items is, where it is one.
fn call_of_items(alloc: Global, items: &[Value]) -> Result<Option<Call>, AllocError>
    ensures { IfOk result (λ o. option_map call_data o ≡ spec.call_of_items (items_view items.now)) }
{
    if items.len() != 3 {
        return Ok(None);
    }
    let (Some(name), Some(id)) = (items[0].as_str(), items[2].as_str()) else {
        return Ok(None);
    };
    if !items[1].is_object() {
        return Ok(None);
    }
    Ok(Some(Call {
        name: Text::copy_of(alloc, name)?,
        arguments: items[1].clone()?,
        id: Text::copy_of(alloc, id)?,
    }))
}

fn call_in(alloc: Global, value: &Value) -> Result<Option<Call>, AllocError>
    ensures { IfOk result (λ o. option_map call_data o ≡ spec.call_in (view value.now)) }
{
    match value.as_array() {
        None => Ok(None),
        Some(items) => call_of_items(alloc, items.as_slice()),
    }
}

/// The calls of a list, where each item is one.
fn calls_in(alloc: Global, items: &Vec<Value>) -> Result<Option<Vec<Call>>, AllocError>
    ensures { IfOk result (λ o. option_map (λ v. map call_data v.items) o
        ≡ spec.calls_in (items_view items.now.items)) }
{
    let mut calls = Vec::new(alloc);
    for item in items {
        let Some(call) = call_in(alloc, item)? else {
            return Ok(None);
        };
        calls.push(call)?;
    }
    Ok(Some(calls))
}

/// The ids of an object of texts.
fn ids_given(alloc: Global, members: &Map<String, Value>) -> Result<Option<CreatedIds>, AllocError>
    ensures { IfOk result (λ o. o ≡ given_to [] (members_view members.now.entries)) }
{
    let mut ids = CreatedIds::new(alloc);
    for (creation, id) in members.iter() {
        let Some(id) = id.as_str() else {
            return Ok(None);
        };
        ids.put(alloc, creation.as_str(), id)?;
    }
    Ok(Some(ids))
}

/// What stands at `createdIds`: nothing or null, or an object of texts.
fn created_in(
    alloc: Global,
    value: Option<&Value>,
) -> Result<Option<Option<CreatedIds>>, AllocError>
    ensures { IfOk result (λ o. o ≡ spec.created_in (option_map view (option_copied value.entry))) }
{
    match value {
        None | Some(Value::Null) => Ok(Some(None)),
        Some(Value::Object(members)) => match ids_given(alloc, members)? {
            None => Ok(None),
            Some(ids) => Ok(Some(Some(ids))),
        },
        Some(_) => Ok(None),
    }
}

/// The items of the list at the key.
fn list_at<'a>(request: &'a Value, key: &str) -> Option<&'a Vec<Value>>
    ensures { option_map (λ v. items_view v.now.items) result
        ≡ option_and_then as_array (get key.now (view request.now)) }
{
    request.get(key).and_then(Value::as_array)
}

fn names_of<'a>(alloc: Global, request: &'a Value) -> Result<Option<Vec<&'a str>>, AllocError>
    ensures { IfOk result (λ o. option_map (λ v. map (λ t. t.now) v.items) o
        ≡ option_and_then texts_in (option_and_then as_array (get (codes "using") (view request.now)))) }
{
    match list_at(request, "using") {
        None => Ok(None),
        Some(items) => texts_in(alloc, items),
    }
}

fn calls_of(alloc: Global, request: &Value) -> Result<Option<Vec<Call>>, AllocError>
    ensures { IfOk result (λ o. option_map (λ v. map call_data v.items) o
        ≡ option_and_then spec.calls_in (option_and_then as_array (get (codes "methodCalls") (view request.now)))) }
{
    match list_at(request, "methodCalls") {
        None => Ok(None),
        Some(items) => calls_in(alloc, items),
    }
}

/// The parts of a request before they are checked.
#[derive(Drop)]
struct Form<'a> {
    names: Vec<&'a str>,
    calls: Vec<Call>,
    created: Option<CreatedIds>,
}

/// The parts of a request, or none where the value hasn't the form of one.
fn form_of<'a>(alloc: Global, value: &'a Value) -> Result<Option<Form<'a>>, AllocError>
    ensures { IfOk result (λ o. option_map form_data o ≡ spec.form_of (view value.now)) }
{
    let Some(names) = names_of(alloc, value)? else {
        return Ok(None);
    };
    let Some(calls) = calls_of(alloc, value)? else {
        return Ok(None);
    };
    let Some(created) = created_in(alloc, value.get("createdIds"))? else {
        return Ok(None);
    };
    Ok(Some(Form {
        names,
        calls,
        created,
    }))
}

fn with_capability(uses: Using, name: &str) -> Option<Using>
    ensures { result ≡ note_capability name.now uses }
{
    match name {
        "urn:ietf:params:jmap:core" => Some(Using { core: true, ..uses }),
        "urn:ietf:params:jmap:mail" => Some(Using { mail: true, ..uses }),
        _ => None,
    }
}

/// The capabilities that names use, if they name no other.
fn using_of(names: &Vec<&str>) -> Option<Using>
    ensures { result ≡ known_capabilities (map (λ t. t.now) names.now.items) }
{
    let mut uses = Using {
        core: false,
        mail: false,
    };
    for name in names {
        uses = with_capability(uses, *name)?;
    }
    Some(uses)
}

/// The checks of a request's parts, in order.
fn admitted(form: Form<'_>) -> Result<Request, RequestError>
    ensures { Agrees Memory request_data result (spec.admitted (form_data form.entry)) }
{
    let Some(using) = using_of(&form.names) else {
        return Err(RequestError::UnknownCapability);
    };
    if form.calls.len() > MAX_CALLS_IN_REQUEST {
        return Err(RequestError::Limit {
            name: LimitName::MaxCallsInRequest,
        });
    }
    Ok(Request {
        using,
        calls: form.calls,
        created: form.created,
    })
}

/// The request that a body is (RFC 8620 section 3.3), or the first refusal: `NotJson`, `NotRequest`,
/// `UnknownCapability`, `Limit` with `MaxCallsInRequest` (section 3.6.1).
pub fn read_request(alloc: Global, body: &[u8]) -> Result<Request, RequestError>
    ensures { Agrees Memory request_data result (requested body.now) }
{
    let value = json_of(alloc, body)?;
    let form = form_of(alloc, &value)?.ok_or(RequestError::NotRequest)?;
    admitted(form)
}
