// The answers to a request's calls.
ghost use Rattle.std.specs.Prelude.{◌≡◌, Err, Ok, IfOk, All, map, false};
ghost use Rattle.serde_json.specs.View.{view};
ghost use Rattle.serde_json.specs.Written.{has_float};
ghost use Rattle.jmap_arguments.specs.declared.using.Using.{Using as using_type};
ghost use Rattle.result_references.specs.Call.{call_data};
ghost use Rattle.jmap_core.specs.Response.{IsWhole};
ghost use Rattle.gate_calls.specs.MethodNames.{method_asked};
ghost use Rattle.gate_calls.specs.Calls.{answered_call};
ghost use Rattle.gate_calls.specs.Sources.{CallGives, CallLacks, CallsMake, Gives};
ghost use Rattle.gate_calls.specs.reading.Responding.{IsResponseTo, Responds};

use crate::method::{Method, method_named};
use crate::source::CallSource;
use blob_store::BlobStore;
use jmap_arguments::{MethodError, Using, error_arguments};
use jmap_core::CreatedIds;
use octets::Text;
use result_references::{Call, resolve};
use serde_json::Value;
use std::alloc::{AllocError, Global};

// What a call of this method comes to.
fn method_result<W, C: CallSource<W>>(
    alloc: Global,
    source: &mut C,
    world: &mut W,
    uploads: &BlobStore,
    created: &mut CreatedIds,
    method: Method,
    earlier: &[Call],
    call: &Call,
) -> Result<Value, MethodError>
    ensures meant { (uses : using_type) → method_asked uses call.now.name ≡ Ok method
        → Gives (λ r. CallGives (C.answers uploads.now) uses (map call_data earlier.now) (call_data call.now) ((source.old, world.old), created.old) r ((source.new, world.new), created.new))
        (CallLacks (C.answers uploads.now) (C.lacks uploads.now) uses (map call_data earlier.now) (call_data call.now) ((source.old, world.old), created.old) ((source.new, world.new), created.new)) result }
    ensures whole { IfOk result (λ value. has_float (view value) ≡ false) }
{
    match resolve(alloc, &call.arguments, earlier) {
        Ok(arguments) => source.reply(alloc, world, uploads, created, method, arguments),
        Err(error) => Err(error),
    }
}

// What a call comes to.
fn call_result<W, C: CallSource<W>>(
    alloc: Global,
    source: &mut C,
    world: &mut W,
    uploads: &BlobStore,
    created: &mut CreatedIds,
    uses: Using,
    earlier: &[Call],
    call: &Call,
) -> Result<Value, MethodError>
    ensures meant { Gives (λ r. CallGives (C.answers uploads.now) uses (map call_data earlier.now) (call_data call.now) ((source.old, world.old), created.old) r ((source.new, world.new), created.new))
        (CallLacks (C.answers uploads.now) (C.lacks uploads.now) uses (map call_data earlier.now) (call_data call.now) ((source.old, world.old), created.old) ((source.new, world.new), created.new)) result }
    ensures whole { IfOk result (λ value. has_float (view value) ≡ false) }
{
    match method_named(uses, call.name.as_str()) {
        Ok(method) => method_result(
            alloc, source, world, uploads, created, method, earlier, call,
        ),
        Err(error) => Err(error),
    }
}

fn answer(alloc: Global, call: &Call, arguments: Value) -> Result<Call, AllocError>
    ensures { IfOk result (λ r. call_data r ≡ record (call_data call.now) { arguments = view arguments }) }
{
    Ok(Call {
        name: Text::copy_of(alloc, call.name.as_str())?,
        arguments,
        id: Text::copy_of(alloc, call.id.as_str())?,
    })
}

fn refusal(alloc: Global, call: &Call, error: MethodError) -> Result<Call, AllocError>
    ensures meant { IfOk result (λ r. call_data r ≡ answered_call (call_data call.now) (Err error)) }
    ensures whole { IfOk result IsWhole }
{
    Ok(Call {
        name: Text::copy_of(alloc, "error")?,
        arguments: error_arguments(alloc, error)?,
        id: Text::copy_of(alloc, call.id.as_str())?,
    })
}

// The response to a call that came to this.
fn response_of(
    alloc: Global,
    call: &Call,
    came: Result<Value, MethodError>,
) -> Result<Call, AllocError>
    ensures meant { IfOk result (λ r. IsResponseTo came (call_data call.now) (call_data r)) }
    ensures whole { IfOk came (λ value. has_float (view value) ≡ false) → IfOk result IsWhole }
{
    match came {
        Ok(arguments) => answer(alloc, call, arguments),
        Err(MethodError::Memory) => Err(AllocError),
        Err(error) => refusal(alloc, call, error),
    }
}

// The one response to a call.
fn response_to<W, C: CallSource<W>>(
    alloc: Global,
    source: &mut C,
    world: &mut W,
    uploads: &BlobStore,
    created: &mut CreatedIds,
    uses: Using,
    earlier: &[Call],
    call: &Call,
) -> Result<Call, AllocError>
    ensures meant { Responds (C.answers uploads.now) (C.lacks uploads.now) uses (map call_data earlier.now) (call_data call.now) ((source.old, world.old), created.old) ((source.new, world.new), created.new) result }
    ensures whole { IfOk result IsWhole }
{
    let came = call_result(alloc, source, world, uploads, created, uses, earlier, call);
    response_of(alloc, call, came)
}

/// The responses to calls, in order. The source answers each at its moment, beside the uploads that are kept, and with the ids that were
/// created by then.
pub fn responses_to<W, C: CallSource<W>>(
    alloc: Global,
    source: &mut C,
    world: &mut W,
    uploads: &BlobStore,
    created: &mut CreatedIds,
    uses: Using,
    calls: &[Call],
) -> Result<Vec<Call>, AllocError>
    ensures meant { CallsMake (C.answers uploads.now) (C.lacks uploads.now) uses ((source.old, world.old), created.old) ((source.new, world.new), created.new) (map call_data calls.now) result
        (λ v responses. map call_data v.items ≡ responses) }
    ensures whole { IfOk result (λ v. All IsWhole v.items) }
{
    let mut responses = Vec::with_capacity(alloc, calls.len())?;
    for call in calls {
        let response = response_to(
            alloc,
            source,
            world,
            uploads,
            created,
            uses,
            responses.as_slice(),
            call,
        )?;
        responses.push(response)?;
    }
    Ok(responses)
}
