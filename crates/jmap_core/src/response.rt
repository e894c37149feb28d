// The response to a request.
ghost use Rattle.std.specs.Prelude.{◌≡◌, IfOk, All, map, string_bytes, option_copied};
ghost use Rattle.serde_json.specs.Data.{array};
ghost use Rattle.serde_json.specs.View.{view, items_of, members_view};
ghost use Rattle.serde_json.specs.Written.{compact_text};
ghost use Rattle.jmap_core.specs.CreatedIds.{id_members};
ghost use Rattle.jmap_core.specs.Response.{answer_data, response_data, IsWhole};
ghost use Rattle.result_references.specs.Call.{call_data};

use crate::created_ids::CreatedIds;
use result_references::Call;
use serde_json::{Map, Value, json, put};
use std::alloc::{AllocError, Global};

fn answer_value(alloc: Global, call: &Call) -> Result<Value, AllocError>
    ensures { IfOk result (λ value. view value ≡ answer_data (call_data call.now)) }
{
    json!(in alloc; [call.name.as_str(), &call.arguments, call.id.as_str()])
}

fn answer_values(alloc: Global, answers: &[Call]) -> Result<Vec<Value>, AllocError>
    ensures { IfOk result (λ v. map view v.items ≡ map answer_data (map call_data answers.now)) }
{
    let mut values = Vec::with_capacity(alloc, answers.len())?;
    for answer in answers {
        values.push(answer_value(alloc, answer)?)?;
    }
    Ok(values)
}

/// A response (RFC 8620 section 3.4) with these method responses and this session state, with `createdIds` exactly
/// where ids are given.
pub fn response_value(
    alloc: Global,
    answers: &[Call],
    created: Option<&CreatedIds>,
    session: &str,
) -> Result<Value, AllocError>
    ensures { IfOk result (λ value. view value
        ≡ response_data (map call_data answers.now) (option_copied created.entry) session.now) }
{
    let values = Value::Array(answer_values(alloc, answers)?);
    match created {
        None => json!(in alloc; {
            "methodResponses": values,
            "sessionState": session,
        }),
        Some(ids) => {
            let ids = ids.to_value(alloc)?;
            json!(in alloc; {
                "createdIds": ids,
                "methodResponses": values,
                "sessionState": session,
            })
        }
    }
}

/// The text of that response, compact, with keys in byte order.
pub fn response_text(
    alloc: Global,
    answers: &[Call],
    created: Option<&CreatedIds>,
    session: &str,
) -> Result<String, AllocError>
    requires { All IsWhole answers.now }
    ensures { IfOk result (λ text. string_bytes text
        ≡ compact_text (response_data (map call_data answers.now) (option_copied created.entry) session.now)) }
{
    let response = response_value(alloc, answers, created, session)?;
    response.to_string(alloc)
}
