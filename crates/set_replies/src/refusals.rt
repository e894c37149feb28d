// Why items were not done, as objects (RFC 8620 section 5.3).
ghost use Rattle.std.specs.Prelude.{◌≡◌, IfOk, map};
ghost use Rattle.serde_json.specs.Data.{string};
ghost use Rattle.serde_json.specs.View.{view};
ghost use Rattle.set_replies.specs.Refusals as spec;
ghost use Rattle.set_replies.specs.Refusals.{refusal_data};

use octets::{Listed, Text};
use serde_json::{Value, json};
use set_jobs::SetError;
use std::alloc::{AllocError, Global};

fn text_values(alloc: Global, texts: &[Text]) -> Result<Vec<Value>, AllocError>
    ensures { IfOk result (λ v. map view v.items ≡ map string texts.now) }
{
    let mut values = Vec::with_capacity(alloc, texts.len())?;
    for text in texts {
        values.push(Value::try_from_str(alloc, text.as_str())?)?;
    }
    Ok(values)
}

fn refusal_with(alloc: Global, name: &str) -> Result<Value, AllocError>
    ensures { IfOk result (λ value. view value ≡ spec.refusal_with name.now) }
{
    json!(in alloc; { "type": name })
}

fn wrong_properties(alloc: Global, properties: &Listed<Text>) -> Result<Value, AllocError>
    ensures { IfOk result (λ value. view value ≡ spec.wrong_properties_data properties.now) }
{
    let properties = text_values(alloc, properties.as_slice())?;
    json!(in alloc; {
        "properties": Value::Array(properties),
        "type": "invalidProperties",
    })
}

fn missing_blobs(alloc: Global, ids: &Listed<Text>) -> Result<Value, AllocError>
    ensures { IfOk result (λ value. view value ≡ spec.missing_blobs_data ids.now) }
{
    let ids = text_values(alloc, ids.as_slice())?;
    json!(in alloc; {
        "notFound": Value::Array(ids),
        "type": "blobNotFound",
    })
}

/// Why an item was not done, as an object.
pub(crate) fn refusal_value(alloc: Global, error: &SetError) -> Result<Value, AllocError>
    ensures { IfOk result (λ value. view value ≡ refusal_data error.now) }
{
    match error {
        SetError::Forbidden => refusal_with(alloc, "forbidden"),
        SetError::OverQuota => refusal_with(alloc, "overQuota"),
        SetError::TooLarge => refusal_with(alloc, "tooLarge"),
        SetError::NotFound => refusal_with(alloc, "notFound"),
        SetError::InvalidPatch => refusal_with(alloc, "invalidPatch"),
        SetError::InvalidProperties { properties } => wrong_properties(alloc, properties),
        SetError::BlobNotFound { ids } => missing_blobs(alloc, ids),
        SetError::TooManyMailboxes => refusal_with(alloc, "tooManyMailboxes"),
        SetError::MailboxHasChild => refusal_with(alloc, "mailboxHasChild"),
        SetError::MailboxHasEmail => refusal_with(alloc, "mailboxHasEmail"),
    }
}
