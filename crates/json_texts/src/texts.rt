// Octets as texts of JSON.
ghost use Rattle.std.specs.Prelude.{◌≡◌, IfOk};
ghost use Rattle.serde_json.specs.View.{view};
ghost use Rattle.json_texts.specs.Texts.{text_data, optional_text};

use octets::Bytes;
use serde_json::Value;
use std::alloc::{AllocError, Global};

/// The octets as a text: what isn't UTF-8 is U+FFFD.
pub fn text_value(alloc: Global, octets: &[u8]) -> Result<Value, AllocError>
    ensures { IfOk result (λ v. view v ≡ text_data octets.now) }
{
    Ok(Value::String(String::from_utf8_lossy(alloc, octets)?))
}

/// The same of octets that aren't needed any more. They aren't copied where they are UTF-8.
pub fn owned_text_value(alloc: Global, octets: Vec<u8>) -> Result<Value, AllocError>
    ensures { IfOk result (λ v. view v ≡ text_data octets.items) }
{
    match String::from_utf8(octets) {
        Ok(text) => Ok(Value::String(text)),
        Err(error) => text_value(alloc, error.into_bytes().as_slice()),
    }
}

/// The same, and null where there is none.
pub fn optional_text_value(alloc: Global, text: &Option<Bytes>) -> Result<Value, AllocError>
    ensures { IfOk result (λ v. view v ≡ optional_text text.now) }
{
    match text {
        None => Ok(Value::Null),
        Some(octets) => text_value(alloc, octets.as_slice()),
    }
}
