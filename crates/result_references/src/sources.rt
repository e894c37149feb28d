// Where references to earlier responses lead.
ghost use Rattle.std.specs.Prelude.{◌≡◌, IfSome, map, option_map, option_and_then};
ghost use Rattle.std.specs.List.{find};
ghost use Rattle.std.specs.Str.{bytes_eq};
ghost use Rattle.serde_json.specs.Find.{as_str, get};
ghost use Rattle.serde_json.specs.View.{view};
ghost use Rattle.result_references.specs.Call.{call_data};
ghost use Rattle.result_references.specs.References as spec;
ghost use Rattle.result_references.specs.reading.Reaching.{IsPointer};
ghost use Rattle.result_references.specs.reading.Referring.{reference_data, source_data};

use crate::call::Call;
use crate::path::is_pointer;
use serde_json::Value;

/// The name after a `#`.
pub(crate) fn referring(key: &str) -> Option<&str>
    ensures { option_map (λ t. t.now) result ≡ spec.referring key.now }
{
    key.strip_prefix('#')
}

/// A reference to an earlier response (RFC 8620 section 3.7).
#[derive(Clone, Copy)]
pub(crate) struct Reference<'a> {
    result_of: &'a str,
    name: &'a str,
    path: &'a str,
}

fn text_at<'a>(value: &'a Value, key: &str) -> Option<&'a str>
    ensures { option_map (λ t. t.now) result ≡ option_and_then as_str (get key.now (view value.now)) }
{
    value.get(key).and_then(Value::as_str)
}

/// The reference that a value is, if it is an object with the three texts.
pub(crate) fn reference_in(value: &Value) -> Option<Reference<'_>>
    ensures { option_map reference_data result ≡ spec.reference_in (view value.now) }
{
    let result_of = text_at(value, "resultOf")?;
    let name = text_at(value, "name")?;
    let path = text_at(value, "path")?;
    Some(Reference {
        result_of,
        name,
        path,
    })
}

/// The first call with the id.
fn call_with<'a>(earlier: &'a [Call], id: &str) -> Option<&'a Call>
    ensures { option_map (λ c. call_data c.now) result
        ≡ find (λ c. bytes_eq c.id id.now) (map call_data earlier.now) }
{
    for call in earlier {
        if call.id.as_str() == id {
            return Some(call);
        }
    }
    None
}

/// The first response with the reference's call id, if it has its name.
fn response_to<'a>(reference: Reference<'_>, earlier: &'a [Call]) -> Option<&'a Call>
    ensures { option_map (λ c. call_data c.now) result
        ≡ spec.response_to (reference_data reference.entry) (map call_data earlier.now) }
{
    let call = call_with(earlier, reference.result_of)?;
    if call.name.as_str() == reference.name {
        Some(call)
    } else {
        None
    }
}

/// What a reference looks into.
#[derive(Clone, Copy)]
pub(crate) struct Source<'a> {
    /// Of the response that it names.
    pub(crate) arguments: &'a Value,
    /// A pointer.
    pub(crate) path: &'a str,
}

fn source_by<'a>(earlier: &'a [Call], reference: Reference<'a>) -> Option<Source<'a>>
    ensures source { option_map source_data result
        ≡ spec.source_by (map call_data earlier.now) (reference_data reference.entry) }
    ensures path { IfSome result (λ source. IsPointer source.path.now) }
{
    let call = response_to(reference, earlier)?;
    if !is_pointer(reference.path) {
        return None;
    }
    Some(Source {
        arguments: &call.arguments,
        path: reference.path,
    })
}

/// What the reference that a value is looks into; none where it is none, names no response or has no path.
pub(crate) fn source_of<'a>(earlier: &'a [Call], value: &'a Value) -> Option<Source<'a>>
    ensures source { option_map source_data result
        ≡ spec.source_of (map call_data earlier.now) (view value.now) }
    ensures path { IfSome result (λ source. IsPointer source.path.now) }
{
    source_by(earlier, reference_in(value)?)
}
