// Arguments in which references to earlier responses stand for values.
ghost use Rattle.std.specs.Prelude.{◌≡◌, IfOk, map, option_map};
ghost use Rattle.serde_json.specs.Data.{no_members};
ghost use Rattle.serde_json.specs.View.{view, members_view};
ghost use Rattle.jmap_arguments.specs.Outcome.{Agrees};
ghost use Rattle.result_references.specs.Call.{call_data};
ghost use Rattle.result_references.specs.References.{referring, resolved_arguments};
ghost use Rattle.result_references.specs.References as spec;
ghost use Rattle.jmap_arguments.specs.declared.method_error.MethodError.TheVariants.{Memory};

use crate::call::Call;
use crate::limit::check_limit;
use crate::pointer::copy_at;
use crate::sources::{reference_in, referring, source_of};
use jmap_arguments::MethodError;
use serde_json::{Map, Value, put};
use std::alloc::{AllocError, Global};

/// A member by reference has the form of one, and its name isn't there besides.
fn is_proper(arguments: &Value, key: &str, value: &Value) -> bool
    ensures { result ≡ spec.is_proper (view arguments.now) (referring key.now) (view value.now) }
{
    match referring(key) {
        None => true,
        Some(name) => arguments.get(name).is_none() && reference_in(value).is_some(),
    }
}

fn are_proper(arguments: &Value, members: &Map<String, Value>) -> bool
    ensures { result ≡ spec.are_proper (view arguments.now) (members_view members.now.entries) }
{
    for (key, value) in members.iter() {
        if !is_proper(arguments, key.as_str(), value) {
            return false;
        }
    }
    true
}

/// The name and the value of a member, once its reference is resolved; none where that can't be.
fn resolved_member<'a>(
    alloc: Global,
    earlier: &[Call],
    key: &'a str,
    value: &Value,
) -> Result<Option<(&'a str, Value)>, AllocError>
    ensures { IfOk result (λ o. option_map (λ m. (m.0.now, view m.1)) o
        ≡ spec.resolved_member (map call_data earlier.now) key.now (view value.now) (referring key.now)) }
{
    let Some(name) = referring(key) else {
        return Ok(Some((key, value.clone()?)));
    };
    let Some(source) = source_of(earlier, value) else {
        return Ok(None);
    };
    match copy_at(alloc, source.arguments, source.path)? {
        None => Ok(None),
        Some(found) => Ok(Some((name, found))),
    }
}

/// The members, each reference resolved, or none where one can't be.
fn resolved_all(
    alloc: Global,
    earlier: &[Call],
    members: &Map<String, Value>,
) -> Result<Option<Map<String, Value>>, AllocError>
    ensures { IfOk result (λ o. option_map (λ m. members_view m.entries) o
        ≡ spec.resolved_to (map call_data earlier.now) no_members (members_view members.now.entries)) }
{
    let mut resolved = Map::new(alloc);
    for (key, value) in members.iter() {
        match resolved_member(alloc, earlier, key.as_str(), value)? {
            None => return Ok(None),
            Some((name, found)) => put(&mut resolved, alloc, name, found)?,
        }
    }
    Ok(Some(resolved))
}

/// The arguments with each `#name` as `name` and the value that it refers to in the earlier responses (RFC 8620
/// section 3.7): `InvalidArguments` exactly where a name is there both ways or a reference hasn't the form of one, else
/// `InvalidResultReference` exactly where one can't be resolved, else `RequestTooLarge` exactly where there is a
/// reference and the arguments resolved, with what `*` walks over, are more than `MAX_RESOLVED_OCTETS`; that comes first
/// where what `*` walks over is more by itself.
pub fn resolve(alloc: Global, arguments: &Value, earlier: &[Call]) -> Result<Value, MethodError>
    ensures { Agrees Memory view result
        (resolved_arguments (map call_data earlier.now) (view arguments.now)) }
{
    let Some(members) = arguments.as_object() else {
        return Ok(arguments.clone()?);
    };
    if !are_proper(arguments, members) {
        return Err(MethodError::InvalidArguments);
    }
    check_limit(alloc, earlier, members)?;
    match resolved_all(alloc, earlier, members)? {
        None => Err(MethodError::InvalidResultReference),
        Some(resolved) => Ok(Value::Object(resolved)),
    }
}
