// Core/echo.
ghost use Rattle.std.specs.Prelude.{◌≡◌};
ghost use Rattle.serde_json.specs.View.{view, items_view, members_view};
ghost use Rattle.serde_json.specs.Written.{has_float, items_have_float, members_have_float};
ghost use Rattle.jmap_arguments.specs.Echo.{echoed};
ghost use Rattle.jmap_arguments.specs.Outcome.{IsJust};

use crate::method_error::MethodError;
use serde_json::{Map, Value};

/// Whether a number in it, at any depth, is no integer.
#[cycle(fractions)]
pub fn has_fraction(value: &Value) -> bool
    ensures { result ≡ has_float (view value.now) }
{
    match value {
        Value::Null | Value::Bool(_) | Value::String(_) => false,
        Value::Number(number) => number.is_f64(),
        Value::Array(items) => items_have_fraction(items),
        Value::Object(members) => members_have_fraction(members),
    }
}

#[cycle(fractions)]
fn items_have_fraction(items: &Vec<Value>) -> bool
    ensures { result ≡ items_have_float (items_view items.now.items) }
{
    for item in items {
        if has_fraction(item) {
            return true;
        }
    }
    false
}

#[cycle(fractions)]
fn members_have_fraction(members: &Map<String, Value>) -> bool
    ensures { result ≡ members_have_float (members_view members.now.entries) }
{
    for (_key, member) in members.iter() {
        if has_fraction(member) {
            return true;
        }
    }
    false
}

/// Core/echo (RFC 8620 section 4): the arguments as they came, or `InvalidArguments` exactly where a number in them,
/// at any depth, is no integer.
pub fn echo(arguments: Value) -> Result<Value, MethodError>
    ensures { IsJust view result (echoed (view arguments)) }
{
    if has_fraction(&arguments) {
        return Err(MethodError::InvalidArguments);
    }
    Ok(arguments)
}
