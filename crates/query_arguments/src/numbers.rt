// The part of a list that is asked.
ghost use Rattle.std.specs.Prelude.{◌≡◌};
ghost use Rattle.serde_json.specs.View.{view};
ghost use Rattle.jmap_arguments.specs.Outcome.{Agrees};
ghost use Rattle.jmap_arguments.specs.declared.method_error.MethodError.TheVariants.{Memory};
ghost use Rattle.query_arguments.specs.Parts as spec;

use crate::asked::AskedPart;
use crate::values::natural_of;
use jmap_arguments::{MethodError, whole_in};
use octets::Text;
use serde_json::Value;
use std::alloc::Global;

/// The integer at the key, 0 where nothing is there.
fn integer_at(arguments: &Value, key: &str) -> Result<i64, MethodError>
    ensures { result ≡ spec.integer_at key.now (view arguments.now) }
{
    match arguments.get(key) {
        None => Ok(0),
        Some(value) => match whole_in(value) {
            None => Err(MethodError::InvalidArguments),
            Some(number) => Ok(number),
        },
    }
}

fn limit_at(arguments: &Value) -> Result<Option<u64>, MethodError>
    ensures { result ≡ spec.limit_at (view arguments.now) }
{
    match arguments.get("limit") {
        None | Some(Value::Null) => Ok(None),
        Some(value) => match natural_of(value) {
            None => Err(MethodError::InvalidArguments),
            Some(limit) => Ok(Some(limit)),
        },
    }
}

fn anchor_at(alloc: Global, arguments: &Value) -> Result<Option<Text>, MethodError>
    ensures { Agrees Memory (λ o. o) result (spec.anchor_at (view arguments.now)) }
{
    match arguments.get("anchor") {
        None | Some(Value::Null) => Ok(None),
        Some(value) => match value.as_str() {
            None => Err(MethodError::InvalidArguments),
            Some(id) => Ok(Some(Text::copy_of(alloc, id)?)),
        },
    }
}

/// The part of the list that the arguments ask. `InvalidArguments` exactly where one of them has a wrong kind.
pub(crate) fn part_asked(alloc: Global, arguments: &Value) -> Result<AskedPart, MethodError>
    ensures { Agrees Memory (λ p. p) result (spec.part_asked (view arguments.now)) }
{
    let position = integer_at(arguments, "position")?;
    let anchor = anchor_at(alloc, arguments)?;
    let offset = integer_at(arguments, "anchorOffset")?;
    let limit = limit_at(arguments)?;
    Ok(AskedPart {
        position,
        anchor,
        offset,
        limit,
    })
}
