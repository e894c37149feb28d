// Arguments that have a default and can't be null.
ghost use Rattle.std.specs.Prelude.{◌≡◌, map, option_map};
ghost use Rattle.serde_json.specs.Find.{get};
ghost use Rattle.serde_json.specs.View.{view};
ghost use Rattle.jmap_arguments.specs.Outcome.{Agrees};
ghost use Rattle.jmap_arguments.specs.declared.method_error.MethodError.TheVariants.{Memory};
ghost use Rattle.email_properties.specs.Kinds as spec;

use jmap_arguments::{MethodError, texts_or_null, whole_or_null};
use serde_json::Value;
use std::alloc::Global;

/// `InvalidArguments` exactly where null stands at the key.
fn check_null(arguments: &Value, key: &str) -> Result<(), MethodError>
    ensures { result ≡ spec.null_check (get key.now (view arguments.now)) }
{
    match arguments.get(key) {
        Some(Value::Null) => Err(MethodError::InvalidArguments),
        _ => Ok(()),
    }
}

/// The list of texts at the key, `None` where nothing is there, or `InvalidArguments` where something else is.
pub(crate) fn texts_given<'a>(
    alloc: Global,
    arguments: &'a Value,
    key: &str,
) -> Result<Option<Vec<&'a str>>, MethodError>
    ensures { Agrees Memory (λ o. option_map (λ v. map (λ t. t.now) v.items) o) result
        (spec.texts_given key.now (view arguments.now)) }
{
    check_null(arguments, key)?;
    texts_or_null(alloc, arguments, key)
}

/// The Boolean at the key, false where nothing is there, or `InvalidArguments` where something else is.
pub fn flag_at(arguments: &Value, key: &str) -> Result<bool, MethodError>
    ensures { result ≡ spec.flag_at key.now (view arguments.now) }
{
    match arguments.get(key) {
        None => Ok(false),
        Some(value) => match value.as_bool() {
            None => Err(MethodError::InvalidArguments),
            Some(flag) => Ok(flag),
        },
    }
}

fn at_least_zero(number: i64) -> Option<u64>
    ensures { result ≡ spec.at_least_zero number }
{
    if number < 0 {
        None
    } else {
        Some(number as u64)
    }
}

/// The integer at the key, from 0 up, 0 where nothing is there, or `InvalidArguments` where something else is.
pub(crate) fn natural_at(arguments: &Value, key: &str) -> Result<u64, MethodError>
    ensures { result ≡ spec.natural_at key.now (view arguments.now) }
{
    check_null(arguments, key)?;
    match whole_or_null(arguments, key)? {
        None => Ok(0),
        Some(number) => match at_least_zero(number) {
            None => Err(MethodError::InvalidArguments),
            Some(natural) => Ok(natural),
        },
    }
}
