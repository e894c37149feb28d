// The arguments that methods share, and the refusals of wrong ones.
ghost use Rattle.std.specs.Prelude.{◌≡◌, map, option_map, option_and_then, IfOk};
ghost use Rattle.serde_json.specs.Find.{as_number};
ghost use Rattle.serde_json.specs.View.{view, items_view};
ghost use Rattle.jmap_arguments.specs.Arguments.{text_at, account_check, count_check, is_among, texts_at, texts_in, whole_at, whole_in, at_least_one, most_at};
ghost use Rattle.jmap_arguments.specs.Outcome.{Agrees, IsJust};
ghost use Rattle.jmap_arguments.specs.declared.method_error.MethodError.TheVariants.{Memory};

use crate::method_error::MethodError;
use serde_json::Value;
use std::alloc::{AllocError, Global};

/// The id of the one account.
pub const ACCOUNT_ID: &str = "a1";

/// The greatest integer that a number of JMAP may be: 2^53 - 1 (RFC 8620 section 1.3).
pub const MAX_WHOLE_NUMBER: i64 = 9_007_199_254_740_991;

/// How many objects a /get may ask.
pub const MAX_OBJECTS_IN_GET: usize = 500;

/// The text at the key, or `InvalidArguments` where there is none.
pub fn text_at<'a>(arguments: &'a Value, key: &str) -> Result<&'a str, MethodError>
    ensures { IsJust (λ text. text.now) result (text_at key.now (view arguments.now)) }
{
    arguments
        .get(key)
        .and_then(Value::as_str)
        .ok_or(MethodError::InvalidArguments)
}

/// `AccountNotFound` exactly where the account isn't the one that there is.
pub fn check_account(account: &str) -> Result<(), MethodError>
    ensures { result ≡ account_check account.now }
{
    if account == ACCOUNT_ID {
        Ok(())
    } else {
        Err(MethodError::AccountNotFound)
    }
}

/// `RequestTooLarge` exactly where more than `MAX_OBJECTS_IN_GET` are asked.
pub fn check_count(count: usize) -> Result<(), MethodError>
    ensures { result ≡ count_check count }
{
    if count > MAX_OBJECTS_IN_GET {
        Err(MethodError::RequestTooLarge)
    } else {
        Ok(())
    }
}

/// The texts of a list, or none where an item is no text.
pub fn texts_in<'a>(
    alloc: Global,
    items: &'a Vec<Value>,
) -> Result<Option<Vec<&'a str>>, AllocError>
    ensures { IfOk result (λ texts. option_map (λ v. map (λ t. t.now) v.items) texts
        ≡ texts_in (items_view items.now.items)) }
{
    let mut texts = Vec::with_capacity(alloc, items.len())?;
    for item in items {
        let Some(text) = item.as_str() else {
            return Ok(None);
        };
        texts.push(text)?;
    }
    Ok(Some(texts))
}

/// Whether one of the texts is this one.
pub fn is_among(name: &str, names: &Vec<&str>) -> bool
    ensures { result ≡ is_among name.now (map (λ t. t.now) names.now.items) }
{
    for other in names {
        if *other == name {
            return true;
        }
    }
    false
}

/// The list of texts at the key, `None` where it is null or isn't there, or `InvalidArguments` where something else is.
pub fn texts_or_null<'a>(
    alloc: Global,
    arguments: &'a Value,
    key: &str,
) -> Result<Option<Vec<&'a str>>, MethodError>
    ensures { Agrees Memory (λ o. option_map (λ v. map (λ t. t.now) v.items) o) result
        (texts_at key.now (view arguments.now)) }
{
    match arguments.get(key) {
        None | Some(Value::Null) => Ok(None),
        Some(Value::Array(items)) => match texts_in(alloc, items)? {
            None => Err(MethodError::InvalidArguments),
            Some(texts) => Ok(Some(texts)),
        },
        Some(_) => Err(MethodError::InvalidArguments),
    }
}

/// An integer, no further from 0 than `MAX_WHOLE_NUMBER` (RFC 8620 section 1.3).
pub fn whole_in(value: &Value) -> Option<i64>
    ensures { result ≡ option_and_then whole_in (as_number (view value.now)) }
{
    let number = value.as_i64()?;
    if -MAX_WHOLE_NUMBER <= number && number <= MAX_WHOLE_NUMBER {
        Some(number)
    } else {
        None
    }
}

/// The integer at the key, no further from 0 than `MAX_WHOLE_NUMBER`, `None` where it is null or isn't there, or `InvalidArguments`
/// where something else is.
pub fn whole_or_null(arguments: &Value, key: &str) -> Result<Option<i64>, MethodError>
    ensures { result ≡ whole_at key.now (view arguments.now) }
{
    match arguments.get(key) {
        None | Some(Value::Null) => Ok(None),
        Some(value) => match whole_in(value) {
            None => Err(MethodError::InvalidArguments),
            Some(number) => Ok(Some(number)),
        },
    }
}

fn at_least_one(number: i64) -> Option<u64>
    ensures { result ≡ at_least_one number }
{
    if number < 1 {
        None
    } else {
        Some(number as u64)
    }
}

/// The integer at the key, from 1 up, `None` where it is null or isn't there, or `InvalidArguments` where something else is.
pub fn most_or_null(arguments: &Value, key: &str) -> Result<Option<u64>, MethodError>
    ensures { result ≡ most_at key.now (view arguments.now) }
{
    match whole_or_null(arguments, key)? {
        None => Ok(None),
        Some(number) => match at_least_one(number) {
            None => Err(MethodError::InvalidArguments),
            Some(most) => Ok(Some(most)),
        },
    }
}
