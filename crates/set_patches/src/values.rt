// When two values are one.
ghost use Rattle.std.specs.Prelude.{◌≡◌};
ghost use Rattle.serde_json.specs.View.{view, items_view, members_view};
ghost use Rattle.set_patches.specs.Values.{same_data, same_items, same_members};

use serde_json::{Map, Value};

/// Whether two values are one: of one kind, with the same parts. No number that isn't whole is one with another.
#[cycle(same)]
pub fn same_value(one: &Value, other: &Value) -> bool
    ensures { result ≡ same_data (view one.now) (view other.now) }
{
    match one {
        Value::Null => other.is_null(),
        Value::Bool(truth) => other.as_bool() == Some(*truth),
        Value::Number(number) => match other {
            Value::Number(with) => !number.is_f64() && *number == *with,
            _ => false,
        },
        Value::String(text) => other.as_str() == Some(text.as_str()),
        Value::Array(items) => match other {
            Value::Array(with) => same_items_of(items, with),
            _ => false,
        },
        Value::Object(members) => match other {
            Value::Object(with) => same_members_of(members, with),
            _ => false,
        },
    }
}

#[cycle(same)]
fn same_items_of(items: &Vec<Value>, others: &Vec<Value>) -> bool
    ensures { result ≡ same_items (items_view items.now.items) (items_view others.now.items) }
{
    if items.len() != others.len() {
        return false;
    }
    for (item, other) in items.iter().zip(others.iter()) {
        if !same_value(item, other) {
            return false;
        }
    }
    true
}

#[cycle(same)]
fn same_members_of(members: &Map<String, Value>, others: &Map<String, Value>) -> bool
    ensures { result ≡ same_members (members_view members.now.entries) (members_view others.now.entries) }
{
    if members.len() != others.len() {
        return false;
    }
    for ((key, value), (with, other)) in members.iter().zip(others.iter()) {
        if key.as_str() != with.as_str() || !same_value(value, other) {
            return false;
        }
    }
    true
}
