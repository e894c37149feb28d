// Copies of what stands at paths.
ghost use Rattle.std.specs.Prelude.{◌≡◌, Some, None, IfOk, IfErr, OnOk, option_map};
ghost use Rattle.serde_json.specs.Data.{array, item, no_items};
ghost use Rattle.serde_json.specs.Find.{as_array};
ghost use Rattle.serde_json.specs.View.{view, items_view};
ghost use Rattle.result_references.specs.References.{items_append, joined, mapped};
ghost use Rattle.result_references.specs.References as spec;
ghost use Rattle.result_references.specs.reading.Reaching.{IsPointer, segments_in};

use crate::path::{Reached, follow};
use serde_json::Value;
use std::alloc::{AllocError, Global};

/// The items of an array, or the value itself.
fn items_of(value: Value) -> Result<Vec<Value>, Value>
    ensures array { IfOk result (λ v. as_array (view value) ≡ Some (items_view v.items)) }
    ensures other { IfErr result (λ other. (as_array (view other) ≡ None) × (view other ≡ view value)) }
{
    match value {
        Value::Array(items) => Ok(items),
        other => Err(other),
    }
}

/// Adds the value, or the items of an array.
fn join(found: &mut Vec<Value>, value: Value) -> Result<(), AllocError>
    ensures { OnOk result (items_view found.new.items
        ≡ items_append (items_view found.old.items) (joined (view value) no_items)) }
{
    match items_of(value) {
        Ok(items) => append(found, items),
        Err(other) => push_value(found, other),
    }
}

fn push_value(found: &mut Vec<Value>, value: Value) -> Result<(), AllocError>
    ensures { OnOk result (items_view found.new.items
        ≡ items_append (items_view found.old.items) (item (view value) no_items)) }
{
    found.push(value)?;
    Ok(())
}

fn append(found: &mut Vec<Value>, mut items: Vec<Value>) -> Result<(), AllocError>
    ensures { OnOk result (items_view found.new.items
        ≡ items_append (items_view found.old.items) (items_view items.items)) }
{
    found.append(&mut items)
}

/// The array of what stands at the path in each item, joined by one level.
#[cycle(path)]
fn at_each(alloc: Global, items: &Vec<Value>, path: &str) -> Result<Option<Value>, AllocError>
    requires { IsPointer path.now }
    ensures { IfOk result (λ o. option_map view o
        ≡ option_map array (mapped (spec.at_segments (segments_in path.now)) (items_view items.now.items))) }
{
    let mut found = Vec::new(alloc);
    for item in items {
        let Some(value) = copy_at(alloc, item, path)? else {
            return Ok(None);
        };
        join(&mut found, value)?;
    }
    Ok(Some(Value::Array(found)))
}

/// A copy of what stands at the path (RFC 8620 section 3.7), or none where nothing does.
#[cycle(path)]
pub(crate) fn copy_at(alloc: Global, value: &Value, path: &str) -> Result<Option<Value>, AllocError>
    requires { IsPointer path.now }
    ensures { IfOk result (λ o. option_map view o
        ≡ spec.at_segments (segments_in path.now) (view value.now)) }
{
    match follow(alloc, value, path)? {
        None => Ok(None),
        Some(Reached::End(found)) => Ok(Some(found.clone()?)),
        Some(Reached::Star(star)) => at_each(alloc, star.items, star.behind),
    }
}
