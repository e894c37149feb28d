// What paths lead to, counted in place.
ghost use Rattle.std.specs.Prelude.{◌≡◌, suc, ◌+◌, ◌≤◌, IfOk, length, is_some};
ghost use Rattle.serde_json.specs.View.{view, items_view};
ghost use Rattle.result_references.specs.References.{mapped, at_segments, octets_of_path};
ghost use Rattle.result_references.specs.References as spec;
ghost use Rattle.result_references.specs.reading.Counting.{Counts};
ghost use Rattle.result_references.specs.reading.Counting as counting;
ghost use Rattle.result_references.specs.reading.Reaching.{IsPointer, segments_in};
ghost use Rattle.result_references.specs.declared.counted_octets.TheConstants.{MAX_RESOLVED_OCTETS};

use crate::counted_octets::{in_brackets, items_octets, more, value_octets};
use crate::path::{Reached, follow};
use serde_json::Value;
use std::alloc::{AllocError, Global};

/// A value that a `*` walks over, with the octets of the path behind it: so many a walk of that path looks at.
#[tactic(auto, using(crate::proofs::Reached::octets_path))]
fn item_octets(behind: &str, so_far: usize) -> Option<usize>
    requires { so_far ≤ MAX_RESOLVED_OCTETS }
    ensures { Counts result (so_far + suc (octets_of_path (segments_in behind.now))) }
{
    let total = more(so_far, 1)?;
    more(total, behind.len())
}

#[cycle(walks)]
fn walked_in(
    alloc: Global,
    items: &Vec<Value>,
    path: &str,
    so_far: usize,
) -> Result<Option<usize>, AllocError>
    requires pointer { IsPointer path.now }
    requires within { so_far ≤ MAX_RESOLVED_OCTETS }
    ensures { IfOk result (λ o. Counts o (so_far + spec.walked_in (octets_of_path (segments_in path.now))
        (spec.walked_at (segments_in path.now)) (items_view items.now.items))) }
{
    let mut total = so_far;
    for item in items {
        let Some(before) = item_octets(path, total) else {
            return Ok(None);
        };
        match walked_at(alloc, item, path, before)? {
            None => return Ok(None),
            Some(walked) => total = walked,
        }
    }
    Ok(Some(total))
}

/// What `*` walks over.
#[cycle(walks)]
pub(crate) fn walked_at(
    alloc: Global,
    value: &Value,
    path: &str,
    so_far: usize,
) -> Result<Option<usize>, AllocError>
    requires pointer { IsPointer path.now }
    requires within { so_far ≤ MAX_RESOLVED_OCTETS }
    ensures { IfOk result (λ o. Counts o (so_far + spec.walked_at (segments_in path.now) (view value.now))) }
{
    match follow(alloc, value, path)? {
        None => Ok(Some(so_far)),
        Some(Reached::End(_)) => Ok(Some(so_far)),
        Some(Reached::Star(star)) => walked_in(alloc, star.items, star.behind, so_far),
    }
}

#[cycle(stands)]
fn stands_in_each(alloc: Global, items: &Vec<Value>, path: &str) -> Result<bool, AllocError>
    requires { IsPointer path.now }
    ensures { IfOk result (λ b. b
        ≡ is_some (mapped (at_segments (segments_in path.now)) (items_view items.now.items))) }
{
    for item in items {
        if !stands_at(alloc, item, path)? {
            return Ok(false);
        }
    }
    Ok(true)
}

/// Whether something stands at the path.
#[cycle(stands)]
pub(crate) fn stands_at(alloc: Global, value: &Value, path: &str) -> Result<bool, AllocError>
    requires { IsPointer path.now }
    ensures { IfOk result (λ b. b ≡ is_some (at_segments (segments_in path.now) (view value.now))) }
{
    match follow(alloc, value, path)? {
        None => Ok(false),
        Some(Reached::End(_)) => Ok(true),
        Some(Reached::Star(star)) => stands_in_each(alloc, star.items, star.behind),
    }
}

/// The text of the value with a comma, or those of the items of an array.
fn one_or_items(value: &Value, so_far: usize) -> Option<usize>
    requires { so_far ≤ MAX_RESOLVED_OCTETS }
    ensures { Counts result (so_far + counting.joined_octets (view value.now)) }
{
    if let Some(items) = value.as_array() {
        return items_octets(items, so_far);
    }
    let before = more(so_far, 1)?;
    value_octets(value, before)
}

#[cycle(joined)]
fn joined_in(
    alloc: Global,
    items: &Vec<Value>,
    path: &str,
    so_far: usize,
) -> Result<Option<usize>, AllocError>
    requires pointer { IsPointer path.now }
    requires within { so_far ≤ MAX_RESOLVED_OCTETS }
    ensures { IfOk result (λ o. Counts o (so_far
        + counting.joined_in (counting.joined_at (segments_in path.now)) (items_view items.now.items))) }
{
    let mut total = so_far;
    for item in items {
        match joined_at(alloc, item, path, total)? {
            None => return Ok(None),
            Some(joined) => total = joined,
        }
    }
    Ok(Some(total))
}

/// The texts of what stands at the path in an item that a `*` walks over, each with a comma.
#[cycle(joined)]
fn joined_at(
    alloc: Global,
    value: &Value,
    path: &str,
    so_far: usize,
) -> Result<Option<usize>, AllocError>
    requires pointer { IsPointer path.now }
    requires within { so_far ≤ MAX_RESOLVED_OCTETS }
    ensures { IfOk result (λ o. Counts o (so_far + counting.joined_at (segments_in path.now) (view value.now))) }
{
    match follow(alloc, value, path)? {
        None => Ok(Some(so_far)),
        Some(Reached::End(found)) => Ok(one_or_items(found, so_far)),
        Some(Reached::Star(star)) => joined_in(alloc, star.items, star.behind, so_far),
    }
}

/// The text of what stands at the path.
pub(crate) fn octets_at(
    alloc: Global,
    value: &Value,
    path: &str,
    so_far: usize,
) -> Result<Option<usize>, AllocError>
    requires pointer { IsPointer path.now }
    requires within { so_far ≤ MAX_RESOLVED_OCTETS }
    ensures { IfOk result (λ o. Counts o (so_far + counting.octets_at (segments_in path.now) (view value.now))) }
{
    match follow(alloc, value, path)? {
        None => Ok(Some(so_far)),
        Some(Reached::End(found)) => Ok(value_octets(found, so_far)),
        Some(Reached::Star(star)) => {
            let joined = joined_in(alloc, star.items, star.behind, so_far)?;
            Ok(in_brackets(so_far, joined))
        }
    }
}
