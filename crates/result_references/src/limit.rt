// The limit of arguments with references.
ghost use Rattle.std.specs.Prelude.{◌≡◌, ◌+◌, ◌≤◌, IfOk, map, length, true};
ghost use Rattle.std.specs.BTreeMap.{IsOrdered};
ghost use Rattle.std.specs.String.{string_cmp};
ghost use Rattle.json.specs.Print.{quoted};
ghost use Rattle.serde_json.specs.Data.{object, no_members};
ghost use Rattle.serde_json.specs.View.{view, members_view};
ghost use Rattle.serde_json.specs.Written.{compact_text};
ghost use Rattle.result_references.specs.Call.{call_data};
ghost use Rattle.result_references.specs.References.{are_proper, resolved_if_within, resolved_to};
ghost use Rattle.result_references.specs.References as spec;
ghost use Rattle.result_references.specs.reading.Counting.{Counts, Passes};
ghost use Rattle.result_references.specs.reading.Counting as counting;
ghost use Rattle.result_references.specs.declared.counted_octets.TheConstants.{MAX_RESOLVED_OCTETS};

use crate::call::Call;
use crate::counted_octets::{in_brackets, name_octets, value_octets};
use crate::sources::{referring, source_of};
use crate::walks::{octets_at, stands_at, walked_at};
use jmap_arguments::MethodError;
use serde_json::{Map, Value};
use std::alloc::{AllocError, Global};

fn has_reference(members: &Map<String, Value>) -> bool
    ensures { result ≡ spec.has_reference (members_view members.now.entries) }
{
    for (key, _value) in members.iter() {
        if referring(key.as_str()).is_some() {
            return true;
        }
    }
    false
}

/// What the `*` of a member's reference walk over.
fn walked_for(
    alloc: Global,
    earlier: &[Call],
    key: &str,
    value: &Value,
    so_far: usize,
) -> Result<Option<usize>, AllocError>
    requires { so_far ≤ MAX_RESOLVED_OCTETS }
    ensures { IfOk result (λ o. Counts o
        (so_far + spec.walked_for (map call_data earlier.now) (view value.now) (spec.referring key.now))) }
{
    if referring(key).is_none() {
        return Ok(Some(so_far));
    }
    match source_of(earlier, value) {
        None => Ok(Some(so_far)),
        Some(source) => walked_at(alloc, source.arguments, source.path, so_far),
    }
}

fn walked(
    alloc: Global,
    earlier: &[Call],
    members: &Map<String, Value>,
) -> Result<Option<usize>, AllocError>
    ensures { IfOk result (λ o. Counts o
        (spec.walked (map call_data earlier.now) (members_view members.now.entries))) }
{
    let mut total = 0;
    for (key, value) in members.iter() {
        match walked_for(alloc, earlier, key.as_str(), value, total)? {
            None => return Ok(None),
            Some(walked) => total = walked,
        }
    }
    Ok(Some(total))
}

/// Whether something stands where a member's reference looks.
fn stands_for(alloc: Global, earlier: &[Call], key: &str, value: &Value) -> Result<bool, AllocError>
    ensures { IfOk result (λ b.
        b ≡ counting.stands_for (map call_data earlier.now) (view value.now) (spec.referring key.now)) }
{
    if referring(key).is_none() {
        return Ok(true);
    }
    match source_of(earlier, value) {
        None => Ok(false),
        Some(source) => stands_at(alloc, source.arguments, source.path),
    }
}

fn all_stand(
    alloc: Global,
    earlier: &[Call],
    members: &Map<String, Value>,
) -> Result<bool, AllocError>
    ensures { IfOk result (λ b.
        b ≡ counting.all_stand (map call_data earlier.now) (members_view members.now.entries)) }
{
    for (key, value) in members.iter() {
        if !stands_for(alloc, earlier, key.as_str(), value)? {
            return Ok(false);
        }
    }
    Ok(true)
}

fn member_octets(key: &str, value: &Value, so_far: usize) -> Option<usize>
    requires { so_far ≤ MAX_RESOLVED_OCTETS }
    ensures { Counts result (so_far + (2 + length (quoted key.now) + length (compact_text (view value.now)))) }
{
    let named = name_octets(key, so_far)?;
    value_octets(value, named)
}

/// The text of a member once it is resolved, with a colon and a comma.
fn octets_for(
    alloc: Global,
    earlier: &[Call],
    key: &str,
    value: &Value,
    so_far: usize,
) -> Result<Option<usize>, AllocError>
    requires { so_far ≤ MAX_RESOLVED_OCTETS }
    ensures { IfOk result (λ o. Counts o (so_far
        + counting.octets_for (map call_data earlier.now) key.now (view value.now) (spec.referring key.now))) }
{
    let Some(name) = referring(key) else {
        return Ok(member_octets(key, value, so_far));
    };
    let Some(named) = name_octets(name, so_far) else {
        return Ok(None);
    };
    match source_of(earlier, value) {
        None => Ok(Some(named)),
        Some(source) => octets_at(alloc, source.arguments, source.path, named),
    }
}

/// The texts of the members once they are resolved.
fn resolved_octets(
    alloc: Global,
    earlier: &[Call],
    members: &Map<String, Value>,
    so_far: usize,
) -> Result<Option<usize>, AllocError>
    requires { so_far ≤ MAX_RESOLVED_OCTETS }
    ensures sorted { IfOk result (λ _. IsOrdered string_cmp members.now) }
    ensures counted { IfOk result (λ o. Counts o (so_far
        + counting.resolved_octets (map call_data earlier.now) (members_view members.now.entries))) }
{
    let mut total = so_far;
    for (key, value) in members.iter() {
        match octets_for(alloc, earlier, key.as_str(), value, total)? {
            None => return Ok(None),
            Some(counted) => total = counted,
        }
    }
    Ok(Some(total))
}

/// Whether the arguments can be resolved within the limit: first `RequestTooLarge` where what `*` walks over is more, then
/// `InvalidResultReference` where nothing stands at one, then `RequestTooLarge` where that and the text are more. No value
/// is copied.
pub(crate) fn check_limit(
    alloc: Global,
    earlier: &[Call],
    members: &Map<String, Value>,
) -> Result<(), MethodError>
    requires { are_proper (object (members_view members.now.entries)) (members_view members.now.entries) ≡ true }
    ensures { Passes result (resolved_if_within (map call_data earlier.now) (members_view members.now.entries))
        (resolved_to (map call_data earlier.now) no_members (members_view members.now.entries)) }
{
    if !has_reference(members) {
        return Ok(());
    }
    let Some(walks) = walked(alloc, earlier, members)? else {
        return Err(MethodError::RequestTooLarge);
    };
    if !all_stand(alloc, earlier, members)? {
        return Err(MethodError::InvalidResultReference);
    }
    let octets = resolved_octets(alloc, earlier, members, walks)?;
    if in_brackets(walks, octets).is_none() {
        return Err(MethodError::RequestTooLarge);
    }
    Ok(())
}
