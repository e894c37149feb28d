// Paths of result references: JSON Pointers (RFC 6901) in which `*` maps over an array. No list of segments is made.
ghost use Rattle.std.specs.Prelude.{◌≡◌, [], ◌∷◌, ◌++◌, ◌≤◌, length, true, MatchOption, IfOk, IfSome, string_bytes, is_some, option_map};
ghost use Rattle.serde_json.specs.Find.{pointer, unescape, as_object};
ghost use Rattle.serde_json.specs.View.{view, items_view};
ghost use Rattle.result_references.specs.References as spec;
ghost use Rattle.result_references.specs.reading.Reaching as reaching;
ghost use Rattle.result_references.specs.reading.Reaching.{IsPointer, IsSegment, Cuts, LeavesLess, reached_data, segments_in};

use serde_json::Value;
use std::alloc::{AllocError, Global};

/// Whether a path is a pointer: empty, or with a `/` at its front.
pub(crate) fn is_pointer(path: &str) -> bool
    ensures { result ≡ is_some (spec.segments_of path.now) }
{
    if path.is_empty() {
        return true;
    }
    after_slash(path).is_some()
}

/// The text after its first slash.
fn after_slash(text: &str) -> Option<&str>
    ensures { option_map (λ t. t.now) result ≡ spec.after_first 47 text.now }
{
    text.strip_prefix('/')
}

/// The first segment of a pointer, a `/` and a token, and the pointer behind it.
fn next_segment(path: &str) -> Option<(&str, &str)>
    requires { IsPointer path.now }
    ensures { MatchOption result (path.now ≡ []) (λ cut. Cuts path.now cut.0.now cut.1.now) }
{
    let Some(after) = after_slash(path) else {
        return None;
    };
    match after.split_once('/') {
        None => Some((path, "")),
        Some((token, _)) => Some(path.split_at(token.len() + 1)),
    }
}

/// The character that stands for what is behind a `~`, and the text behind that (RFC 6901 section 4). A `~` that is no
/// escape stands for itself.
fn behind_tilde(text: &str) -> (&'static str, &str)
    ensures stands { unescape (126 ∷ text.now) ≡ result.0.now ++ unescape result.1.now }
    ensures shorter { length result.1.now ≤ length text.now }
{
    if let Some(behind) = text.strip_prefix('1') {
        return ("/", behind);
    }
    match text.strip_prefix('0') {
        Some(behind) => ("~", behind),
        None => ("~", text),
    }
}

/// The name that a token of a JSON Pointer stands for (RFC 6901 section 4).
pub fn unescaped(alloc: Global, token: &str) -> Result<String, AllocError>
    ensures { IfOk result (λ name. string_bytes name ≡ unescape token.now) }
{
    let mut name = String::new(alloc);
    let mut rest = token;
    'escapes: while let Some((plain, escaped)) = rest.split_once('~') {
        let (stands, behind) = behind_tilde(escaped);
        name.push_str(plain)?;
        name.push_str(stands)?;
        rest = behind;
    }
    name.push_str(rest)?;
    Ok(name)
}

/// The member of an object that a segment names. Its escapes are undone once, and then it is looked up.
fn escaped_member<'v>(
    alloc: Global,
    value: &'v Value,
    segment: &str,
) -> Result<Option<&'v Value>, AllocError>
    requires segment { IsSegment segment.now }
    requires object { is_some (as_object (view value.now)) ≡ true }
    ensures { IfOk result (λ o. option_map (λ v. view v.now) o ≡ pointer segment.now (view value.now)) }
{
    let Some(token) = after_slash(segment) else {
        return Ok(None);
    };
    let name = unescaped(alloc, token)?;
    Ok(value.get(name.as_str()))
}

/// What stands in a value where a segment leads.
fn step<'v>(alloc: Global, value: &'v Value, segment: &str) -> Result<Option<&'v Value>, AllocError>
    requires { IsSegment segment.now }
    ensures { IfOk result (λ o. option_map (λ v. view v.now) o ≡ pointer segment.now (view value.now)) }
{
    if value.is_object() && segment.contains('~') {
        return escaped_member(alloc, value, segment);
    }
    Ok(value.pointer(segment))
}

/// The items of an array at a `*`.
fn starred<'v>(value: &'v Value, segment: &str) -> Option<&'v Vec<Value>>
    ensures { option_map (λ v. items_view v.now.items) result ≡ reaching.starred segment.now (view value.now) }
{
    if segment == "/*" {
        value.as_array()
    } else {
        None
    }
}

/// A `*` over an array.
#[derive(Clone, Copy)]
pub(crate) struct Star<'v, 'p> {
    /// Of the array.
    pub(crate) items: &'v Vec<Value>,
    /// The path behind the `*`, a pointer.
    pub(crate) behind: &'p str,
}

/// Where a path leads first.
#[derive(Clone, Copy)]
pub(crate) enum Reached<'v, 'p> {
    /// To its end, where this value stands.
    End(&'v Value),
    /// To a `*` over an array.
    Star(Star<'v, 'p>),
}

/// Where a path leads first, or none where nothing stands on the way.
pub(crate) fn follow<'v, 'p>(
    alloc: Global,
    value: &'v Value,
    path: &'p str,
) -> Result<Option<Reached<'v, 'p>>, AllocError>
    requires { IsPointer path.now }
    ensures leads { IfOk result (λ o. option_map reached_data o
        ≡ reaching.reached (segments_in path.now) (view value.now)) }
    ensures shorter { IfOk result (λ o. IfSome o (LeavesLess path.now)) }
{
    let mut here = value;
    let mut rest = path;
    'steps: while let Some((segment, behind)) = next_segment(rest) {
        if let Some(items) = starred(here, segment) {
            return Ok(Some(Reached::Star(Star { items, behind })));
        }
        match step(alloc, here, segment)? {
            None => return Ok(None),
            Some(found) => here = found,
        }
        rest = behind;
    }
    Ok(Some(Reached::End(here)))
}
