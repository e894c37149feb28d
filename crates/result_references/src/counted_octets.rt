// The octets of texts of values, counted up to a limit.
ghost use Rattle.std.specs.Prelude.{◌≡◌, ℕ, suc, ◌+◌, ◌≤◌, max, length, IfSome};
ghost use Rattle.json.specs.Print.{escape_byte, escape_letter, quoted};
ghost use Rattle.serde_json.specs.View.{view, number_view, items_view, members_view};
ghost use Rattle.serde_json.specs.Written.{compact_text, number_text};
ghost use Rattle.result_references.specs.reading.Counting.{Counts, item_octets, member_octets};

use itoa::Buffer;
use serde_json::{Map, Number, Value};

/// The most octets that arguments with references come to.
pub const MAX_RESOLVED_OCTETS: usize = 10_000_000;

/// So many more, if they are within the limit.
pub(crate) fn more(so_far: usize, octets: usize) -> Option<usize>
    requires { so_far ≤ MAX_RESOLVED_OCTETS }
    ensures { Counts result (so_far + octets) }
{
    if octets > MAX_RESOLVED_OCTETS - so_far {
        return None;
    }
    Some(so_far + octets)
}

/// The letter of an octet's short escape, or 0 where it has none.
fn letter_of(octet: u8) -> u8
    ensures { result ≡ escape_letter octet }
{
    match octet {
        b'"' | b'\\' => octet,
        8 => b'b',
        12 => b'f',
        b'\n' => b'n',
        b'\r' => b'r',
        b'\t' => b't',
        _ => 0,
    }
}

fn escaped_octets(octet: u8) -> usize
    ensures { result ≡ length (escape_byte octet) }
{
    let letter = letter_of(octet);
    if letter > 0 {
        return 2;
    }
    if octet < 0x20 { 6 } else { 1 }
}

/// A text in its quotation marks.
fn text_octets(text: &str, so_far: usize) -> Option<usize>
    requires { so_far ≤ MAX_RESOLVED_OCTETS }
    ensures { Counts result (so_far + length (quoted text.now)) }
{
    let mut total = more(so_far, 2)?;
    for octet in text.as_bytes() {
        total = more(total, escaped_octets(*octet))?;
    }
    Some(total)
}

/// A member's name, with a colon and a comma.
pub(crate) fn name_octets(name: &str, so_far: usize) -> Option<usize>
    requires { so_far ≤ MAX_RESOLVED_OCTETS }
    ensures { Counts result (so_far + (2 + length (quoted name.now))) }
{
    let before = more(so_far, 2)?;
    text_octets(name, before)
}

/// A number with a fraction has none.
fn number_octets(number: &Number) -> usize
    ensures { result ≡ length (number_text (number_view number.now)) }
{
    let mut buffer = Buffer::new();
    if let Some(n) = number.as_u64() {
        return buffer.format(n).len();
    }
    if let Some(n) = number.as_i64() {
        return buffer.format(n).len();
    }
    0
}

/// With the brackets, of what stands between them, where each part has a comma.
pub(crate) fn in_brackets(before: usize, after: Option<usize>) -> Option<usize>
    requires before { before ≤ MAX_RESOLVED_OCTETS }
    requires after { IfSome after (λ n. n ≤ MAX_RESOLVED_OCTETS) }
    ensures { (inner : ℕ) → Counts after (before + inner)
        → Counts result (before + suc (max 1 inner)) }
{
    let total = after?;
    more(total, if total == before { 2 } else { 1 })
}

/// The text of a value.
#[cycle(octets)]
pub(crate) fn value_octets(value: &Value, so_far: usize) -> Option<usize>
    requires { so_far ≤ MAX_RESOLVED_OCTETS }
    ensures { Counts result (so_far + length (compact_text (view value.now))) }
{
    match value {
        Value::Null | Value::Bool(true) => more(so_far, 4),
        Value::Bool(false) => more(so_far, 5),
        Value::Number(number) => more(so_far, number_octets(number)),
        Value::String(text) => text_octets(text.as_str(), so_far),
        Value::Array(items) => in_brackets(so_far, items_octets(items, so_far)),
        Value::Object(members) => in_brackets(so_far, members_octets(members, so_far)),
    }
}

/// The texts of items, each with a comma.
#[cycle(octets)]
pub(crate) fn items_octets(items: &Vec<Value>, so_far: usize) -> Option<usize>
    requires { so_far ≤ MAX_RESOLVED_OCTETS }
    ensures { Counts result (so_far + item_octets (items_view items.now.items)) }
{
    let mut total = so_far;
    for item in items {
        let before = more(total, 1)?;
        total = value_octets(item, before)?;
    }
    Some(total)
}

/// The texts of members, each with a colon and a comma.
#[cycle(octets)]
fn members_octets(members: &Map<String, Value>, so_far: usize) -> Option<usize>
    requires { so_far ≤ MAX_RESOLVED_OCTETS }
    ensures { Counts result (so_far + member_octets (members_view members.now.entries)) }
{
    let mut total = so_far;
    for (key, member) in members.iter() {
        let named = name_octets(key.as_str(), total)?;
        total = value_octets(member, named)?;
    }
    Some(total)
}
