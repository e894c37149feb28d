// The parts of an Email that is to be created (RFC 8621 sections 4.1.4 and 4.6).
ghost use Rattle.std.specs.Prelude.{◌≡◌, option_map, codes};
ghost use Rattle.serde_json.specs.Find.{get};
ghost use Rattle.serde_json.specs.View.{view, members_view};
ghost use Rattle.draft_reading.specs.Parts as spec;
ghost use Rattle.draft_reading.specs.reading.Views.{part_view, text_view};

use crate::part::Part;
use crate::values::{id_or_null, line_or_null, member, text_or_null};
use serde_json::{Map, Value};
use text_words::same_text;

/// What a part says, of an object.
#[tactic(auto, unfolding(crate::specs::Parts::part_of))]
fn part_of(value: &Value) -> Option<Part<'_>>
    ensures { option_map part_view result ≡ spec.part_of (view value.now) }
{
    let part = text_or_null(value, "partId")?;
    let blob = text_or_null(value, "blobId")?;
    let media = line_or_null(value, "type")?;
    let charset = text_or_null(value, "charset")?;
    let name = line_or_null(value, "name")?;
    let cid = id_or_null(value, "cid")?;
    let disposition = text_or_null(value, "disposition")?;
    Some(Part {
        part,
        blob,
        media,
        charset,
        name,
        cid,
        disposition,
    })
}

/// What a part says of itself.
pub(crate) fn part_in(value: &Value) -> Option<Part<'_>>
    ensures { option_map part_view result ≡ spec.part_in (view value.now) }
{
    let _members = value.as_object()?;
    part_of(value)
}

/// Whether a flag isn't set, or isn't there.
fn is_unset(value: &Value, key: &str) -> bool
    ensures { result ≡ spec.is_unset (get key.now (view value.now)) }
{
    match value.get(key) {
        None => true,
        Some(Value::Bool(set)) => !*set,
        Some(_) => false,
    }
}

/// The text of a body value that is whole, and has no problem of its encoding.
#[tactic(auto, unfolding(crate::specs::Parts::body_value_in))]
pub(crate) fn body_value_in(value: &Value) -> Option<&str>
    ensures { text_view result ≡ spec.body_value_in (view value.now) }
{
    if is_unset(value, "isTruncated") && is_unset(value, "isEncodingProblem") {
        value.get("value").and_then(Value::as_str)
    } else {
        None
    }
}

/// Whether it isn't said to be of another type.
fn is_of_type(wanted: &str, media: Option<&str>) -> bool
    ensures { result ≡ spec.is_of_type wanted.now (text_view media.entry) }
{
    match media {
        None => true,
        Some(media) => same_text(media.as_bytes(), wanted.as_bytes()),
    }
}

/// The value of a part, in the bodyValues of an Email.
#[tactic(auto, unfolding(crate::specs::Parts::value_of_part))]
fn value_of_part<'a>(all: &'a Map<String, Value>, part: Option<&str>) -> Option<&'a str>
    ensures { text_view result ≡ spec.value_of_part (members_view all.now.entries) (text_view part.entry) }
{
    let id = part?;
    let values = member(all, "bodyValues")?;
    body_value_in(values.get(id)?)
}

/// The value of a part that is a text of this type.
fn text_part_in<'a>(all: &'a Map<String, Value>, wanted: &str, value: &Value) -> Option<&'a str>
    ensures { text_view result ≡ spec.text_part_in (members_view all.now.entries) wanted.now (view value.now) }
{
    let part = part_in(value)?;
    if is_of_type(wanted, part.media) {
        value_of_part(all, part.part)
    } else {
        None
    }
}

/// The text of a list of at most one part, of this type.
#[tactic(auto, using(crate::proofs::PartLemmas::one_text, crate::proofs::PartLemmas::more_texts), unfolding(crate::specs::Parts::text_list_in))]
pub(crate) fn text_list_in<'a>(
    all: &'a Map<String, Value>,
    wanted: &str,
    value: &Value,
) -> Option<Option<&'a str>>
    ensures { option_map text_view result ≡ spec.text_list_in (members_view all.now.entries) wanted.now (view value.now) }
{
    let items = value.as_array()?;
    match items.as_slice() {
        [] => Some(None),
        [item] => {
            let text = text_part_in(all, wanted, item)?;
            Some(Some(text))
        }
        [_, _, ..] => None,
    }
}
