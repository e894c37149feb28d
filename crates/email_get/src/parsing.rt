// Email/parse.
ghost use Rattle.std.specs.Prelude.{◌≡◌, ◌++◌, false, Some, IfOk, IfSome, OnOk, codes, map, option_map};
ghost use Rattle.std.specs.Option.{option_copied};
ghost use Rattle.serde_json.specs.Data.{string};
ghost use Rattle.serde_json.specs.View.{view, items_of, members_view};
ghost use Rattle.serde_json.specs.Written.{has_float, items_have_float, members_have_float};
ghost use Rattle.email_objects.specs.EmailObjects.{IsParsedObject};
ghost use Rattle.email_properties.specs.Wanted.{email_asked};
ghost use Rattle.jmap_arguments.specs.Arguments.{texts_at};
ghost use Rattle.jmap_arguments.specs.Outcome.{Agrees};
ghost use Rattle.jmap_arguments.specs.declared.method_error.MethodError.TheVariants.{Memory};
ghost use Rattle.mail_state.specs.History.{MailHistory};
ghost use Rattle.mail_state.specs.State.{IsStateOf};
ghost use Rattle.email_get.specs.Asked.{AsksAndMeets};
ghost use Rattle.email_get.specs.EmailParse as spec;
ghost use Rattle.email_get.specs.EmailParse.{RepliesEmailParse, ShowsBlob, missing_id, parse_asked, parse_data, parse_refused, put_found, texts_there};
ghost use Rattle.email_get.specs.reading.Gathered.{GathersThese};

use crate::blobs::blob_octets;
use crate::refusals::error_of;
use blob_store::BlobStore;
use body_parts::ParsedMessage;
use email_bodies::BodySource;
use email_objects::parsed_value;
use email_properties::{Defaults, EmailWanted, email_wanted};
use jmap_arguments::{
    ACCOUNT_ID, MethodError, check_account, check_count, distinct, text_at, texts_or_null,
};
use mail_state::MailState;
use message_blobs::{BlobId, MAX_LEAVES, ReadBlob, read_blob_id};
use octets::Bytes;
use serde_json::{Map, Value, json, put};
use std::alloc::{AllocError, Global};

/// What a call asks.
#[derive(Drop)]
struct Asked<'a> {
    ids: Vec<&'a str>,
    wanted: EmailWanted<'a>,
}

/// The ids of the blobs, or `InvalidArguments` where there is no list of texts.
fn ids_at<'a>(alloc: Global, arguments: &'a Value) -> Result<Vec<&'a str>, MethodError>
    ensures { Agrees Memory (λ v. map (λ t. t.now) v.items) result (texts_there (texts_at (codes "blobIds") (view arguments.now))) }
{
    match texts_or_null(alloc, arguments, "blobIds")? {
        None => Err(MethodError::InvalidArguments),
        Some(ids) => Ok(ids),
    }
}

/// The checks in order: the arguments' kinds, the account, the count of ids.
fn asked_of<'a>(alloc: Global, arguments: &'a Value) -> Result<Asked<'a>, MethodError>
    ensures { Agrees Memory (λ a. record { ids = map (λ t. t.now) a.ids.items; wanted = email_asked a.wanted }) result
        (parse_asked (view arguments.now)) }
{
    let account = text_at(arguments, "accountId")?;
    let ids = ids_at(alloc, arguments)?;
    let wanted = email_wanted(alloc, arguments, Defaults::Parse)?;
    check_account(account)?;
    check_count(ids.len())?;
    Ok(Asked { ids, wanted })
}

/// The refusal of an Email/parse by its arguments alone, which stands whatever mail there is.
pub fn check_email_parse(alloc: Global, arguments: &Value) -> Result<(), MethodError>
    ensures { Agrees Memory (λ u. u) result (parse_refused (view arguments.now)) }
{
    // (only whether it is refused is told)
    let _asked = asked_of(alloc, arguments)?;
    Ok(())
}

/// The blob id that a message has for its parts, where there is a number left for them.
fn message_id<'a>(blob: &BlobId<'_>, id: &'a str) -> Option<&'a [u8]>
    ensures { option_copied result ≡ spec.message_id blob.now.leaves.items id.now }
{
    if blob.leaves.len() < MAX_LEAVES {
        Some(id.as_bytes())
    } else {
        None
    }
}

/// The message that the octets of a blob are as an object.
fn message_value(
    alloc: Global,
    wanted: &EmailWanted<'_>,
    blob: &BlobId<'_>,
    id: &str,
    octets: &Bytes,
) -> Result<Value, AllocError>
    ensures object { IfOk result (λ value. IsParsedObject (Some id.now) (record { octets = octets.now; id = spec.message_id blob.now.leaves.items id.now })
        (email_asked wanted.now) (view value)) }
    ensures whole { IfOk result (λ value. has_float (view value) ≡ false) }
{
    let message = ParsedMessage {
        octets: octets.as_slice(),
        id: message_id(blob, id),
    };
    parsed_value(alloc, Some(id.as_bytes()), &message, wanted)
}

/// The message that a blob is as an object, where the blob is found. What was read of the last one serves as in `blob_octets`.
fn parsed_blob<W, B: BodySource<W>>(
    alloc: Global,
    state: &MailState,
    blobs: &BlobStore,
    bodies: &mut B,
    world: &mut W,
    last: &mut Option<ReadBlob>,
    wanted: &EmailWanted<'_>,
    id: &str,
) -> Result<Option<Value>, MethodError>
    ensures shows { AsksAndMeets B.answers B.lacks (bodies.old, world.old) (bodies.new, world.new) Memory
        (λ o. record { id = id.now; found = option_map view o }) result
        (ShowsBlob state.now.rows.numbered.rows blobs.now (email_asked wanted.now) id.now) }
    ensures whole { IfOk result (λ o. IfSome o (λ value. has_float (view value) ≡ false)) }
{
    let Some(blob) = read_blob_id(id.as_bytes()) else {
        return Ok(None);
    };
    match blob_octets(alloc, state, blobs, bodies, world, last, &blob) {
        Err(error) => Err(error_of(error)),
        Ok(None) => Ok(None),
        Ok(Some(octets)) => Ok(Some(message_value(alloc, wanted, &blob, id, &octets)?)),
    }
}

/// What blobs that are asked come to.
#[derive(Drop)]
struct Shown {
    /// The messages that are found, by their blob ids.
    parsed: Map<String, Value>,
    /// The ids of blobs that aren't found.
    missing: Vec<Value>,
}

/// Adds what a blob comes to.
fn add_shown(
    shown: &mut Shown,
    alloc: Global,
    id: &str,
    found: Option<Value>,
) -> Result<(), AllocError>
    ensures parsed { OnOk result (members_view shown.new.parsed.entries ≡ put_found id.now (option_map view found) (members_view shown.old.parsed.entries)) }
    ensures missing { OnOk result (map view shown.new.missing.items
        ≡ map view shown.old.missing.items ++ map string (missing_id id.now (option_map view found))) }
{
    match found {
        None => {
            shown.missing.push(Value::try_from_str(alloc, id)?)?;
        }
        Some(object) => put(&mut shown.parsed, alloc, id, object)?,
    }
    Ok(())
}

/// The blobs with these ids, one after another. Those that stand in one message cost one reading of it where they follow one another.
fn show_blobs<W, B: BodySource<W>>(
    alloc: Global,
    state: &MailState,
    blobs: &BlobStore,
    bodies: &mut B,
    world: &mut W,
    wanted: &EmailWanted<'_>,
    ids: &Vec<&str>,
) -> Result<Shown, MethodError>
    ensures shows { AsksAndMeets B.answers B.lacks (bodies.old, world.old) (bodies.new, world.new) Memory
        (λ s. record { parsed = members_view s.parsed.entries; missing = map view s.missing.items }) result
        (GathersThese state.now.rows.numbered.rows blobs.now (email_asked wanted.now) (map (λ t. t.now) ids.now.items)) }
    ensures whole_parsed { IfOk result (λ s. members_have_float (members_view s.parsed.entries) ≡ false) }
    ensures whole_missing { IfOk result (λ s. items_have_float (items_of (map view s.missing.items)) ≡ false) }
{
    let mut shown = Shown {
        parsed: Map::new(alloc),
        missing: Vec::new(alloc),
    };
    let mut last = None;
    for id in ids {
        let found = parsed_blob(alloc, state, blobs, bodies, world, &mut last, wanted, *id)?;
        add_shown(&mut shown, alloc, *id, found)?;
    }
    Ok(shown)
}

/// An object of these members, or null where there are none.
fn object_or_null(members: Map<String, Value>) -> Value
    ensures { view result ≡ spec.object_or_null (members_view members.entries) }
{
    if members.is_empty() {
        Value::Null
    } else {
        Value::Object(members)
    }
}

/// A list of these items, or null where there are none.
fn list_or_null(items: Vec<Value>) -> Value
    ensures { view result ≡ spec.list_or_null (map view items.items) }
{
    if items.is_empty() {
        Value::Null
    } else {
        Value::Array(items)
    }
}

/// The answer, of these blobs.
fn answer_of(alloc: Global, shown: Shown) -> Result<Value, AllocError>
    ensures { IfOk result (λ value. view value ≡ parse_data (members_view shown.parsed.entries) (map view shown.missing.items)) }
{
    let Shown { parsed, missing } = shown;
    json!(in alloc; {
        "accountId": ACCOUNT_ID,
        "notFound": list_or_null(missing),
        "notParsable": Value::Null,
        "parsed": object_or_null(parsed),
    })
}

/// Email/parse (RFC 8621 section 4.9): the messages that the blobs are, each blob once, with the properties asked, and the ids of blobs
/// that there are none of. Any octets are a message. `InvalidArguments`, `AccountNotFound` and `RequestTooLarge` come in this order, the
/// last for more than `MAX_OBJECTS_IN_GET` ids. Bodies are asked as by `find_blob`, for each blob anew, in the order asked;
/// `ServerUnavailable` comes where one doesn't come, and no further one is asked. Of the blobs before, the octets in which the last one begins
/// are held, and the message in them that was read last.
pub fn email_parse<W, B: BodySource<W>>(
    alloc: Global,
    state: &MailState,
    blobs: &BlobStore,
    bodies: &mut B,
    world: &mut W,
    arguments: &Value,
) -> Result<Value, MethodError>
    ensures exact { AsksAndMeets B.answers B.lacks (bodies.old, world.old) (bodies.new, world.new) Memory view result
        (λ asks r. (h : MailHistory) → IsStateOf h state.now → RepliesEmailParse h blobs.now (view arguments.now) asks r) }
    ensures whole { IfOk result (λ value. has_float (view value) ≡ false) }
{
    let Asked { ids, wanted } = asked_of(alloc, arguments)?;
    let once = distinct(alloc, &ids)?;
    let shown = show_blobs(alloc, state, blobs, bodies, world, &wanted, &once)?;
    Ok(answer_of(alloc, shown)?)
}
