// What is told of an Email alone (RFC 8621 section 4.1.1); null of other octets.
ghost use Rattle.std.specs.Prelude.{◌≡◌, true, IfOk, OnOk};
ghost use Rattle.std.specs.Option.{option_copied};
ghost use Rattle.std.specs.Str.Lossy.{utf8_lossy};
ghost use Rattle.serde_json.specs.Data.{boolean, no_members, put as put_at};
ghost use Rattle.serde_json.specs.View.{view, members_view};
ghost use Rattle.email_objects.specs.Properties as spec;
ghost use Rattle.json_texts.specs.Texts.{optional_text};

use field_values::utc_value;
use jmap_arguments::{EMAIL_LETTER, MAILBOX_LETTER, THREAD_LETTER, id_text, id_value};
use json_texts::text_value;
use mail_maps::EmailRow;
use octets::Bytes;
use serde_json::{Map, Value, put};
use std::alloc::{AllocError, Global};

/// `id`
pub(crate) fn email_id(alloc: Global, row: Option<&EmailRow>) -> Result<Value, AllocError>
    ensures { IfOk result (λ value. view value ≡ spec.email_id (option_copied row.entry)) }
{
    match row {
        None => Ok(Value::Null),
        Some(row) => id_value(alloc, EMAIL_LETTER, row.number),
    }
}

/// `blobId`
pub(crate) fn blob_id(alloc: Global, id: Option<&[u8]>) -> Result<Value, AllocError>
    ensures { IfOk result (λ value. view value ≡ optional_text (option_copied id.entry)) }
{
    match id {
        None => Ok(Value::Null),
        Some(id) => text_value(alloc, id),
    }
}

/// `threadId`
pub(crate) fn thread_id(alloc: Global, row: Option<&EmailRow>) -> Result<Value, AllocError>
    ensures { IfOk result (λ value. view value ≡ spec.thread_id (option_copied row.entry)) }
{
    match row {
        None => Ok(Value::Null),
        Some(row) => id_value(alloc, THREAD_LETTER, row.thread),
    }
}

/// Puts true at the key.
fn put_true(members: &mut Map<String, Value>, alloc: Global, key: &str) -> Result<(), AllocError>
    ensures { OnOk result (members_view members.new.entries ≡ put_at key.now (boolean true) (members_view members.old.entries)) }
{
    put(members, alloc, key, Value::Bool(true))
}

/// The id of the one Mailbox.
fn mailbox_member(alloc: Global, folder: u64) -> Result<Map<String, Value>, AllocError>
    ensures { IfOk result (λ members. members_view members.entries ≡ spec.mailbox_member folder) }
{
    let mut members = Map::new(alloc);
    put_true(
        &mut members,
        alloc,
        id_text(alloc, MAILBOX_LETTER, folder)?.as_str(),
    )?;
    Ok(members)
}

/// `mailboxIds`
pub(crate) fn mailbox_ids(alloc: Global, row: Option<&EmailRow>) -> Result<Value, AllocError>
    ensures { IfOk result (λ value. view value ≡ spec.mailbox_ids (option_copied row.entry)) }
{
    match row {
        None => Ok(Value::Null),
        Some(row) => Ok(Value::Object(mailbox_member(alloc, row.folder)?)),
    }
}

/// Puts true at the keyword.
fn put_keyword(
    members: &mut Map<String, Value>,
    alloc: Global,
    keyword: &[u8],
) -> Result<(), AllocError>
    ensures { OnOk result (members_view members.new.entries ≡ put_at (utf8_lossy keyword.now) (boolean true) (members_view members.old.entries)) }
{
    put_true(
        members,
        alloc,
        String::from_utf8_lossy(alloc, keyword)?.as_str(),
    )
}

/// Each of these with true.
fn keyword_members(alloc: Global, keywords: &[Bytes]) -> Result<Map<String, Value>, AllocError>
    ensures { IfOk result (λ members. members_view members.entries ≡ spec.with_keywords keywords.now no_members) }
{
    let mut members = Map::new(alloc);
    for keyword in keywords {
        put_keyword(&mut members, alloc, keyword.as_slice())?;
    }
    Ok(members)
}

/// `keywords`
pub fn keywords(alloc: Global, row: Option<&EmailRow>) -> Result<Value, AllocError>
    ensures { IfOk result (λ value. view value ≡ spec.keywords_data (option_copied row.entry)) }
{
    match row {
        None => Ok(Value::Null),
        Some(row) => Ok(Value::Object(keyword_members(alloc, row.keywords.as_slice())?)),
    }
}

/// `receivedAt`
pub(crate) fn received_at(alloc: Global, row: Option<&EmailRow>) -> Result<Value, AllocError>
    ensures { IfOk result (λ value. spec.IsReceivedAt (option_copied row.entry) (view value)) }
{
    match row {
        None => Ok(Value::Null),
        Some(row) => utc_value(alloc, row.received),
    }
}
