// Emails as objects.
use body_parts::ParsedMessage;
use email_objects::{email_object, email_value, parsed_value};
use email_properties::{Defaults, EmailWanted, email_wanted};
use jmap_arguments::MethodError;
use mail_maps::{EmailRow, read_envelope};
use octets::{Bytes, Names};
use serde_json::Value;
use std::alloc::{AllocError, Global};

/// When the Email came: 2 January 2024, 09:00:00 UTC.
const RECEIVED: i64 = 1_704_186_000;

/// The blob id of octets that are parsed: those of a leaf of an Email.
const LEAF_ID: &[u8] = b"r7-2";

fn put_value(alloc: Global, value: &Value, out: &mut String) -> Result<(), AllocError> {
    out.push_str(&value.to_string(alloc)?)
}

/// Adds what stands at the pointer in the object that is shown of a message.
pub(crate) fn put_shown(
    alloc: Global,
    pointer: &str,
    octets: &[u8],
    out: &mut String,
) -> Result<(), AllocError> {
    let object = email_object(alloc, octets)?;
    match object.pointer(pointer) {
        None => out.push('-'),
        Some(value) => put_value(alloc, value, out),
    }
}

fn keywords(alloc: Global) -> Result<Names, AllocError> {
    let mut names = Names::new(alloc);
    names.push(Bytes::copy_of(alloc, b"$flagged")?)?;
    names.push(Bytes::copy_of(alloc, b"$seen")?)?;
    Ok(names)
}

/// Email 7 in Mailbox 3 and Thread 5, with this message.
fn row_of(alloc: Global, octets: &[u8]) -> Result<EmailRow, AllocError> {
    let keywords = keywords(alloc)?;
    let header = Bytes::copy_of(alloc, octets)?;
    let envelope = read_envelope(alloc, octets)?;
    Ok(EmailRow {
        number: 7,
        mark: 9,
        folder: 3,
        uid: 1,
        keywords,
        received: RECEIVED,
        size: octets.len() as u64,
        thread: 5,
        header,
        envelope,
    })
}

/// The object of these octets: of the message of an Email, or of octets that are no Email, with a blob id or without.
fn object_of(
    alloc: Global,
    word: &str,
    octets: &[u8],
    wanted: &EmailWanted<'_>,
) -> Result<Value, AllocError> {
    match word {
        "email" => email_value(alloc, &row_of(alloc, octets)?, Some(octets), wanted),
        "nameless" => parsed_value(alloc, None, &ParsedMessage { octets, id: None }, wanted),
        _ => {
            let id = Some(LEAF_ID);
            parsed_value(alloc, id, &ParsedMessage { octets, id }, wanted)
        }
    }
}

fn defaults_of(word: &str) -> Defaults {
    match word {
        "email" => Defaults::Get,
        _ => Defaults::Parse,
    }
}

/// Adds the object of these octets with what the arguments ask, or why they ask nothing.
fn put_asked(
    alloc: Global,
    word: &str,
    arguments: &Value,
    octets: &[u8],
    out: &mut String,
) -> Result<(), AllocError> {
    match email_wanted(alloc, arguments, defaults_of(word)) {
        Err(MethodError::Memory) => Err(AllocError),
        Err(error) => write!(out, "{error}"),
        Ok(wanted) => put_value(alloc, &object_of(alloc, word, octets, &wanted)?, out),
    }
}

/// The same, where the arguments are JSON.
pub(crate) fn put_object(
    alloc: Global,
    word: &str,
    arguments: &str,
    octets: &[u8],
    out: &mut String,
) -> Result<(), AllocError> {
    match Value::from_str(alloc, arguments) {
        Err(_) => out.push_str("no JSON"),
        Ok(arguments) => put_asked(alloc, word, &arguments, octets, out),
    }
}
