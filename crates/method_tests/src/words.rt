// Words that leave nothing for later rows: names, states, ids and errors.
use crate::properties::{put_email, put_forms, put_header, put_part};
use gate_calls::{method_named, name_needs_mail};
use jmap_arguments::{MethodError, Using, error_arguments, read_state, state_text};
use jmap_core::CreatedIds;
use serde_json::Value;
use std::alloc::{AllocError, Global};
use test_rows::first_word;

const ERRORS: [MethodError; 15] = [
    MethodError::ServerUnavailable,
    MethodError::ServerFail,
    MethodError::ServerPartialFail,
    MethodError::UnknownMethod,
    MethodError::InvalidArguments,
    MethodError::InvalidResultReference,
    MethodError::AccountNotFound,
    MethodError::RequestTooLarge,
    MethodError::StateMismatch,
    MethodError::CannotCalculateChanges,
    MethodError::AnchorNotFound,
    MethodError::UnsupportedFilter,
    MethodError::UnsupportedSort,
    MethodError::TooManyChanges,
    MethodError::Memory,
];

/// Adds how many errors there are, and in a line of its own each of them, and what a client is told of it.
fn put_errors(alloc: Global, out: &mut String) -> Result<(), AllocError> {
    write!(out, "{}", ERRORS.len())?;
    for error in ERRORS.iter() {
        let arguments = error_arguments(alloc, *error)?;
        let text = arguments.to_string(alloc)?;
        write!(out, "\n{error:?} {text}")?;
    }
    Ok(())
}

/// Adds the method of a name for a request that uses one capability, and whether such a call needs the mail.
fn put_method(text: &str, out: &mut String) -> Result<(), AllocError> {
    let (capability, name) = first_word(text);
    let using = Using {
        core: capability == "core",
        mail: capability == "mail",
    };
    let method = method_named(using, name);
    write!(out, "{method:?} {}", name_needs_mail(name))
}

/// The ids of these pairs of a creation id and an id.
fn ids_of(alloc: Global, pairs: &str) -> Result<CreatedIds, AllocError> {
    let mut ids = CreatedIds::new(alloc);
    for pair in pairs.split(' ') {
        let (creation, id) = pair.split_once('=').unwrap_or((pair, ""));
        ids.put(alloc, creation, id)?;
    }
    Ok(ids)
}

/// Adds how many ids these pairs create, and the object that has each.
fn put_created(alloc: Global, pairs: &str, out: &mut String) -> Result<(), AllocError> {
    let ids = ids_of(alloc, pairs)?;
    let text = ids.to_value(alloc)?.to_string(alloc)?;
    write!(out, "{} {text}", ids.len())
}

/// Adds the text of the state that the text is, as it is written.
fn put_state(alloc: Global, text: &str, out: &mut String) -> Result<(), AllocError> {
    match read_state(text) {
        Some(state) => out.push_str(&state_text(alloc, state)?),
        None => out.push('-'),
    }
}

/// Adds what a text is, which stands there as a string of JSON.
fn put_named(alloc: Global, word: &str, text: &str, out: &mut String) -> Result<(), AllocError> {
    let Ok(value) = Value::from_str(alloc, text) else {
        return out.push_str("no JSON");
    };
    let text = value.as_str().unwrap_or("");
    match word {
        "state" => put_state(alloc, text, out),
        "header" => put_header(text, out),
        "forms" => put_forms(text, out),
        "email" => put_email(alloc, text, out),
        "part" => put_part(alloc, text, out),
        _ => out.push_str("no such word"),
    }
}

/// Adds what comes of a word and its text.
pub(crate) fn put(
    alloc: Global,
    word: &str,
    text: &str,
    out: &mut String,
) -> Result<(), AllocError> {
    match word {
        "errors" => put_errors(alloc, out),
        "method" => put_method(text, out),
        "created" => put_created(alloc, text, out),
        _ => put_named(alloc, word, text, out),
    }
}
