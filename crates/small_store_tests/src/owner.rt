// What the store's owner does.
use crate::written::written;
use small_store::StoreMachine;
use std::alloc::{AllocError, Global};
use test_rows::{first_number, first_word, octets_of};

/// When every message came: 2 January 1970, 00:00:00 UTC.
pub(crate) const DATE: i64 = 86_400;

/// The longest message that is delivered.
const MAX_MESSAGE_OCTETS: usize = 1_000_000;

/// Delivers the message to the folder; false too where it is longer than `MAX_MESSAGE_OCTETS`.
pub(crate) fn deliver(
    store: &mut StoreMachine,
    folder: &[u8],
    message: &[u8],
) -> Result<bool, AllocError> {
    if MAX_MESSAGE_OCTETS < message.len() {
        return Ok(false);
    }
    store.deliver(folder, message, DATE)
}

/// Delivers what the text says: FOLDER MESSAGE.
fn deliver_text(alloc: Global, store: &mut StoreMachine, text: &str) -> Result<bool, AllocError> {
    let (folder, message) = first_word(text);
    let folder = octets_of(alloc, folder)?;
    let message = written(alloc, message)?;
    deliver(store, &folder, &message)
}

/// Makes the call of the word, and adds what it answers.
pub(crate) fn do_call(
    alloc: Global,
    store: &mut StoreMachine,
    word: &str,
    text: &str,
    out: &mut String,
) -> Result<(), AllocError> {
    let (number, _) = first_number(text);
    let at = usize::try_from(number).unwrap_or(0);
    let done = match word {
        "deliver" => deliver_text(alloc, store, text)?,
        "toggle" => store.toggle_seen(at)?,
        "shift" => store.shift(at)?,
        "expunge" => store.expunge(at)?,
        _ => return writeln!(out, "no row: {word}"),
    };
    writeln!(out, "{word}: {done}")
}
