// What a client asks.
use crate::written::{put_told, written};
use small_store::StoreMachine;
use std::alloc::{AllocError, Global};
use store_commands::{CommandRead, read_command};
use store_sessions::{read_may_be_told, take_turn};

/// Adds what the command of this text is told, its line end left out, a line for each line.
pub(crate) fn ask(
    alloc: Global,
    store: &mut StoreMachine,
    text: &str,
    out: &mut String,
) -> Result<(), AllocError> {
    let mut octets = written(alloc, text)?;
    octets.extend_from_slice(b"\r\n")?;
    store.is_tellable();
    let turn = take_turn(alloc, store, &octets)?;
    put_told(alloc, turn.octets(), "\n", out)
}

/// The same, and adds whether the mail is as it was before.
pub(crate) fn ask_still(
    alloc: Global,
    store: &mut StoreMachine,
    text: &str,
    out: &mut String,
) -> Result<(), AllocError> {
    let before = format!(in alloc; "{:?}", store.folders())?;
    ask(alloc, store, text, out)?;
    let after = format!(in alloc; "{:?}", store.folders())?;
    if before == after {
        out.push_str("(the same mail)\n")
    } else {
        out.push_str("(other mail)\n")
    }
}

/// Adds how many of the octets are read at once, and what the client is told then.
pub(crate) fn put_turn(
    alloc: Global,
    store: &mut StoreMachine,
    text: &str,
    out: &mut String,
) -> Result<(), AllocError> {
    let octets = written(alloc, text)?;
    store.is_tellable();
    let turn = take_turn(alloc, store, &octets)?;
    write!(out, "{}:", turn.length())?;
    put_told(alloc, turn.octets(), "|", out)?;
    out.push('\n')
}

/// Adds how many responses the store gives to the command of these octets, and what the tagged one says.
pub(crate) fn put_response(
    alloc: Global,
    store: &mut StoreMachine,
    text: &str,
    out: &mut String,
) -> Result<(), AllocError> {
    let octets = written(alloc, text)?;
    read_may_be_told();
    let read = read_command(alloc, &octets)?;
    match read {
        CommandRead::Whole { command, .. } => {
            let answer = store.respond(&command)?;
            let count = answer.responses.len();
            writeln!(out, "{count} {:?} {:?}", answer.status, answer.code)
        }
        _ => out.push_str("no command\n"),
    }
}
