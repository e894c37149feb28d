// Rows: a world is made and called, and what it told is added.
use crate::calls::{call, call_steadily};
use crate::scripts::script_of;
use gate_world::{Event, Link, Secrets, send_all, write_all};
use octets::Bytes;
use scripted_world::{Script, ScriptWorld, SteadyWorld};
use std::alloc::{AllocError, Global};
use test_rows::first_word;

/// Adds the world's secrets, the events that it told, and the batches that it holds, where there are any.
fn put_told<W: Secrets>(
    world: &W,
    events: Option<&[Event]>,
    held: &[Bytes],
    out: &mut String,
) -> Result<(), AllocError> {
    let (password, token) = (world.password(), world.token());
    match events {
        Some(events) => write!(out, "{password:?} {token:?} {events:?}")?,
        None => write!(out, "{password:?} {token:?} no tape")?,
    }
    if !held.is_empty() {
        write!(out, " held {held:?}")?;
    }
    writeln!(out)
}

fn put_scripted(
    alloc: Global,
    script: Script,
    calls: &str,
    out: &mut String,
) -> Result<(), AllocError> {
    let mut world = ScriptWorld::new(alloc, script);
    for letter in calls.as_bytes() {
        let _ = call(&mut world, *letter);
    }
    put_told(&world, world.events(), world.held(), out)
}

fn put_steady(
    alloc: Global,
    script: Script,
    calls: &str,
    out: &mut String,
) -> Result<(), AllocError> {
    let mut world = SteadyWorld::new(alloc, script);
    for letter in calls.as_bytes() {
        call_steadily(&mut world, *letter);
    }
    put_told(&world, world.events(), world.held(), out)
}

/// Sends or writes all of each text, and adds whether it was taken.
fn put_all(
    alloc: Global,
    script: Script,
    word: &str,
    texts: &str,
    out: &mut String,
) -> Result<(), AllocError> {
    let mut world = ScriptWorld::new(alloc, script);
    let _ = call(&mut world, if word == "sent" { b'-' } else { b'd' });
    for text in texts.split('|') {
        let taken = match word {
            "sent" => send_all(&mut world, text.as_bytes()),
            _ => write_all(&mut world, text.as_bytes()),
        };
        write!(out, "{} ", taken.is_ok())?;
    }
    put_told(&world, world.events(), world.held(), out)
}

/// Does what a line says, and adds what comes of it.
pub(crate) fn take(
    alloc: Global,
    given: &str,
    word: &str,
    rest: &str,
    out: &mut String,
) -> Result<(), AllocError> {
    let (calls, words) = first_word(rest);
    let script = script_of(alloc, given, words)?;
    write!(out, "{calls} -> ")?;
    match word {
        "scripted" => put_scripted(alloc, script, calls, out),
        "steady" => put_steady(alloc, script, calls, out),
        _ => put_all(alloc, script, word, calls, out),
    }
}
