// Clients, one after another.
use crate::written::{put_told, written};
use gate_world::Event;
use scripted_world::{Script, ScriptWorld};
use small_store::StoreMachine;
use std::alloc::{AllocError, Global};
use store_sessions::serve_sessions;
use test_rows::first_number;

/// Adds who it was, and the octets.
fn put_line(alloc: Global, who: &str, octets: &[u8], out: &mut String) -> Result<(), AllocError> {
    write!(out, "{who}: ")?;
    put_told(alloc, octets, "|", out)?;
    out.push('\n')
}

/// Adds an event: C is a client, S the store.
fn put_event(alloc: Global, event: &Event, out: &mut String) -> Result<(), AllocError> {
    match event {
        Event::ClientGave(octets) => put_line(alloc, "C", octets.as_slice(), out),
        Event::ClientTook(octets) => put_line(alloc, "S", octets.as_slice(), out),
        other => writeln!(out, "{other:?}"),
    }
}

/// The script of clients that give these octets, with `&` between two, at most `piece` octets at once; the call of the number fails.
fn script_of(
    alloc: Global,
    piece: usize,
    failing: u64,
    clients: &str,
) -> Result<Script, AllocError> {
    let mut script = Script::new(alloc)?.in_pieces(piece).failing(failing)?;
    for client in clients.split('&') {
        script = script.with_client(&written(alloc, client)?)?;
    }
    Ok(script)
}

/// Serves clients of the store, and adds what was given and taken, and the status: MOST PIECE FAILING CLIENTS.
pub(crate) fn serve(
    alloc: Global,
    store: &mut StoreMachine,
    text: &str,
    out: &mut String,
) -> Result<(), AllocError> {
    let (most, text) = first_number(text);
    let (piece, text) = first_number(text);
    let (failing, clients) = first_number(text);
    let piece = usize::try_from(piece).unwrap_or(1);
    let script = script_of(alloc, piece, failing, clients)?;
    let mut world = ScriptWorld::new(alloc, script);
    store.is_tellable();
    let status = serve_sessions(alloc, store, &mut world, most);
    for event in world.events().unwrap_or(&[]) {
        put_event(alloc, event, out)?;
    }
    writeln!(out, "status {status}")
}
