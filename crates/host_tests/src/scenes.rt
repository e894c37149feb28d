// The worlds in which scenarios are played.
use crate::desk::Desk;
use crate::peers::Peers;
use crate::scripted::{RoughInput, scripted_of};
use crate::steps::Scenario;
use client_front::{ClientListener, TcpClients, Ticks};
use gate_host::{Clients, HostWorld, ListenerFront, SessionFront, StandardFront, TcpSessions};
use octets::{Bytes, Text};
use std::alloc::Global;
use std::io;
use test_rows::{first_word, octets_of, put_octets};

type StandardClient = StandardFront<RoughInput, Vec<u8>>;

/// A scenario with these clients, and a store of this name, to which the port is put where it ends with a colon.
fn begun<C: Clients>(peers: Peers, store: &str, front: C) -> io::Result<Scenario<C>> {
    let alloc = peers.desk.rt.alloc();
    let store = match store.ends_with(':') {
        true => format!(in alloc; "{store}{}", peers.address.port())?,
        false => format!(in alloc; "{store}")?,
    };
    let password = Bytes::copy_of(alloc, b"pw")?;
    let token = Bytes::copy_of(alloc, b"word")?;
    let world = HostWorld::new(peers.desk, Text::from_string(store), front, password, token);
    Ok(Scenario { world, peers })
}

/// Plays a scenario with the clients of a listener.
fn played<L: ClientListener + Drop, T: Ticks + Drop>(
    peers: Peers,
    listener: Option<L>,
    clock: T,
    steps: &str,
) -> io::Result<String> {
    let front = ListenerFront::new(peers.desk.rt.alloc(), listener, clock)?;
    let mut scenario = begun(peers, "", front)?;
    let mut out = scenario.play(steps)?;
    write!(out, "; faults {}", scenario.world.front.faults)?;
    Ok(out)
}

/// A scenario with a scripted client.
pub(crate) fn scripted(rt: HostRuntime, row: &str, steps: &str) -> io::Result<String> {
    let peers = Peers::listening(Desk { rt, random: None })?;
    let (listener, clock) = scripted_of(&peers, row)?;
    played(peers, Some(listener), clock, steps)
}

/// A scenario with clients over loopback, who come to a listener at this address, or to none where there is no such address.
pub(crate) fn loopback(rt: HostRuntime, address: &str, steps: &str) -> io::Result<String> {
    let mut peers = Peers::listening(Desk { rt, random: None })?;
    let listener = TcpClients::bind(rt.alloc(), &rt, address);
    if let Some(listener) = &listener {
        peers.address.set_port(listener.port().unwrap_or(0));
    }
    played(peers, listener, rt, steps)
}

/// A scenario with clients over loopback that have sessions, who come to a listener at this address, or to none where there is no
/// such address.
pub(crate) fn sessions(rt: HostRuntime, address: &str, steps: &str) -> io::Result<String> {
    let mut peers = Peers::listening(Desk { rt, random: None })?;
    let listener = TcpSessions::bind(&rt, rt, address);
    if let Some(listener) = &listener {
        peers.address.set_port(listener.port().unwrap_or(0));
    }
    let mut scenario = begun(peers, "", SessionFront::new(listener))?;
    let mut out = scenario.play(steps)?;
    write!(out, "; faults {}", scenario.world.front.faults)?;
    if let Some(stream) = &scenario.world.front.current {
        let limits = (stream.read_timeout().ok(), stream.write_timeout().ok());
        write!(out, ", client {limits:?}")?;
    }
    Ok(out)
}

/// The host of these random octets, or of none where they aren't eight, and a listener there.
fn desk_of(rt: HostRuntime, random: &str) -> io::Result<Peers> {
    let octets = octets_of(rt.alloc(), random)?;
    let random = octets.first_chunk::<8>().copied();
    Peers::listening(Desk { rt, random })
}

/// A client on the standard streams, with this input.
fn client_of(alloc: Global, pieces: &str) -> io::Result<StandardClient> {
    let pieces = format!(in alloc; "{pieces}")?;
    let input = RoughInput { pieces, given: 0 };
    Ok(StandardFront::new(input, Vec::new(alloc)))
}

/// Plays a scenario with a client on the standard streams.
fn served(mut scenario: Scenario<StandardClient>, steps: &str) -> io::Result<String> {
    let mut out = scenario.play(steps)?;
    out.push_str("; output ")?;
    put_octets(&mut out, &scenario.world.front.output)?;
    write!(out, ", faults {}", scenario.world.front.faults)?;
    Ok(out)
}

/// A scenario with a client on the standard streams, and a store over loopback: the client's input, the store's name, and the
/// host's random octets.
pub(crate) fn standard(rt: HostRuntime, row: &str, steps: &str) -> io::Result<String> {
    let (pieces, row) = first_word(row);
    let (store, random) = first_word(row);
    let client = client_of(rt.alloc(), pieces)?;
    served(begun(desk_of(rt, random)?, store, client)?, steps)
}
