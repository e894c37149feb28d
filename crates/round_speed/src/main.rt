//! What rounds cost. `round_speed HOST:PORT USER` connects to a store, with the password of the environment's
//! `JMAPGATE_PASSWORD`, and does two rounds over one mirror, in the second of which nothing changed. `round_speed MESSAGES` does
//! the same over a store in memory, with headers of 3,000 octets, and reads the same octets without a look at them first.
#![tactic(auto)]

mod made;
mod store_octets;

use gate_host::{Host, HostWorld, StandardFront};
use gate_world::{Link, Secrets, Unread};
use imap_client::Client;
use made::MadeLink;
use octets::{Bytes, Text};
use process_watch::Watch;
use std::alloc::{AllocError, Global};
use std::env;
use std::env::VarError;
use store_octets::two_rounds;
use told_mail::Mirror;

/// How many messages a mirror has, and how many octets of headers.
fn counted(mirror: &Mirror) -> (usize, usize) {
    let mut messages: usize = 0;
    let mut octets: usize = 0;
    for held in mirror.folders() {
        for message in held.messages.as_slice() {
            messages = messages.saturating_add(1);
            octets = octets.saturating_add(message.header.as_slice().len());
        }
    }
    (messages, octets)
}

/// Connects, and does two rounds.
fn rounds<W: Link + Secrets>(
    rt: &HostRuntime,
    world: &mut W,
    user: &[u8],
) -> Result<(), anyhow::Error> {
    let mut client = Client::new(rt.alloc());
    let mut mirror = Mirror::new(rt.alloc());
    let connected = client.connect(world, user);
    println!(rt; "connect: {connected:?}")?;
    for round in ["first round", "second round"] {
        if client.alive() {
            let watch = Watch::start(rt);
            let done = client.round(world, &mut mirror);
            watch.say(rt, round);
            let (messages, octets) = counted(&mirror);
            let folders = mirror.folders().len();
            println!(rt;
                "{done:?}: {folders} folders, {messages} messages, {octets} octets of headers"
            )?;
        }
    }
    client.leave(world);
    Ok(())
}

/// Reads this many octets, and looks at none of them.
fn read_plainly<L: Link>(alloc: Global, link: &mut L, count: usize) -> usize {
    let mut room = Unread::new(alloc);
    let mut read: usize = 0;
    for _ in 0..count {
        if count <= read {
            return read;
        }
        match room.fill_from_link(link) {
            Ok(()) => {
                let more = room.as_slice().len();
                room.skip(more);
                read = read.saturating_add(more);
            }
            Err(_) => return read,
        }
    }
    read
}

fn in_memory(rt: &HostRuntime, messages: u32) -> Result<(), anyhow::Error> {
    let octets = two_rounds(rt.alloc(), messages)?;
    let count = octets.len();
    let mut link = MadeLink::new(octets);
    let watch = Watch::start(rt);
    let read = read_plainly(rt.alloc(), &mut link, count);
    watch.say(rt, "plain reader");
    println!(rt; "{read} octets")?;
    link.rewind();
    rounds(rt, &mut link, b"alice")
}

fn over_tcp(rt: HostRuntime, store: String, user: String) -> Result<(), anyhow::Error> {
    let password = match env::var(&rt, "JMAPGATE_PASSWORD") {
        Ok(text) => Bytes::from_vec(text.into_bytes())?,
        Err(VarError::OutOfMemory) => return Err(anyhow::Error::from(AllocError)),
        Err(_) => Bytes::copy_of(rt.alloc(), b"")?,
    };
    let token = Bytes::copy_of(rt.alloc(), b"")?;
    let front = StandardFront::new(rt.input(), rt.output());
    let mut world = HostWorld::new(rt, Text::from_string(store), front, password, token);
    rounds(&rt, &mut world, user.as_bytes())
}

fn main(rt: HostRuntime) -> Result<(), anyhow::Error> {
    let mut words = env::args(&rt)?;
    let _ = words.next();
    match (words.next(), words.next()) {
        (Some(store), Some(user)) => over_tcp(rt, store, user),
        (Some(messages), None) => in_memory(&rt, messages.parse::<u32>().unwrap_or(0)),
        _ => {
            println!(rt; "usage: round_speed HOST:PORT USER, or round_speed MESSAGES")?;
            Ok(())
        }
    }
}
