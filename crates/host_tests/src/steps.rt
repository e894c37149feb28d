// What is done in a scenario, step by step.
use crate::desk::Desk;
use crate::peers::Peers;
use gate_host::{Clients, Dialer, Draws, HostWorld};
use gate_world::{Chance, Clock, Console, Front, Link, Secrets};
use std::alloc::AllocError;
use std::net::{Ipv4Addr, SocketAddr, SocketAddrV4};
use std::rc::Rc;
use test_rows::{first_number, octets_of, put_octets};

/// A world, and the other ends of its streams.
#[derive(Drop)]
pub(crate) struct Scenario<C: Clients> {
    pub(crate) world: HostWorld<Desk, C>,
    pub(crate) peers: Peers,
}

/// A step: its word, and what belongs to it, also as a number and as octets.
#[derive(Clone, Copy)]
pub(crate) struct Step<'a> {
    pub(crate) word: &'a str,
    pub(crate) text: &'a str,
    pub(crate) number: u64,
    pub(crate) octets: &'a [u8],
}

pub(crate) fn put_text(octets: &[u8], out: &mut String) -> Result<(), AllocError> {
    out.push(':')?;
    put_octets(out, octets)
}

/// Adds the addresses of a store, and how many they are.
fn put_addresses(desk: &Desk, store: &str, out: &mut String) -> Result<(), AllocError> {
    let mut room = [SocketAddr::V4(SocketAddrV4::new(Ipv4Addr::UNSPECIFIED, 0)); 3];
    let found = desk.addresses(store, &mut room);
    write!(out, ":{found:?} {room:?}")
}

impl<C: Clients> Scenario<C> {
    /// Receives so many octets at most of the client, or of the store. Adds those that came, or how many.
    fn receive(&mut self, step: Step<'_>, out: &mut String) -> Result<(), AllocError> {
        let mut room = [0u8; 16];
        let (place, _) = room.split_at_mut(step.number.min(16) as usize);
        let got = match step.word {
            "read" => self.world.read(place),
            _ => self.world.recv(place),
        };
        match got {
            Ok(count) if step.word != "take" => put_text(room.get(..count).unwrap_or(&room), out),
            _ => write!(out, ":{got:?}"),
        }
    }

    /// Sends so many octets to the client, as long as it is not late. Adds how many were taken.
    fn fill(&mut self, step: Step<'_>, out: &mut String) -> Result<(), AllocError> {
        let octets = vec![in self.peers.desk.rt.alloc(); b'.'; step.number as usize]?;
        let mut taken: usize = 0;
        for _ in 0..octets.len() {
            match self.world.send(octets.get(taken..).unwrap_or(&[])) {
                Ok(count) => taken = taken.saturating_add(count),
                Err(_) => break,
            }
            if taken >= octets.len() {
                break;
            }
        }
        write!(out, ":{taken}")
    }

    /// Adds whether the link's stream is to the listener, and how long its reads and writes wait.
    fn put_stream(&self, out: &mut String) -> Result<(), AllocError> {
        let Some(stream) = &self.world.link.stream else {
            return out.push_str(":none");
        };
        let is_there = stream.peer_addr().ok() == Some(self.peers.address);
        let limits = (stream.read_timeout().ok(), stream.write_timeout().ok());
        write!(out, ":{is_there} {limits:?}")
    }

    /// Does a step of the clients, of the store, of the rest of the world, or of the other ends of streams.
    fn act(&mut self, step: Step<'_>, out: &mut String) -> Result<(), AllocError> {
        match step.word {
            "accept" => write!(out, ":{:?}", self.world.accept()),
            "recv" | "take" | "read" => self.receive(step, out),
            "send" => write!(out, ":{:?}", self.world.send(step.octets)),
            "fill" => self.fill(step, out),
            "finish" => Ok(self.world.finish()),
            "quit" => Ok(self.world.front.end()),
            "dial" => write!(out, ":{:?}", self.world.dial()),
            "write" => write!(out, ":{:?}", self.world.write(step.octets)),
            "hang" => Ok(self.world.hang_up()),
            "faults" => write!(out, ":{}", self.world.link.faults),
            "stream" => self.put_stream(out),
            "word" => write!(out, ":{}", self.world.word()),
            "clock" => write!(out, ":{}", self.world.now()),
            "say" => write!(out, ":{:?}", self.world.say(step.octets)),
            "said" => put_text(self.world.console.stream.as_slice(), out),
            "password" => put_text(self.world.password(), out),
            "token" => put_text(self.world.token(), out),
            "open" => write!(out, ":{}", Rc::strong_count(&self.peers.open) > 1),
            "look" => put_addresses(&self.peers.desk, step.text, out),
            "draws" => {
                let first = self.peers.desk.rt.draw();
                let is_new = first.is_some() && self.peers.desk.rt.draw() != first;
                write!(out, ":{is_new}")
            }
            _ => match self.peers.act(step, out) {
                Ok(()) => Ok(()),
                Err(error) => write!(out, ":{:?}", error.kind()),
            },
        }
    }

    /// Does a step, `WORD` or `WORD=TEXT`, and adds what comes of it.
    fn step(&mut self, step: &str, out: &mut String) -> Result<(), AllocError> {
        write!(out, " {step}")?;
        let (word, text) = step.split_once('=').unwrap_or((step, ""));
        let octets = octets_of(self.peers.desk.rt.alloc(), text)?;
        let step = Step {
            word,
            text,
            number: first_number(text).0,
            octets: &octets,
        };
        self.act(step, out)
    }

    /// Does the steps of a group: what comes of them.
    fn round(&mut self, steps: &str) -> Result<String, AllocError> {
        let mut out = String::new(self.peers.desk.rt.alloc());
        for step in steps.split(',') {
            self.step(step, &mut out)?;
        }
        Ok(out)
    }

    /// Does a group so often, and adds what comes of it first, and how often that comes.
    fn rounds(&mut self, count: u64, steps: &str, out: &mut String) -> Result<(), AllocError> {
        let first = self.round(steps)?;
        let mut same: u64 = 1;
        for _ in 1..count {
            same = same.saturating_add(u64::from(self.round(steps)? == first));
        }
        write!(out, "{first} ({same} of {count})")
    }

    /// Does all groups of a line, `STEP,STEP,..` or `COUNT*STEP,STEP,..`: what comes of them.
    pub(crate) fn play(&mut self, groups: &str) -> Result<String, AllocError> {
        let mut out = String::new(self.peers.desk.rt.alloc());
        for group in groups.split_whitespace() {
            match group.split_once('*') {
                Some((count, steps)) => self.rounds(first_number(count).0, steps, &mut out)?,
                None => out.push_str(&self.round(group)?)?,
            }
        }
        Ok(out)
    }
}
