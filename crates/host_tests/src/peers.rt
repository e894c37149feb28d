// The other ends of streams over loopback.
use crate::desk::Desk;
use crate::steps::{Step, put_text};
use std::alloc::AllocError;
use std::io;
use std::io::{ErrorKind, Read, Write};
use std::net::{Net, Shutdown, SocketAddr, TcpListener, TcpStream};
use std::rc::Rc;
use std::time::Duration;

/// The streams to an address, or to a listener there. What is done is done with the one that came last, or that is named.
#[derive(Drop)]
pub(crate) struct Peers {
    pub(crate) desk: Desk,
    pub(crate) address: SocketAddr,
    pub(crate) listener: Option<TcpListener>,
    pub(crate) streams: Vec<TcpStream>,
    pub(crate) at: usize,
    /// How many octets were drained.
    pub(crate) drained: u64,
    /// It has two owners while a scripted client is open.
    pub(crate) open: Rc<u8>,
}

impl Peers {
    /// A listener on a free port of loopback.
    pub(crate) fn listening(desk: Desk) -> io::Result<Peers> {
        let listener = TcpListener::bind(&desk, "127.0.0.1:0")?;
        Ok(Peers {
            desk,
            address: listener.local_addr()?,
            listener: Some(listener),
            streams: Vec::new(desk.rt.alloc()),
            at: 0,
            drained: 0,
            open: Rc::new(desk.rt.alloc(), 0)?,
        })
    }

    /// Holds a stream, whose reads wait for a tenth of a second at most.
    fn hold(&mut self, stream: TcpStream) -> io::Result<()> {
        stream.set_read_timeout(Some(Duration::from_millis(100)))?;
        self.at = self.streams.len();
        self.streams.push(stream)?;
        Ok(())
    }

    /// So many streams to the address.
    fn come(&mut self, count: u64) -> io::Result<()> {
        for _ in 0..count {
            let stream = self.desk.connect(self.address)?;
            self.hold(stream)?;
        }
        Ok(())
    }

    /// The next stream that comes to the listener.
    fn meet(&mut self) -> io::Result<()> {
        let Some(listener) = &self.listener else {
            return Err(io::Error::from(ErrorKind::NotConnected));
        };
        let (stream, _) = listener.accept()?;
        self.hold(stream)
    }

    fn stream(&mut self) -> io::Result<&mut TcpStream> {
        Ok(
            self.streams
                .get_mut(self.at)
                .ok_or(ErrorKind::NotConnected)?,
        )
    }

    /// Adds the octets that one read gives, none where the stream has ended.
    fn get(&mut self, out: &mut String) -> io::Result<()> {
        let mut room = [0u8; 16];
        let count = self.stream()?.read(&mut room)?;
        Ok(put_text(room.get(..count).unwrap_or(&room), out)?)
    }

    /// Reads what comes until none does for a tenth of a second, or the stream has ended, and counts it.
    fn drain(&mut self) -> io::Result<()> {
        let mut room = [0u8; 32_768];
        for _ in 0..10_000 {
            match self.stream()?.read(&mut room) {
                Ok(0) | Err(_) => break,
                Ok(count) => self.drained = self.drained.saturating_add(count as u64),
            }
        }
        Ok(())
    }

    /// Does a step.
    pub(crate) fn act(&mut self, step: Step<'_>, out: &mut String) -> io::Result<()> {
        match step.word {
            "come" => return self.come(step.number),
            "meet" => return self.meet(),
            "put" => return self.stream()?.write_all(step.octets),
            "get" => return self.get(out),
            "drain" => return self.drain(),
            "drained" => return Ok(write!(out, ":{}", self.drained)?),
            "end" => return self.stream()?.shutdown(Shutdown::Write),
            "leave" => drop(self.streams.pop()),
            "at" => self.at = step.number as usize,
            "close" => self.listener = None,
            _ => return Err(io::Error::from(ErrorKind::Unsupported)),
        }
        Ok(())
    }
}
