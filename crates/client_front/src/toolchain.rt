// The toolchain's sockets, and readiness over them.
use crate::sockets::{ClientListener, Next, WAIT_KEYS};
use client_streams::TcpClient;
use mio::unix::SourceFd;
use mio::{Events, Interest, Poll, Token};
use std::alloc::Global;
use std::io::ErrorKind;
use std::net::{Net, TcpListener, TcpStream};
use std::os::fd::AsRawFd;
use std::time::Duration;

/// How many clients that can't be accepted are passed over for the next that can, in one call; after as many it refuses.
const MAX_FAILED_CLIENTS: usize = 64;

/// What the listener itself is watched under.
const LISTENER: usize = usize::MAX;

/// A listener over TCP that watches the clients it has accepted.
#[derive(Drop)]
pub struct TcpClients {
    listener: TcpListener,
    poll: Poll,
    events: Events,
}

impl TcpClients {
    /// A listener at an address, `host:port`. None where none can be had.
    pub fn bind<N: Net<Listener = TcpListener, Stream = TcpStream>>(
        alloc: Global,
        net: &N,
        address: &str,
    ) -> Option<TcpClients> {
        let listener = TcpListener::bind(net, address).ok()?;
        listener.set_nonblocking(true).ok()?;
        let poll = Poll::new(net).ok()?;
        poll.registry()
            .register(
                &mut SourceFd(&listener.as_raw_fd()),
                Token(LISTENER),
                Interest::READABLE,
            )
            .ok()?;
        let events = Events::with_capacity(alloc, WAIT_KEYS).ok()?;
        Some(TcpClients {
            listener,
            poll,
            events,
        })
    }

    /// A client with this stream, which is watched under the key. None where that can't be.
    fn watched(&self, stream: TcpStream, key: u64) -> Option<TcpClient> {
        stream.set_nonblocking(true).ok()?;
        self.poll
            .registry()
            .register(
                &mut SourceFd(&stream.as_raw_fd()),
                Token(key as usize),
                Interest::READABLE | Interest::WRITABLE,
            )
            .ok()?;
        Some(TcpClient::new(stream))
    }

    /// The port that it listens at.
    pub fn port(&self) -> Option<u16> {
        Some(self.listener.local_addr().ok()?.port())
    }
}

impl ClientListener for TcpClients {
    ghost use Rattle.std.specs.Prelude.{⊤};

    type Stream = TcpClient;

    ghost comes = { λ _ _ _ _. ⊤ };

    ghost waits = { λ _ _ _ _ _. ⊤ };

    fn next_client(&mut self, key: u64) -> Next<TcpClient> {
        for _ in 0..MAX_FAILED_CLIENTS {
            match self.listener.accept() {
                Ok((stream, _)) => {
                    if let Some(client) = self.watched(stream, key) {
                        return Next::Client(client);
                    }
                }
                Err(error) if error.kind() == ErrorKind::WouldBlock => return Next::Nobody,
                Err(_) => {}
            }
        }
        Next::Refused
    }

    fn wait(&mut self, limit: u64, room: &mut [u64]) -> Option<usize> {
        if let Err(error) = self
            .poll
            .poll(&mut self.events, Some(Duration::from_millis(limit)))
        {
            return if error.kind() == ErrorKind::Interrupted {
                Some(0)
            } else {
                None
            };
        }
        let mut count = 0;
        for event in self.events.iter() {
            let Token(key) = event.token();
            if key != LISTENER && count < room.len() {
                room[count] = key as u64;
                count += 1;
            }
        }
        Some(count)
    }
}
