// A host over loopback.
use gate_host::{Dialer, Draws, Host, WallClock, addresses_over, draw_over, seconds_over};
use std::io;
use std::io::{ErrorKind, Read, Stdin};
use std::net::{Ipv4Addr, Net, SocketAddr, SocketAddrV4, TcpListener, TcpStream};
use std::random::RandomSource;
use std::rt::Clock;
use std::time::Duration;

/// A host that looks up the names that begin with `named.`: each has two addresses. Its clock stands still, and its random
/// octets are those that it is given, or none.
#[derive(Clone, Copy)]
pub(crate) struct Desk {
    pub(crate) rt: HostRuntime,
    pub(crate) random: Option<[u8; 8]>,
}

impl Net for Desk {
    type Stream = TcpStream;

    type Listener = TcpListener;

    fn bind(&self, address: SocketAddr) -> io::Result<TcpListener> {
        self.rt.bind(address)
    }

    fn connect(&self, address: SocketAddr) -> io::Result<TcpStream> {
        self.rt.connect(address)
    }

    fn lookup_host(&self, _host: &str, port: u16, found: &mut [SocketAddr]) -> io::Result<usize> {
        for (place, last) in found.iter_mut().zip([2, 1]) {
            *place = SocketAddr::V4(SocketAddrV4::new(Ipv4Addr::new(127, 0, 0, last), port));
        }
        Ok(found.len().min(2))
    }
}

impl RandomSource for Desk {
    fn fill_bytes(&self, into: &mut [u8]) -> io::Result<()> {
        match self.random {
            Some(octets) => octets.as_slice().read_exact(into),
            None => Err(io::Error::from(ErrorKind::Unsupported)),
        }
    }
}

impl Dialer for Desk {
    ghost use Rattle.std.specs.Prelude.{⊤};

    type Stream = TcpStream;

    ghost looks_up = { λ _ _ _ _. ⊤ };

    ghost dials = { λ _ _ _ _. ⊤ };

    fn addresses(&self, store: &str, room: &mut [SocketAddr]) -> Option<usize> {
        match store.starts_with("named.") {
            true => addresses_over(self, store, room),
            false => self.rt.addresses(store, room),
        }
    }

    fn dial(&self, address: SocketAddr, limit_seconds: u64) -> Option<TcpStream> {
        self.rt.dial(address, limit_seconds)
    }
}

impl Draws for Desk {
    ghost use Rattle.std.specs.Prelude.{⊤};

    ghost draws = { λ _ _. ⊤ };

    fn draw(&self) -> Option<[u8; 8]> {
        draw_over(self)
    }
}

impl WallClock for Desk {
    ghost use Rattle.std.specs.Prelude.{⊤};

    ghost shows = { λ _ _. ⊤ };

    fn seconds(&self) -> Option<u64> {
        seconds_over(self)
    }
}

impl Clock for Desk {
    fn monotonic(&self) -> io::Result<Duration> {
        Ok(Duration::ZERO)
    }

    fn since_1970(&self) -> io::Result<Duration> {
        Ok(Duration::new(1, 5))
    }
}

impl Host for Desk {
    type Input = Stdin;

    type Output = Vec<u8>;

    type Errors = Vec<u8>;

    fn input(&self) -> Stdin {
        self.rt.input()
    }

    fn output(&self) -> Vec<u8> {
        Vec::new(self.rt.alloc())
    }

    fn errors(&self) -> Vec<u8> {
        Vec::new(self.rt.alloc())
    }

    fn process_number(&self) -> u32 {
        3
    }
}
