// What the program's host gives.
use crate::moment::seconds_over;
use crate::sockets::{addresses_over, dial_over, draw_over};
use crate::{Dialer, Draws, WallClock};
use std::io::{Read, Stderr, Stdin, Stdout, Write};
use std::net::{SocketAddr, TcpStream};
use std::process;
use std::rt::Clock;

/// A host: its network, its clock, its random octets, and the streams and the number of this process.
pub trait Host: Dialer + Draws + WallClock + Clock + Clone + Copy + Drop {
    /// What the client on the standard streams gives.
    type Input: Read + Drop;

    /// What that client takes.
    type Output: Write + Drop;

    /// Where the texts of the console go.
    type Errors: Write + Drop;

    /// The standard input.
    fn input(&self) -> Self::Input;

    /// The standard output.
    fn output(&self) -> Self::Output;

    /// The standard error.
    fn errors(&self) -> Self::Errors;

    /// The number of this process.
    fn process_number(&self) -> u32;
}

impl Dialer for HostRuntime {
    ghost use Rattle.std.specs.Prelude.{⊤};

    type Stream = TcpStream;

    ghost looks_up = { λ _ _ _ _. ⊤ };

    ghost dials = { λ _ _ _ _. ⊤ };

    fn addresses(&self, store: &str, room: &mut [SocketAddr]) -> Option<usize> {
        addresses_over(self, store, room)
    }

    fn dial(&self, address: SocketAddr, limit_seconds: u64) -> Option<TcpStream> {
        dial_over(self, address, limit_seconds)
    }
}

impl Draws for HostRuntime {
    ghost use Rattle.std.specs.Prelude.{⊤};

    ghost draws = { λ _ _. ⊤ };

    fn draw(&self) -> Option<[u8; 8]> {
        draw_over(self)
    }
}

impl WallClock for HostRuntime {
    ghost use Rattle.std.specs.Prelude.{⊤};

    ghost shows = { λ _ _. ⊤ };

    fn seconds(&self) -> Option<u64> {
        seconds_over(self)
    }
}

impl Host for HostRuntime {
    type Input = Stdin;

    type Output = Stdout;

    type Errors = Stderr;

    fn input(&self) -> Stdin {
        self.stdin()
    }

    fn output(&self) -> Stdout {
        self.stdout()
    }

    fn errors(&self) -> Stderr {
        self.stderr()
    }

    fn process_number(&self) -> u32 {
        process::id(self.process())
    }
}
