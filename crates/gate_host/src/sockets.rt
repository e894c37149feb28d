// What the link and the random words ask of a host, and the toolchain's sockets and random octets under it.
ghost use Rattle.std.specs.Prelude.{ℕ, ◌≤◌, List, Option, None, Some, IfSome, length, option_map, take};
ghost use Rattle.std.specs.declared.net.socket_addr.SocketAddr.{SocketAddr};

use std::io::{Read, Write};
use std::net::{Net, OpenStream, SocketAddr, ToSocketAddrs};
use std::random::RandomSource;
use std::time::Duration;

/// Looks names up, and dials. What a look-up and a dial may come to is a relation that each implementation names, and of
/// which a caller knows nothing else: so a stream that stands in it was given by a dial of that address with that limit.
pub trait Dialer {
    /// A stream to a store. Its reads and writes may fail, and a read gives 0 where the store has closed it.
    type Stream: Read + Write + Drop;

    /// The addresses that a look-up of this name may give, so many at most, in order; None where it fails.
    ghost looks_up: { Self → List ℕ → ℕ → Option (List SocketAddr) → Type 0 };

    /// The stream that a dial of this address may give, where the dial, each read and each write may wait this many
    /// seconds; None where it fails.
    ghost dials: { Self → SocketAddr → ℕ → Option Self.Stream → Type 0 };

    /// Puts the addresses of a store, `host:port`, at the front of the room, in order; how many, or none where it has none.
    fn addresses(&self, store: &str, room: &mut [SocketAddr]) -> Option<usize>
        ensures bound { IfSome result (λ n. n ≤ length room.new) }
        ensures found { looks_up self.now store.now (length room.old) (option_map (λ n. take n room.new) result) };

    /// A new stream to the address. The dial, each read and each write wait at most n seconds. None where it fails.
    fn dial(&self, address: SocketAddr, limit_seconds: u64) -> Option<Self::Stream>
        ensures { dials self.now address limit_seconds result };
}

/// Draws random octets.
pub trait Draws {
    /// The octets that may be drawn; None where the host has none. A caller knows nothing else of it.
    ghost draws: { Self → Option (List ℕ) → Type 0 };

    /// Eight random octets, new at each call; none where the host has none.
    fn draw(&self) -> Option<[u8; 8]>
        ensures { draws self.now result };
}

/// The toolchain's look-up: puts the addresses of a store, `host:port`, at the front of the room, in order, as many as there
/// is room for; how many, or None where the look-up fails or the store is written otherwise.
pub fn addresses_over<N: Net>(net: &N, store: &str, room: &mut [SocketAddr]) -> Option<usize>
    ensures { IfSome result (λ n. n ≤ length room.new) }
{
    let found = store.to_socket_addrs(net).ok()?;
    let mut count = 0;
    for address in found {
        if count < room.len() {
            room[count] = address;
            count += 1;
        }
    }
    Some(count)
}

/// The toolchain's dial, with its limits. What is written is sent at once: a small write behind a large one would wait for the store's
/// acknowledgement else.
pub(crate) fn dial_over<N: Net>(
    net: &N,
    address: SocketAddr,
    limit_seconds: u64,
) -> Option<N::Stream> {
    let limit = Duration::from_secs(limit_seconds);
    let stream = net.connect_timeout(address, limit).ok()?;
    stream.set_read_timeout(Some(limit)).ok()?;
    stream.set_write_timeout(Some(limit)).ok()?;
    stream.set_nodelay(true).ok()?;
    Some(stream)
}

/// Eight of the toolchain's random octets; None where the source gives none.
pub fn draw_over<R: RandomSource>(source: &R) -> Option<[u8; 8]> {
    let mut octets = [0u8; 8];
    source.fill_bytes(&mut octets).ok()?;
    Some(octets)
}
