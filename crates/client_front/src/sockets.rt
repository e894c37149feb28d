// What the front asks of a host's listener.
ghost use Rattle.std.specs.Prelude.{ℕ, List, ◌≤◌, Option, length, take, option_map, IfSome};

use client_streams::ClientStream;

/// How many keys one wait of the toolchain's listener gives at most; further ones come with the next.
pub(crate) const WAIT_KEYS: usize = 64;

/// What comes of asking a listener for a client.
#[derive(Drop)]
pub enum Next<S: Drop> {
    /// This one has come.
    Client(S),
    /// None has come.
    Nobody,
    /// One may have come that can't be accepted, as where the process has no descriptor left for it.
    Refused,
}

/// A listener, which watches the clients that it has accepted. What a call may come to is a relation between the listener before it
/// and after it, of which a caller knows nothing else.
pub trait ClientListener {
    ghost use Rattle.client_front.specs.declared.sockets.Next.{Next};

    /// A client that was accepted, to receive from and to send to.
    type Stream: ClientStream;

    /// What may have come that is watched under this key.
    ghost comes: { Self → ℕ → Next Self.Stream → Self → Type 0 };

    /// The keys that a wait may give, for at most so many and at most so long; None where it fails.
    ghost waits: { Self → ℕ → ℕ → Option (List ℕ) → Self → Type 0 };

    /// The next client that has come, watched from now on under the key. It does not wait.
    fn next_client(&mut self, key: u64) -> Next<Self::Stream>
        ensures { comes self.old key result self.new };

    /// Waits until a client comes, or one that is watched has sent something, has ended or takes octets again, at most that many
    /// milliseconds. It puts the keys of the latter at the front of the room: how many. None where the listener failed.
    fn wait(&mut self, limit: u64, room: &mut [u64]) -> Option<usize>
        ensures bound { IfSome result (λ n. n ≤ length room.new) }
        ensures waited { waits self.old (length room.old) limit (option_map (λ n. take n room.new) result) self.new };
}
