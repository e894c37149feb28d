// What is asked of a client's stream.
ghost use Rattle.std.specs.Prelude.{ℕ, List, ◌<◌, ◌≤◌, Option, length, take, option_map, IfSome};

/// A client's stream. Times are milliseconds. What a call may come to is a relation that each implementation names, and of which a
/// caller knows nothing else: where it changes the stream, between the stream before it and after it.
pub trait ClientStream: Drop {
    /// What a look for at most so many octets may show: these, none of them yet, or None where the client ended or failed.
    ghost shows: { Self → ℕ → Option (List ℕ) → Type 0 };

    /// The octets that a wait may give, for at most so many and at most so long. Or how many of these octets the client may have taken
    /// after one, from their front.
    ghost receives: { Self → ℕ → ℕ → Option (List ℕ) → Self → Type 0 };

    ghost sends: { Self → List ℕ → ℕ → Option ℕ → Self → Type 0 };

    /// What a look for at most so many octets may give without a wait: these, none of them yet, or None where the client ended or
    /// failed.
    ghost gives: { Self → ℕ → Option (List ℕ) → Self → Type 0 };

    /// What giving these octets without a wait may come to: how many of them are taken, from their front, 0 where none is now, or None
    /// where the stream failed.
    ghost takes: { Self → List ℕ → Option ℕ → Self → Type 0 };

    /// What ending what is sent comes to.
    ghost ends: { Self → Self → Type 0 };

    /// What closing a stream that stands so comes to.
    ghost closes: { Self → Type 0 };

    /// Puts the octets that have come and aren't received yet at the front of `into`, as many as there is room for; they are
    /// received all the same. How many, 0 where none has come yet. None where the client ended its input and all is received,
    /// or the stream failed. It does not wait.
    fn peek(&self, into: &mut [u8]) -> Option<usize>
        ensures bound { IfSome result (λ n. n ≤ length into.new) }
        ensures shown { shows self.now (length into.old) (option_map (λ n. take n into.new) result) };

    /// Waits for octets of the client, at most so long, and puts them at the front of `into`: how many, and 0 where the
    /// client ended its input. None where none came in time or the stream failed.
    fn receive(&mut self, into: &mut [u8], limit: u64) -> Option<usize>
        ensures bound { IfSome result (λ n. n ≤ length into.new) }
        ensures received { receives self.old (length into.old) limit (option_map (λ n. take n into.new) result) self.new };

    /// Puts the octets that have come at the front of `into`, as many as there is room for, which is for one at least: how many,
    /// 0 where none has come yet. None where the client ended its input, or the stream failed. It does not wait.
    fn receive_now(&mut self, into: &mut [u8]) -> Option<usize>
        ensures bound { IfSome result (λ n. n ≤ length into.new) }
        ensures given { gives self.old (length into.old) (option_map (λ n. take n into.new) result) self.new };

    /// Gives the client some of the octets, from their front, and waits for it at most so long: how many it took, at least
    /// 1. None where it took none in time or the stream failed.
    fn send(&mut self, from: &[u8], limit: u64) -> Option<usize>
        ensures bound { IfSome result (λ n. (0 < n) × (n ≤ length from.now)) }
        ensures taken { sends self.old from.now limit result self.new };

    /// Gives the client some of the octets, from their front: how many it took, 0 where it takes none now. None where the stream
    /// failed. It does not wait.
    fn send_now(&mut self, from: &[u8]) -> Option<usize>
        ensures bound { IfSome result (λ n. n ≤ length from.now) }
        ensures taken { takes self.old from.now result self.new };

    /// Tells the client that nothing more is sent.
    fn end_writing(&mut self)
        ensures { ends self.old self.new };

    /// Closes the stream.
    fn close(self)
        ensures { closes self };
}
