// Clients, whichever way they come.
ghost use Rattle.std.specs.Prelude.{ℕ, Bool, List, Option, Result, ◌≡◌, ◌<◌, ◌≤◌, length, take, IfOk, OnOk, OnErr};
ghost use Rattle.std.specs.Io.KnownBytes.{ReadConsumes, WriteAppends};
ghost use Rattle.gate_host.specs.Faults.{one_more};
ghost use Rattle.gate_world.specs.declared.outside.Failed.{Failed as failed};

use gate_world::Failed;

/// Clients, one after another. Each Err is one fault; after one of `recv` or of `send` octets of this client may be lost, so that
/// nothing more is asked of it but `finish`.
pub trait Clients: Drop {
    /// How often a call has failed; the last number stays.
    ghost client_faults: { Self → ℕ };

    /// The octets that the client gives from here on, and those that it was given, where they are known.
    ghost gives: { Self → Option (List ℕ) };

    ghost takes: { Self → Option (List ℕ) };

    /// What a call of `accept` comes to, between the clients before it and after it.
    ghost accepts: { Self → Result Bool failed → Self → Type 0 };

    /// What a call of `recv` for at most so many octets that gives these comes to, and a call of `send` of these octets of which so many
    /// are taken, between the clients before it and after it.
    ghost receives: { Self → ℕ → List ℕ → Self → Type 0 };

    ghost sends: { Self → List ℕ → ℕ → Self → Type 0 };

    /// What a call of `recv` for at most so many octets that fails comes to, and one of `send` of these.
    ghost receives_nothing: { Self → ℕ → Self → Type 0 };

    ghost sends_nothing: { Self → List ℕ → Self → Type 0 };

    /// What a call of `finish` changes, and one of `end`.
    ghost finishes: { Self → Self → Type 0 };

    ghost ends: { Self → Self → Type 0 };

    /// Waits for the next client. False where no client will come.
    fn accept(&mut self) -> Result<bool, Failed>
        ensures accepts { accepts self.old result self.new }
        ensures ok { OnOk result (client_faults self.new ≡ client_faults self.old) }
        ensures err { OnErr result (client_faults self.new ≡ one_more (client_faults self.old)) }
        ensures later { client_faults self.old ≤ client_faults self.new };

    /// What the client gives next. It is 0 where its input ended.
    fn recv(&mut self, into: &mut [u8]) -> Result<usize, Failed>
        ensures bound { IfOk result (λ n. n ≤ length into.new) }
        ensures octets { ReadConsumes (gives self.old) (gives self.new) result into.new }
        ensures receives { IfOk result (λ n. receives self.old (length into.old) (take n into.new) self.new) }
        ensures nothing { OnErr result (receives_nothing self.old (length into.old) self.new) }
        ensures takes { takes self.new ≡ takes self.old }
        ensures ok { OnOk result (client_faults self.new ≡ client_faults self.old) }
        ensures err { OnErr result (client_faults self.new ≡ one_more (client_faults self.old)) }
        ensures later { client_faults self.old ≤ client_faults self.new };

    /// Gives the client some of the octets, from their front. Where it fails none of them counts as taken, and what is kept of earlier
    /// ones may be dropped.
    fn send(&mut self, from: &[u8]) -> Result<usize, Failed>
        ensures bound { IfOk result (λ n. (0 < n) × (n ≤ length from.now)) }
        ensures octets { WriteAppends (takes self.old) (takes self.new) result from.now }
        ensures sends { IfOk result (λ n. sends self.old from.now n self.new) }
        ensures nothing { OnErr result (sends_nothing self.old from.now self.new) }
        ensures gives { gives self.new ≡ gives self.old }
        ensures ok { OnOk result (client_faults self.new ≡ client_faults self.old) }
        ensures err { OnErr result (client_faults self.new ≡ one_more (client_faults self.old)) }
        ensures later { client_faults self.old ≤ client_faults self.new };

    /// The answer to this client is whole.
    fn finish(&mut self)
        ensures finishes { finishes self.old self.new }
        ensures faults { client_faults self.new ≡ client_faults self.old };

    /// For the end of a program: waits for those whose answer has ended and that have not taken it yet, or are open yet, no longer than
    /// their time. Those that come meanwhile aren't served.
    fn end(&mut self)
        ensures ends { ends self.old self.new }
        ensures faults { client_faults self.new ≡ client_faults self.old };
}
