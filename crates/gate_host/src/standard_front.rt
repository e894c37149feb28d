// One client, over an input and an output.
ghost use Rattle.std.specs.Prelude.{◌≡◌, ◌<◌, ◌≤◌, length, take, false, true, not, IfOk, OnOk, OnErr};
ghost use Rattle.std.specs.Io.KnownBytes.{Keeps, ReadConsumes, WriteAppends};
ghost use Rattle.gate_host.specs.Faults.{one_more};

use crate::Clients;
use crate::faults::raised;
use crate::streams::write_some;
use client_front::read_once;
use gate_world::Failed;
use std::io::{Read, Write};

/// A front with one client, who gives an input and takes an output.
#[derive(Drop)]
pub struct StandardFront<I: Read + Drop, O: Write + Drop> {
    /// What the client gives.
    pub input: I,
    /// What the client takes.
    pub output: O,
    /// Whether the client has come.
    pub has_come: bool,
    /// How often the input or the output has failed; the last number stays.
    pub faults: u64,
}

impl<I: Read + Drop, O: Write + Drop> StandardFront<I, O> {
    /// A front whose client has not come yet.
    pub fn new(input: I, output: O) -> StandardFront<I, O>
        ensures { result ≡ record { input = input; output = output; has_come = false; faults = 0 } }
    {
        StandardFront {
            input,
            output,
            has_come: false,
            faults: 0,
        }
    }

    fn fail(&mut self) -> Failed
        ensures same { self.new ≡ record self.old { faults = one_more self.old.faults } }
        ensures later { self.old.faults ≤ self.new.faults }
    {
        self.faults = raised(self.faults);
        Failed
    }

    /// Whether the client comes: the first time alone.
    pub fn next_client(&mut self) -> bool
        ensures first { result ≡ not self.old.has_come }
        ensures same { self.new ≡ record self.old { has_come = true } }
    {
        let is_first = !self.has_come;
        self.has_come = true;
        is_first
    }

    /// What the client gives next. It is 0 where its input ended.
    pub fn receive(&mut self, into: &mut [u8]) -> Result<usize, Failed>
        ensures bound { IfOk result (λ n. n ≤ length into.new) }
        ensures octets { ReadConsumes (I.remaining self.old.input) (I.remaining self.new.input) result into.new }
        ensures ok { OnOk result (self.new ≡ record self.old { input = self.new.input }) }
        ensures err { OnErr result (self.new ≡ record self.old { input = self.new.input; faults = one_more self.old.faults }) }
        ensures later { self.old.faults ≤ self.new.faults }
    {
        match read_once(&mut self.input, into) {
            Ok(count) => Ok(count),
            Err(_) => Err(self.fail()),
        }
    }

    /// Gives the client some of the octets, from their front. Where it fails, none of them.
    pub fn give(&mut self, from: &[u8]) -> Result<usize, Failed>
        ensures bound { IfOk result (λ n. (0 < n) × (n ≤ length from.now)) }
        ensures octets { WriteAppends (O.contents self.old.output) (O.contents self.new.output) result from.now }
        ensures ok { OnOk result (self.new ≡ record self.old { output = self.new.output }) }
        ensures err { OnErr result (self.new ≡ record self.old { output = self.new.output; faults = one_more self.old.faults }) }
        ensures later { self.old.faults ≤ self.new.faults }
    {
        match write_some(&mut self.output, from) {
            Some(count) => Ok(count),
            None => Err(self.fail()),
        }
    }
}

impl<I: Read + Drop, O: Write + Drop> Clients for StandardFront<I, O> {
    ghost use Rattle.std.specs.Prelude.{◌≡◌, Ok, true, not, take};
    ghost use Rattle.gate_host.specs.Faults.{one_more};
    ghost use Rattle.std.specs.Io.KnownBytes.{Appends, Consumes};

    ghost client_faults = { λ f. f.faults };

    ghost gives = { λ f. I.remaining f.input };

    ghost takes = { λ f. O.contents f.output };

    // One client comes, the first time alone, and accepting never fails.
    ghost accepts = { λ old result new. (result ≡ Ok (not old.has_come)) × (new ≡ record old { has_come = true }) };

    ghost receives = { λ old room octets new. Consumes (I.remaining old.input) (I.remaining new.input) octets };

    ghost sends = { λ old from count new. Appends (O.contents old.output) (O.contents new.output) (take count from) };

    ghost receives_nothing = { λ old room new. new ≡ record old { input = new.input; faults = one_more old.faults } };

    ghost sends_nothing = { λ old from new. new ≡ record old { output = new.output; faults = one_more old.faults } };

    ghost finishes = { λ old new. new ≡ old };

    ghost ends = { λ old new. new ≡ old };

    fn accept(&mut self) -> Result<bool, Failed> {
        Ok(self.next_client())
    }

    fn recv(&mut self, into: &mut [u8]) -> Result<usize, Failed> {
        self.receive(into)
    }

    fn send(&mut self, from: &[u8]) -> Result<usize, Failed> {
        self.give(from)
    }

    fn finish(&mut self) {}

    fn end(&mut self) {}
}
