// The world of the gateway on a real host.
ghost use Rattle.std.specs.Prelude.{◌≡◌, ◌<◌, ◌≤◌, not, true, false, length, take, None, IsSome, IsNone, IsErr, IsOk, IfOk, OnOk, OnErr};
ghost use Rattle.std.specs.Io.KnownBytes.{Appends, Consumes, ReadConsumes, WriteAppends};
ghost use Rattle.gate_host.specs.Chance.{IsDrawnWord, IsShownMoment};
ghost use Rattle.gate_host.specs.declared.tcp_link.TheConstants.{PATIENCE_SECONDS};
ghost use Rattle.gate_host.specs.Dialing.{Connects};
ghost use Rattle.gate_host.specs.Faults.{one_more};
ghost use Rattle.gate_host.specs.Streams.{known_of};

use crate::{Clients, ErrorConsole, Host, TcpLink, present_moment, random_word};
use gate_world::{Chance, Clock, Console, Failed, Front, Link, Secrets, Taped, World};
use octets::{Bytes, Text};

/// A world on a host: the store over TCP, and clients. It tells no tape.
#[derive(Drop)]
pub struct HostWorld<H: Host, C: Clients> {
    host: H,
    /// The store.
    pub link: TcpLink<H>,
    /// The clients.
    pub front: C,
    /// Where whoever runs the program is told something.
    pub console: ErrorConsole<H::Errors>,
    password: Bytes,
    token: Bytes,
}

impl<H: Host, C: Clients> HostWorld<H, C> {
    /// A world in which nothing has happened: it has dialed nobody and accepted nobody.
    pub fn new(host: H, store: Text, front: C, password: Bytes, token: Bytes) -> HostWorld<H, C>
        ensures faults { ⟦<HostWorld<H, C> as Taped>⟧.faults result ≡ record { link = 0; keep = 0; front = C.client_faults front; say = 0 } }
        ensures hidden { ⟦<HostWorld<H, C> as Taped>⟧.hidden result ≡ record { password = password; token = token } }
        ensures undialed { IsNone result.link.stream }
        ensures dialer { result.link.dialer ≡ host }
        ensures store { result.link.store ≡ store }
        ensures front { result.front ≡ front }
    {
        HostWorld {
            host,
            link: TcpLink::new(host, store),
            front,
            console: ErrorConsole::new(host.errors()),
            password,
            token,
        }
    }
}

impl<H: Host, C: Clients> Taped for HostWorld<H, C> {
    ghost tape = { λ _. None };

    ghost faults = { λ w. record { link = w.link.faults; keep = 0; front = C.client_faults w.front; say = w.console.faults } };

    ghost hidden = { λ w. record { password = w.password; token = w.token } };
}

// Each call goes to its part, and leaves the others as they were.
impl<H: Host, C: Clients> Link for HostWorld<H, C> {
    fn dial(&mut self) -> Result<(), Failed>
        ensures connects { Connects (H.looks_up self.old.link.dialer) (H.dials self.old.link.dialer) PATIENCE_SECONDS self.old.link.store self.new.link.stream }
        ensures ok { OnOk result (IsSome self.new.link.stream) }
        ensures same { OnOk result (self.new ≡ record self.old { link = record self.old.link { stream = self.new.link.stream } }) }
        ensures err { OnErr result (self.new ≡ record self.old { link = record self.old.link { stream = None; faults = one_more self.old.link.faults } }) }
        ensures later { self.old.link.faults ≤ self.new.link.faults }
    {
        self.link.dial()
    }

    fn read(&mut self, into: &mut [u8]) -> Result<usize, Failed>
        ensures bound { IfOk result (λ n. (0 < n) × (n ≤ length into.new)) }
        ensures octets { IfOk result (λ n. Consumes (known_of H.Stream.remaining self.old.link.stream) (known_of H.Stream.remaining self.new.link.stream) (take n into.new)) }
        ensures ok { OnOk result (IsSome self.new.link.stream) }
        ensures same { OnOk result (self.new ≡ record self.old { link = record self.old.link { stream = self.new.link.stream } }) }
        ensures undialed { IsNone self.old.link.stream → IsErr result }
        ensures err { OnErr result (self.new ≡ record self.old { link = record self.old.link { stream = None; faults = one_more self.old.link.faults } }) }
        ensures later { self.old.link.faults ≤ self.new.link.faults }
    {
        self.link.read(into)
    }

    fn write(&mut self, from: &[u8]) -> Result<usize, Failed>
        ensures bound { IfOk result (λ n. (0 < n) × (n ≤ length from.now)) }
        ensures octets { IfOk result (λ n. Appends (known_of H.Stream.contents self.old.link.stream) (known_of H.Stream.contents self.new.link.stream) (take n from.now)) }
        ensures ok { OnOk result (IsSome self.new.link.stream) }
        ensures same { OnOk result (self.new ≡ record self.old { link = record self.old.link { stream = self.new.link.stream } }) }
        ensures undialed { IsNone self.old.link.stream → IsErr result }
        ensures err { OnErr result (self.new ≡ record self.old { link = record self.old.link { stream = None; faults = one_more self.old.link.faults } }) }
        ensures later { self.old.link.faults ≤ self.new.link.faults }
    {
        self.link.write(from)
    }

    fn hang_up(&mut self)
        ensures same { self.new ≡ record self.old { link = record self.old.link { stream = None } } }
    {
        self.link.hang_up();
    }
}

impl<H: Host, C: Clients> Front for HostWorld<H, C> {
    fn accept(&mut self) -> Result<bool, Failed>
        ensures accepts { C.accepts self.old.front result self.new.front }
        ensures elsewhere { (self.new.link ≡ self.old.link) × (self.new.console ≡ self.old.console) × (self.new.host ≡ self.old.host) }
        ensures secrets { (self.new.password ≡ self.old.password) × (self.new.token ≡ self.old.token) }
        ensures ok { OnOk result (C.client_faults self.new.front ≡ C.client_faults self.old.front) }
        ensures err { OnErr result (C.client_faults self.new.front ≡ one_more (C.client_faults self.old.front)) }
        ensures later { C.client_faults self.old.front ≤ C.client_faults self.new.front }
    {
        self.front.accept()
    }

    fn recv(&mut self, into: &mut [u8]) -> Result<usize, Failed>
        ensures bound { IfOk result (λ n. n ≤ length into.new) }
        ensures octets { ReadConsumes (C.gives self.old.front) (C.gives self.new.front) result into.new }
        ensures receives { IfOk result (λ n. C.receives self.old.front (length into.old) (take n into.new) self.new.front) }
        ensures nothing { OnErr result (C.receives_nothing self.old.front (length into.old) self.new.front) }
        ensures takes { C.takes self.new.front ≡ C.takes self.old.front }
        ensures elsewhere { (self.new.link ≡ self.old.link) × (self.new.console ≡ self.old.console) × (self.new.host ≡ self.old.host) }
        ensures secrets { (self.new.password ≡ self.old.password) × (self.new.token ≡ self.old.token) }
        ensures ok { OnOk result (C.client_faults self.new.front ≡ C.client_faults self.old.front) }
        ensures err { OnErr result (C.client_faults self.new.front ≡ one_more (C.client_faults self.old.front)) }
        ensures later { C.client_faults self.old.front ≤ C.client_faults self.new.front }
    {
        self.front.recv(into)
    }

    fn send(&mut self, from: &[u8]) -> Result<usize, Failed>
        ensures bound { IfOk result (λ n. (0 < n) × (n ≤ length from.now)) }
        ensures octets { WriteAppends (C.takes self.old.front) (C.takes self.new.front) result from.now }
        ensures sends { IfOk result (λ n. C.sends self.old.front from.now n self.new.front) }
        ensures nothing { OnErr result (C.sends_nothing self.old.front from.now self.new.front) }
        ensures gives { C.gives self.new.front ≡ C.gives self.old.front }
        ensures elsewhere { (self.new.link ≡ self.old.link) × (self.new.console ≡ self.old.console) × (self.new.host ≡ self.old.host) }
        ensures secrets { (self.new.password ≡ self.old.password) × (self.new.token ≡ self.old.token) }
        ensures ok { OnOk result (C.client_faults self.new.front ≡ C.client_faults self.old.front) }
        ensures err { OnErr result (C.client_faults self.new.front ≡ one_more (C.client_faults self.old.front)) }
        ensures later { C.client_faults self.old.front ≤ C.client_faults self.new.front }
    {
        self.front.send(from)
    }

    fn finish(&mut self)
        ensures finishes { C.finishes self.old.front self.new.front }
        ensures elsewhere { (self.new.link ≡ self.old.link) × (self.new.console ≡ self.old.console) × (self.new.host ≡ self.old.host) }
        ensures secrets { (self.new.password ≡ self.old.password) × (self.new.token ≡ self.old.token) }
        ensures faults { C.client_faults self.new.front ≡ C.client_faults self.old.front }
    {
        self.front.finish();
    }
}

impl<H: Host, C: Clients> Clock for HostWorld<H, C> {
    fn now(&mut self) -> i64
        ensures shown { IsShownMoment (H.shows self.old.host) result }
        ensures same { self.new ≡ self.old }
    {
        present_moment(&self.host)
    }
}

impl<H: Host, C: Clients> Chance for HostWorld<H, C> {
    fn word(&mut self) -> u64
        ensures drawn { IsDrawnWord (H.draws self.old.host) result }
        ensures same { self.new ≡ self.old }
    {
        random_word(&self.host, self.host.process_number())
    }
}

impl<H: Host, C: Clients> Console for HostWorld<H, C> {
    fn say(&mut self, text: &[u8]) -> Result<(), Failed>
        ensures octets { OnOk result (Appends (H.Errors.contents self.old.console.stream) (H.Errors.contents self.new.console.stream) text.now) }
        ensures ok { OnOk result (self.new ≡ record self.old { console = record self.old.console { stream = self.new.console.stream } }) }
        ensures err { OnErr result (self.new ≡ record self.old { console = record self.old.console { stream = self.new.console.stream; faults = one_more self.old.console.faults } }) }
        ensures later { self.old.console.faults ≤ self.new.console.faults }
    {
        self.console.say(text)
    }
}

impl<H: Host, C: Clients> Secrets for HostWorld<H, C> {
    fn password(&self) -> &[u8] {
        self.password.as_slice()
    }

    fn token(&self) -> &[u8] {
        self.token.as_slice()
    }
}

impl<H: Host, C: Clients> World for HostWorld<H, C> {}
