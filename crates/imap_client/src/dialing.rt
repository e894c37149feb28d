// A link life begins.
ghost use Rattle.std.specs.Prelude.{◌≡◌, ◌≤◌, Option, true, false, Ok, IsErrOf, OnErr, OnOk, IfOk};
ghost use Rattle.gate_world.specs.Causes.{Rose, LinkAlone};
ghost use Rattle.gate_world.specs.Tape.{Adds};
ghost use Rattle.imap_exchange.specs.Received.{nothing_given, room_left};
ghost use Rattle.imap_client.specs.LinkLife.{LinkLife, fresh};
ghost use Rattle.imap_client.specs.Connecting.{Greets, IsGreeted, IsGreetedKeeping, Lives, Connects, greeting_says};

use crate::client::Client;
use crate::connection::{Connection, Stage};
use crate::following::follow;
use gate_world::{Link, Secrets};
use imap_exchange::{LinkEnd, Received, hang_up_where, next_response};
use imap_types::{Response, Status};
use octets::Bytes;
use std::alloc::{AllocError, Global};

// What a greeting says: whether it is PREAUTH.
fn is_preauth(greeting: &Response) -> Result<bool, LinkEnd>
    ensures { result ≡ greeting_says greeting.now }
{
    match greeting {
        Response::Untagged {
            status: Status::Bye,
            ..
        } => Err(LinkEnd::Bye),
        Response::Untagged {
            status: Status::Preauth,
            ..
        } => Ok(true),
        _ => Ok(false),
    }
}

// Reads the greeting (RFC 9051 section 7.1): whether it is PREAUTH. `up` says whether the link is up.
fn greet<L: Link>(
    alloc: Global,
    link: &mut L,
    unread: &mut Received,
    up: &mut bool,
) -> Result<bool, LinkEnd>
    requires none { unread.old ≡ nothing_given }
    requires up { up.old ≡ true }
    ensures tape { Adds (L.tape link.old) (L.tape link.new) (Greets unread.new up.new result) }
    ensures alone { LinkAlone (L.faults link.old) (L.faults link.new) }
    ensures cause { up.new ≡ false → Rose (L.faults link.old).link (L.faults link.new).link }
    ensures lost { IsErrOf result LinkEnd.Lost → up.new ≡ false }
    ensures stays { OnOk result (up.new ≡ true) }
    ensures progress { OnOk result (room_left unread.new ≤ room_left nothing_given) }
    ensures hidden { L.hidden link.new ≡ L.hidden link.old }
{
    let greeting = next_response(alloc, link, unread, up, 0)?;
    is_preauth(&greeting)
}

fn connection(alloc: Global, user: &[u8], password: &[u8]) -> Result<Connection, AllocError>
    ensures stage { IfOk result (λ c. c.stage ≡ Stage.Asking) }
    ensures user { IfOk result (λ c. c.user ≡ user.now) }
    ensures password { IfOk result (λ c. c.password ≡ password.now) }
{
    Ok(Connection {
        stage: Stage::Asking,
        preauth: false,
        user: Bytes::copy_of(alloc, user)?,
        password: Bytes::copy_of(alloc, password)?,
    })
}

impl Client {
    /// Reads the greeting of a life that was dialed just now (RFC 9051 section 7.1): whether it is PREAUTH. After an Err the life has
    /// ended.
    pub fn read_greeting<L: Link>(&mut self, link: &mut L) -> Result<bool, LinkEnd>
        requires { self.old ≡ fresh }
        ensures tape { Adds (L.tape link.old) (L.tape link.new) (IsGreeted self.new result) }
        ensures alive { OnOk result (self.new.alive ≡ true) }
        ensures ended { OnErr result (self.new ≡ fresh) }
        ensures alone { LinkAlone (L.faults link.old) (L.faults link.new) }
        ensures cause { IsErrOf result LinkEnd.Lost → Rose (L.faults link.old).link (L.faults link.new).link }
        ensures hidden { L.hidden link.new ≡ L.hidden link.old }
    {
        let mut unread = Received::new(self.allocator());
        self.read_greeting_keeping(link, &mut unread)
    }

    /// The same, and where the octets that come first are no response, `unread` has them.
    pub fn read_greeting_keeping<L: Link>(
        &mut self,
        link: &mut L,
        unread: &mut Received,
    ) -> Result<bool, LinkEnd>
        requires { self.old ≡ fresh }
        ensures tape { Adds (L.tape link.old) (L.tape link.new) (IsGreetedKeeping self.new unread.new result) }
        ensures alive { OnOk result (self.new.alive ≡ true) }
        ensures ended { OnErr result (self.new ≡ fresh) }
        ensures alone { LinkAlone (L.faults link.old) (L.faults link.new) }
        ensures cause { IsErrOf result LinkEnd.Lost → Rose (L.faults link.old).link (L.faults link.new).link }
        ensures hidden { L.hidden link.new ≡ L.hidden link.old }
    {
        let alloc = self.allocator();
        let mut received = Received::new(alloc);
        let mut up = true;
        match greet(alloc, link, &mut received, &mut up) {
            Ok(preauth) => {
                self.begin(received);
                Ok(preauth)
            }
            Err(end) => {
                hang_up_where(link, up);
                *unread = received;
                Err(end)
            }
        }
    }

    // The greeting, and then what is asked.
    fn live<L: Link>(&mut self, link: &mut L, connection: Connection) -> Result<(), LinkEnd>
        requires fresh { self.old ≡ fresh }
        requires stage { connection.stage ≡ Stage.Asking }
        ensures tape { Adds (L.tape link.old) (L.tape link.new) (λ es. (left : Option LinkLife) × Lives connection.user connection.password left self.new result es) }
        ensures alive { OnOk result (self.new.alive ≡ true) }
        ensures ended { OnErr result (self.new ≡ fresh) }
        ensures alone { LinkAlone (L.faults link.old) (L.faults link.new) }
        ensures cause { IsErrOf result LinkEnd.Lost → Rose (L.faults link.old).link (L.faults link.new).link }
        ensures hidden { L.hidden link.new ≡ L.hidden link.old }
    {
        match self.read_greeting(link) {
            Ok(preauth) => {
                let mut plan = connection;
                plan.preauth = preauth;
                follow(self, link, &mut plan)
            }
            Err(end) => Err(end),
        }
    }

    /// Dials, and asks CAPABILITY, LOGIN unless the greeting is PREAUTH, CAPABILITY and ENABLE. After an Err the life has
    /// ended.
    pub fn connect<W: Link + Secrets>(&mut self, world: &mut W, user: &[u8]) -> Result<(), LinkEnd>
        requires { self.old.alive ≡ false }
        ensures tape { Adds (W.tape world.old) (W.tape world.new) (λ es. (left : Option LinkLife) × Connects user.now (W.hidden world.old).password left self.new result es) }
        ensures alive { OnOk result (self.new.alive ≡ true) }
        ensures ended { OnErr result (self.new ≡ fresh) }
        ensures alone { LinkAlone (W.faults world.old) (W.faults world.new) }
        ensures cause { IsErrOf result LinkEnd.Lost → Rose (W.faults world.old).link (W.faults world.new).link }
        ensures hidden { W.hidden world.new ≡ W.hidden world.old }
    {
        self.end();
        let connection = connection(self.allocator(), user, world.password())?;
        match world.dial() {
            Ok(()) => self.live(world, connection),
            Err(_) => Err(LinkEnd::Lost),
        }
    }
}
