// The client's side of one link life after another.
ghost use Rattle.std.specs.Prelude.{◌≡◌, true, false, ◌<◌, ◌≤◌, IsErrOf, IfErr, IfOk, OnOk, OnErr};
ghost use Rattle.std.specs.Option.{option_copied};
ghost use Rattle.gate_world.specs.Causes.{Rose, LinkAlone, NoFault};
ghost use Rattle.gate_world.specs.Tape.{Adds};
ghost use Rattle.imap_types.specs.declared.response.Status.TheVariants as statuses;
ghost use Rattle.imap_exchange.specs.Received.{nothing_given, room_left};
ghost use Rattle.imap_exchange.specs.Answering.{HangsUp};
ghost use Rattle.imap_client.specs.LinkLife.{LinkLife, Stands, fresh, begun_with, life_left};
ghost use Rattle.imap_client.specs.Calls.{IsExchanged, is_torn};
ghost use Rattle.imap_client.specs.Unread.{LeavesUnread};

use crate::connection::special_use_after;
use gate_world::Link;
use imap_exchange::{LinkEnd, Received, complete, hang_up_where};
use imap_types::Command;
use octets::Bytes;
use std::alloc::Global;
use std::marker::Model;
use std::mem;
use told_mail::Exchange;

/// The client of a store. It lives one link life after another.
#[derive(Drop)]
pub struct Client {
    alive: bool,
    unread: Received,
    number: u64,
    selected: Option<Bytes>,
    special_use: bool,
    alloc: Global,
}

impl Model for Client {
    ghost use Rattle.std.specs.Prelude.{◌≤◌, ◌+◌};
    ghost use Rattle.imap_exchange.specs.Received.{most_given, room_left};
    ghost use Rattle.imap_client.specs.LinkLife.{ClientState};

    ghost Value = { ClientState };

    ghost view = { λ c. record { alive = c.alive; unread = c.unread; number = c.number; selected = c.selected; special_use = c.special_use } };

    ghost invariant = { λ c. c.number + room_left c.unread ≤ most_given + 1 };
}

impl Client {
    /// A client that isn't alive. It takes no memory.
    pub fn new(alloc: Global) -> Client
        ensures { result ≡ fresh }
    {
        Client {
            alive: false,
            unread: Received::new(alloc),
            number: 1,
            selected: None,
            special_use: false,
            alloc,
        }
    }

    /// Whether its link life goes on: from an Ok of `connect` up to an end of the link or to `leave`.
    pub fn alive(&self) -> bool
        ensures { result ≡ self.now.alive }
    {
        self.alive
    }

    /// The selected folder; none where the client isn't alive.
    pub fn selected(&self) -> Option<&[u8]>
        ensures { option_copied result ≡ self.now.selected }
    {
        match &self.selected {
            None => None,
            Some(name) => Some(name.as_slice()),
        }
    }

    /// Whether the store told at its last CAPABILITY that it tells special-use attributes where they are asked (RFC 6154 section 2);
    /// false where the client isn't alive.
    pub fn special_use(&self) -> bool
        ensures { result ≡ self.now.special_use }
    {
        self.special_use
    }

    /// Where its memory comes from.
    pub(crate) fn allocator(&self) -> Global {
        self.alloc
    }

    /// A link life goes on after its greeting, from what is unread.
    pub(crate) fn begin(&mut self, unread: Received)
        requires { room_left unread ≤ room_left nothing_given }
        ensures { self.new ≡ begun_with unread }
    {
        self.alive = true;
        self.unread = unread;
        self.number = 1;
        self.selected = None;
        self.special_use = false;
    }

    /// The link life is over.
    pub(crate) fn end(&mut self)
        ensures { self.new ≡ fresh }
    {
        self.alive = false;
        self.unread = Received::new(self.alloc);
        self.number = 1;
        self.selected = None;
        self.special_use = false;
    }

    /// Ends the link life, where it goes on.
    pub fn leave<L: Link>(&mut self, link: &mut L)
        ensures tape { Adds (L.tape link.old) (L.tape link.new) (HangsUp self.old.alive) }
        ensures left { self.new ≡ fresh }
        ensures cause { NoFault (L.faults link.old) (L.faults link.new) }
        ensures hidden { L.hidden link.new ≡ L.hidden link.old }
    {
        hang_up_where(link, self.alive);
        self.end();
    }

    /// Sends the command and reads what the store answers, up to the tagged line: also NO and BAD are completed exchanges.
    /// After an Err the link life has ended, and after an Ok too where the client isn't alive: then the store refused the
    /// command while the link failed.
    pub fn exchange<L: Link>(&mut self, link: &mut L, command: Command) -> Result<Exchange, LinkEnd>
        requires { self.old.alive ≡ true }
        ensures tape { Adds (L.tape link.old) (L.tape link.new) (λ es. (life : LinkLife) → Stands self.old life → (left : LinkLife) × IsExchanged life command left self.new result es) }
        ensures alive { IfOk result (λ x. x.status ≡ statuses.Ok → self.new.alive ≡ true) }
        ensures ended { OnErr result (self.new ≡ fresh) }
        ensures progress { OnOk result (life_left self.new < life_left self.old) }
        ensures alone { LinkAlone (L.faults link.old) (L.faults link.new) }
        ensures down { OnOk result (self.new.alive ≡ false → Rose (L.faults link.old).link (L.faults link.new).link) }
        ensures cause { IsErrOf result LinkEnd.Lost → Rose (L.faults link.old).link (L.faults link.new).link }
        ensures hidden { L.hidden link.new ≡ L.hidden link.old }
    {
        let mut torn = false;
        self.exchange_torn(link, command, &mut torn)
    }

    /// The same, and `torn` says whether the exchange isn't completed though the store took octets of the command.
    pub fn exchange_torn<L: Link>(
        &mut self,
        link: &mut L,
        command: Command,
        torn: &mut bool,
    ) -> Result<Exchange, LinkEnd>
        requires { self.old.alive ≡ true }
        ensures tape { Adds (L.tape link.old) (L.tape link.new) (λ es. (life : LinkLife) → Stands self.old life → (left : LinkLife) × IsExchanged life command left self.new result es × (torn.new ≡ is_torn result left)) }
        ensures whole { OnOk result (torn.new ≡ false) }
        ensures alive { IfOk result (λ x. x.status ≡ statuses.Ok → self.new.alive ≡ true) }
        ensures ended { OnErr result (self.new ≡ fresh) }
        ensures progress { OnOk result (life_left self.new < life_left self.old) }
        ensures alone { LinkAlone (L.faults link.old) (L.faults link.new) }
        ensures down { OnOk result (self.new.alive ≡ false → Rose (L.faults link.old).link (L.faults link.new).link) }
        ensures cause { IsErrOf result LinkEnd.Lost → Rose (L.faults link.old).link (L.faults link.new).link }
        ensures hidden { L.hidden link.new ≡ L.hidden link.old }
    {
        let mut unread = Received::new(self.alloc);
        self.exchange_keeping(link, command, torn, &mut unread)
    }

    /// The same, and where no response begins at an offset of what the store gave, `unread` has the octets from there on.
    pub fn exchange_keeping<L: Link>(
        &mut self,
        link: &mut L,
        command: Command,
        torn: &mut bool,
        unread: &mut Received,
    ) -> Result<Exchange, LinkEnd>
        requires { self.old.alive ≡ true }
        ensures tape { Adds (L.tape link.old) (L.tape link.new) (λ es. (life : LinkLife) → Stands self.old life → (left : LinkLife) × IsExchanged life command left self.new result es × (torn.new ≡ is_torn result left)
            × IfErr result (λ e. LeavesUnread e left.gave unread.new.octets)) }
        ensures whole { OnOk result (torn.new ≡ false) }
        ensures alive { IfOk result (λ x. x.status ≡ statuses.Ok → self.new.alive ≡ true) }
        ensures ended { OnErr result (self.new ≡ fresh) }
        ensures progress { OnOk result (life_left self.new < life_left self.old) }
        ensures alone { LinkAlone (L.faults link.old) (L.faults link.new) }
        ensures down { OnOk result (self.new.alive ≡ false → Rose (L.faults link.old).link (L.faults link.new).link) }
        ensures cause { IsErrOf result LinkEnd.Lost → Rose (L.faults link.old).link (L.faults link.new).link }
        ensures hidden { L.hidden link.new ≡ L.hidden link.old }
    {
        let mut up = true;
        let mut taken = false;
        *torn = false;
        match complete(
            self.alloc,
            link,
            &mut self.unread,
            &mut up,
            &mut taken,
            self.number,
            &self.selected,
            command,
        ) {
            Ok((x, now)) => {
                if !up {
                    self.end();
                    return Ok(x);
                }
                self.number += 1;
                self.selected = now;
                self.special_use = special_use_after(self.special_use, &x);
                Ok(x)
            }
            Err(end) => {
                *torn = taken;
                hang_up_where(link, up);
                *unread = mem::replace(&mut self.unread, Received::new(self.alloc));
                self.alive = false;
                self.number = 1;
                self.selected = None;
                self.special_use = false;
                Err(end)
            }
        }
    }
}
