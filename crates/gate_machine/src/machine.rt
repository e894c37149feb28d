// What the gateway holds between requests.
ghost use Rattle.std.specs.Prelude.{◌≡◌, [], IfOk, IsSome, OnOk, OnErr, Err, Some};
ghost use Rattle.gate_world.specs.Causes.{Faults, NoFault};
ghost use Rattle.gate_world.specs.Tape.{Adds};
ghost use Rattle.imap_client.specs.LinkLife.{ClientState};
ghost use Rattle.gate_machine.specs.Holding.{HoldsMachine, unready};
ghost use Rattle.gate_machine.specs.History.{KnownMail};
ghost use Rattle.gate_machine.specs.Kept.{IsSameSince};
ghost use Rattle.gate_machine.specs.Lending.{HoldsSource, IsLentOf};
ghost use Rattle.gate_machine.specs.Machine.{MachineState, opened};
ghost use Rattle.gate_machine.specs.Progress.{CameTo, Progress, standing_by, kept_by};
ghost use Rattle.gate_machine.specs.Beginning.{ReadiesTo, Settles};

use crate::fetching::Fetching;
use crate::known::{Known, ServedPart};
use crate::mail_status::{CommitEnd, MailFailure, MailStatus};
use gate_world::Chance;
use imap_client::{Client, LinkEnd};
use std::alloc::{AllocError, Global};

/// What the gateway holds between requests.
#[derive(Drop)]
pub struct Machine {
    /// None where the gateway isn't ready: it begins anew with the next request that needs the mail.
    pub known: Option<Known>,
}

impl Machine {
    /// A new machine in this epoch.
    pub fn opened(alloc: Global, epoch: u64) -> Result<Machine, AllocError>
        ensures { IfOk result (λ machine. HoldsMachine (opened epoch) machine) }
    {
        let known = Known::begun(alloc, epoch)?;
        Ok(Machine { known: Some(known) })
    }

    /// It isn't ready.
    pub fn forget(&mut self)
        ensures { self.new ≡ unready self.old }
    {
        self.known = None;
    }

    /// What came to this end over the link stands, or not. Out of memory leaves the machine not ready.
    pub(crate) fn end(&mut self, ended: Result<(), LinkEnd>) -> MailStatus
        ensures standing { result ≡ standing_by ended }
        ensures machine { self.new ≡ kept_by ended self.old }
    {
        match ended {
            Ok(()) => MailStatus::Stands,
            Err(end) => self.end_by(end),
        }
    }

    fn end_by(&mut self, end: LinkEnd) -> MailStatus
        ensures standing { result ≡ standing_by (Err end) }
        ensures machine { self.new ≡ kept_by (Err end) self.old }
    {
        match end {
            LinkEnd::Memory => {
                self.forget();
                MailStatus::OutOfMemory
            }
            _ => MailStatus::Unserved(MailFailure::Linked(end)),
        }
    }

    /// What was told is served from now on: where it is new, what has become of the mail goes on to it. Where a place would pass the
    /// last one, or memory ran out, the machine isn't ready.
    pub fn settle(&mut self) -> MailStatus
        requires { IsSome self.old.known }
        ensures run { (before : Progress) (client : ClientState) (was now : Faults) → CameTo self.old client MailStatus.Stands was now before
            → (after : Progress) × Settles before [] after × CameTo self.new client result was now after }
        ensures ready { result ≡ MailStatus.Stands → IsSome self.new.known }
    {
        let Some(known) = self.known.take() else {
            unreachable!()
        };
        match known.commit() {
            Ok(known) => {
                self.known = Some(known);
                MailStatus::Stands
            }
            Err(CommitEnd::Spent) => MailStatus::Unserved(MailFailure::Spent),
            Err(CommitEnd::Memory) => MailStatus::OutOfMemory,
        }
    }

    /// What calls look at, and where they get bodies over this client's link life. The machine isn't ready until it is taken back.
    pub fn lend(&mut self, client: Client) -> (ServedPart, Fetching)
        requires { IsSome self.old.known }
        ensures lent { (p : Progress) (was now : Faults) → CameTo self.old client MailStatus.Stands was now p
            → (k : KnownMail) × (p.machine.known ≡ Some k) × IsLentOf k result.0 × HoldsSource p result.1 was now }
        ensures same { IsSameSince result.0 result.1.told }
        ensures client { result.1.client ≡ client }
        ensures out { self.new ≡ unready self.old }
    {
        let Some(known) = self.known.take() else {
            unreachable!();
        };
        known.lend(client)
    }

    /// What was lent is known again. It gives the client.
    pub fn take_back(&mut self, served: ServedPart, fetching: Fetching) -> Client
        requires { IsSameSince served fetching.told }
        ensures held { (p : Progress) (k : KnownMail) (was now : Faults) → p.machine.known ≡ Some k → IsLentOf k served → HoldsSource p fetching was now
            → HoldsMachine p.machine self.new }
        ensures ready { IsSome self.new.known }
        ensures client { result ≡ fetching.client }
    {
        let (known, client) = Known::returned(served, fetching);
        self.known = Some(known);
        client
    }

    // It begins anew in this epoch. An Err changes nothing.
    fn restart(&mut self, alloc: Global, epoch: u64) -> Result<(), AllocError>
        ensures ok { OnOk result (HoldsMachine (opened epoch) self.new) }
        ensures err { OnErr result (self.new ≡ self.old) }
        ensures ready { OnOk result (IsSome self.new.known) }
    {
        let known = Known::begun(alloc, epoch)?;
        self.known = Some(known);
        Ok(())
    }

    /// Where it isn't ready it draws an epoch, and begins with no mail.
    pub fn make_ready<C: Chance>(&mut self, alloc: Global, chance: &mut C) -> Result<(), AllocError>
        ensures tape { Adds (C.tape chance.old) (C.tape chance.new) (λ es. (before : MachineState) → HoldsMachine before self.old
            → ReadiesTo before self.new result es) }
        ensures ready { OnOk result (IsSome self.new.known) }
        ensures cause { NoFault (C.faults chance.old) (C.faults chance.new) }
        ensures hidden { C.hidden chance.new ≡ C.hidden chance.old }
    {
        match &self.known {
            Some(_) => Ok(()),
            None => {
                let epoch = chance.word();
                self.restart(alloc, epoch)
            }
        }
    }
}
