// What is known of the mail.
ghost use Rattle.std.specs.Prelude.{◌≡◌, ◌↔◌, IsTrue, IsErrOf, IfOk, OnOk, OnErr, true};
ghost use Rattle.gate_world.specs.Causes.{Rose, LinkAlone};
ghost use Rattle.gate_world.specs.Tape.{Adds};
ghost use Rattle.imap_client.specs.LinkLife.{LinkLife, Stands, fresh};
ghost use Rattle.imap_client.specs.Rounds.{KeepsCount, Rounds};
ghost use Rattle.mail_state.specs.History.{first_history};
ghost use Rattle.gate_machine.specs.History.{KnownMail, known_mail, Advanced, Commits, IsNewMail, IsSpent};
ghost use Rattle.gate_machine.specs.Kept.{IsKeptOf, IsSameSince};
ghost use Rattle.told_mail.specs.Mail.{SameMail};

use crate::differences::folders_differ;
use crate::fetching::Fetching;
use crate::mail_status::CommitEnd;
use email_bodies::BodyCache;
use gate_world::Link;
use imap_client::{Client, LinkEnd};
use mail_state::laws::first_stands;
use mail_state::{MailState, StateError};
use std::alloc::{AllocError, Global};
use std::marker::Model;
use told_mail::Mirror;

/// What is known of the mail: the state that is served, the mail that it was made of, the mail told since, and the bodies of Emails
/// that are kept.
#[derive(Drop)]
pub struct Known {
    state: MailState,
    served: Mirror,
    told: Mirror,
    /// The count of changes of the told mail as it was last the same as the served.
    same_at: u64,
    bodies: BodyCache,
}

impl Model for Known {
    ghost use Rattle.std.specs.Prelude.{◌≡◌, ◌≤◌, ◌<◌, ◌^◌, ◌-◌};
    ghost use Rattle.told_mail.specs.Mail.{SameMail};
    ghost use Rattle.gate_machine.specs.Kept.{KeptMail};

    ghost Value = { KeptMail };

    ghost view = { λ k. record { state = k.state; served = k.served.mail; told = k.told; bodies = k.bodies } };

    ghost invariant = { λ k. (k.same_at ≤ k.told.changes)
        × (k.told.changes ≡ k.same_at → k.told.changes < 2 ^ 64 - 1 → SameMail k.served.mail k.told.mail) };
}

impl Known {
    /// An epoch begins, with no mail.
    pub fn begun(alloc: Global, epoch: u64) -> Result<Known, AllocError>
        ensures { IfOk result (λ known. IsKeptOf (known_mail (first_history epoch)) known) }
    {
        first_stands();
        let state = MailState::new(alloc, epoch)?;
        Ok(Known {
            state,
            served: Mirror::new(alloc),
            told: Mirror::new(alloc),
            same_at: 0,
            bodies: BodyCache::new(alloc)?,
        })
    }

    /// What is served.
    pub fn state(&self) -> &MailState
        ensures { result.now ≡ self.now.state }
    {
        &self.state
    }

    /// Whether the told mail is the same as the served. Where no exchange changed it since they were, nothing is compared;
    /// headers are only where all else is the same.
    fn is_same(&self) -> bool
        ensures { IsTrue result ↔ SameMail self.now.served self.now.told.mail }
    {
        let changes = self.told.changes();
        if changes == self.same_at && changes < u64::MAX {
            return true;
        }
        if folders_differ(self.served.folders(), self.told.folders()) {
            return false;
        }
        self.served.same_mail(&self.told)
    }

    // The told mail, which is new, is served.
    fn serve_told(self) -> Result<Known, CommitEnd>
        ensures ok { IfOk result (λ new. (k : KnownMail) → IsKeptOf k self → IsNewMail k → (l : KnownMail) × Advanced k l × IsKeptOf l new) }
        ensures spent { IsErrOf result CommitEnd.Spent → (k : KnownMail) → IsKeptOf k self → IsSpent k }
    {
        let Known {
            state,
            told,
            bodies,
            ..
        } = self;
        let Ok(served) = told.copy() else {
            return Err(CommitEnd::Memory);
        };
        let same_at = told.changes();
        match state.apply(&told) {
            Ok((state, _)) => Ok(Known {
                state,
                served,
                told,
                same_at,
                bodies,
            }),
            Err(StateError::Spent { .. }) => Err(CommitEnd::Spent),
            Err(StateError::Memory) => Err(CommitEnd::Memory),
        }
    }

    /// The told mail is served from now on: where it is new, what has become of the mail goes on to it.
    pub fn commit(self) -> Result<Known, CommitEnd>
        ensures ok { IfOk result (λ new. (k : KnownMail) → IsKeptOf k self → (l : KnownMail) × Commits k l × IsKeptOf l new) }
        ensures spent { IsErrOf result CommitEnd.Spent → (k : KnownMail) → IsKeptOf k self → IsNewMail k × IsSpent k }
    {
        if !self.is_same() {
            return self.serve_told();
        }
        let mut known = self;
        known.same_at = known.told.changes();
        Ok(known)
    }

    /// Asks for all mail, and is told what completed exchanges tell. Out of memory leaves the told mail undetermined.
    pub fn ask<L: Link>(&mut self, client: &mut Client, link: &mut L) -> Result<(), LinkEnd>
        requires { client.old.alive ≡ true }
        ensures tape { Adds (L.tape link.old) (L.tape link.new) (λ es. (life : LinkLife) → Stands client.old life → (left : LinkLife)
            × (rounds : Rounds self.old.told.mail self.new.told.mail life left client.new result es) × KeepsCount self.old.told self.new.told result rounds.exchanges) }
        ensures state { self.new.state ≡ self.old.state }
        ensures served { self.new.served ≡ self.old.served }
        ensures bodies { self.new.bodies ≡ self.old.bodies }
        ensures alive { OnOk result (client.new.alive ≡ true) }
        ensures ended { OnErr result (client.new ≡ fresh) }
        ensures alone { LinkAlone (L.faults link.old) (L.faults link.new) }
        ensures cause { IsErrOf result LinkEnd.Lost → Rose (L.faults link.old).link (L.faults link.new).link }
        ensures hidden { L.hidden link.new ≡ L.hidden link.old }
    {
        client.round(link, &mut self.told)
    }
}

/// The part of what is known that calls over the link leave as it is.
#[derive(Drop)]
pub struct ServedPart {
    state: MailState,
    mail: Mirror,
    same_at: u64,
}

impl Model for ServedPart {
    ghost use Rattle.gate_machine.specs.Kept.{ServedMail};

    ghost Value = { ServedMail };

    ghost view = { λ m. record { state = m.state; served = m.mail.mail; same_at = m.same_at } };
}

impl ServedPart {
    /// What is served.
    pub fn state(&self) -> &MailState
        ensures { result.now ≡ self.now.state }
    {
        &self.state
    }
}

impl Known {
    /// What calls may look at, and where they get bodies over this client's link life.
    pub(crate) fn lend(self, client: Client) -> (ServedPart, Fetching)
        ensures state { result.0.state ≡ self.state }
        ensures served { result.0.served ≡ self.served }
        ensures fetching { result.1 ≡ record { told = self.told; bodies = self.bodies; client = client } }
        ensures same { IsSameSince result.0 result.1.told }
    {
        let Known {
            state,
            served,
            told,
            same_at,
            bodies,
        } = self;
        let fetching = Fetching::new(told, bodies, client);
        let served = ServedPart {
            state,
            mail: served,
            same_at,
        };
        (served, fetching)
    }

    /// What was lent is known again, and the client.
    pub(crate) fn returned(served: ServedPart, fetching: Fetching) -> (Known, Client)
        requires { IsSameSince served fetching.told }
        ensures known { result.0 ≡ record { state = served.state; served = served.served; told = fetching.told; bodies = fetching.bodies } }
        ensures client { result.1 ≡ fetching.client }
    {
        let ServedPart {
            state,
            mail,
            same_at,
        } = served;
        let (told, bodies, client) = fetching.into_parts();
        let known = Known {
            state,
            served: mail,
            told,
            same_at,
            bodies,
        };
        (known, client)
    }
}
