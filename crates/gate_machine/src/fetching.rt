// Where a request's calls get the bodies of Emails.
ghost use Rattle.std.specs.Prelude.{◌≡◌, ◌≢◌, ℕ, List, Some, None, Ok, Err, IfOk, OnOk, OnErr, IsErrOf, Result, false, true, MatchOption};
ghost use Rattle.email_bodies.specs.Keeping.{body_at, after_use, with_body};
ghost use Rattle.email_bodies.specs.declared.error.BodyError.TheVariants as failure;
ghost use Rattle.gate_machine.specs.Lending.{AnswersBody, RunsOut};

use email_bodies::{BodyCache, BodyError, BodySource, MessagePlace};
use gate_world::Link;
use imap_client::{Client, LinkEnd};
use octets::Bytes;
use std::alloc::AllocError;
use std::marker::Model;
use told_mail::Mirror;
use told_mail::laws::next_mail_joins;

/// The bodies that are kept, and the store, while the client's link life goes on. A call that changes mail takes it apart: it tells the
/// mirror what it exchanges, and puts together what is left.
#[derive(Drop)]
pub struct Fetching {
    told: Mirror,
    bodies: BodyCache,
    client: Client,
}

impl Model for Fetching {
    ghost use Rattle.gate_machine.specs.Lending.{SourceState};

    ghost Value = { SourceState };

    ghost view = { λ f. record { told = f.told; bodies = f.bodies; client = f.client } };
}

/// Why no body came, where a fetch came to this end.
fn error_of(end: LinkEnd) -> BodyError
    ensures memory { result ≡ failure.Memory → end ≡ LinkEnd.Memory }
    ensures ended { result ≡ failure.Ended → end ≢ LinkEnd.Memory }
{
    match end {
        LinkEnd::Memory => BodyError::Memory,
        _ => BodyError::Ended,
    }
}

impl Fetching {
    /// What is told, the bodies that are kept, and the client.
    pub fn new(told: Mirror, bodies: BodyCache, client: Client) -> Fetching
        ensures { result ≡ record { told = told; bodies = bodies; client = client } }
    {
        Fetching {
            told,
            bodies,
            client,
        }
    }

    /// The same, in parts.
    pub fn into_parts(self) -> (Mirror, BodyCache, Client)
        ensures told { result.0 ≡ self.told }
        ensures bodies { result.1 ≡ self.bodies }
        ensures client { result.2 ≡ self.client }
    {
        let Fetching {
            told,
            bodies,
            client,
        } = self;
        (told, bodies, client)
    }

    /// Keeps the body, and gives it. An Err keeps what there was.
    fn keep(&mut self, email: u64, body: Bytes) -> Result<Bytes, AllocError>
        ensures body { IfOk result (λ octets. octets ≡ body) }
        ensures kept { OnOk result (self.new ≡ record self.old { bodies = with_body email body self.old.bodies }) }
        ensures err { OnErr result (self.new ≡ self.old) }
    {
        let shared = body.share()?;
        self.bodies.put(email, body)?;
        Ok(shared)
    }

    /// Keeps the body that came.
    fn keep_told(&mut self, email: u64, body: Bytes) -> Result<Bytes, BodyError>
        ensures body { IfOk result (λ octets. octets ≡ body) }
        ensures kept { OnOk result (self.new ≡ record self.old { bodies = with_body email body self.old.bodies }) }
        ensures err { OnErr result (self.new ≡ self.old) }
        ensures cause { OnErr result (IsErrOf result failure.Memory) }
    {
        match self.keep(email, body) {
            Ok(body) => Ok(body),
            Err(_) => Err(BodyError::Memory),
        }
    }

    /// Asks the store in the link life, which goes on.
    fn ask<L: Link>(&mut self, link: &mut L, message: MessagePlace) -> Result<Bytes, BodyError>
        requires alive { self.old.client.alive ≡ true }
        requires lacks { body_at self.old.bodies message.email ≡ None }
        ensures body { IfOk result (λ octets. AnswersBody message (Some octets)
            (record { source = self.old; tape = L.tape link.old; faults = L.faults link.old; hidden = L.hidden link.old })
            (record { source = self.new; tape = L.tape link.new; faults = L.faults link.new; hidden = L.hidden link.new })) }
        ensures ended { IsErrOf result failure.Ended → AnswersBody message None
            (record { source = self.old; tape = L.tape link.old; faults = L.faults link.old; hidden = L.hidden link.old })
            (record { source = self.new; tape = L.tape link.new; faults = L.faults link.new; hidden = L.hidden link.new }) }
        ensures memory { IsErrOf result failure.Memory → RunsOut message
            (record { source = self.old; tape = L.tape link.old; faults = L.faults link.old; hidden = L.hidden link.old })
            (record { source = self.new; tape = L.tape link.new; faults = L.faults link.new; hidden = L.hidden link.new }) }
    {
        next_mail_joins();
        let came = self
            .client
            .fetch_body(link, &mut self.told, message.folder, message.uid);
        match came {
            Ok(body) => self.keep_told(message.email, body),
            Err(end) => Err(error_of(end)),
        }
    }

    /// Asks the store, where the link life goes on.
    fn ask_alive<L: Link>(
        &mut self,
        link: &mut L,
        message: MessagePlace,
    ) -> Result<Bytes, BodyError>
        requires { body_at self.old.bodies message.email ≡ None }
        ensures body { IfOk result (λ octets. AnswersBody message (Some octets)
            (record { source = self.old; tape = L.tape link.old; faults = L.faults link.old; hidden = L.hidden link.old })
            (record { source = self.new; tape = L.tape link.new; faults = L.faults link.new; hidden = L.hidden link.new })) }
        ensures ended { IsErrOf result failure.Ended → AnswersBody message None
            (record { source = self.old; tape = L.tape link.old; faults = L.faults link.old; hidden = L.hidden link.old })
            (record { source = self.new; tape = L.tape link.new; faults = L.faults link.new; hidden = L.hidden link.new }) }
        ensures memory { IsErrOf result failure.Memory → RunsOut message
            (record { source = self.old; tape = L.tape link.old; faults = L.faults link.old; hidden = L.hidden link.old })
            (record { source = self.new; tape = L.tape link.new; faults = L.faults link.new; hidden = L.hidden link.new }) }
    {
        if self.client.alive() {
            self.ask(link, message)
        } else {
            Err(BodyError::Ended)
        }
    }

    /// The body, where it is kept.
    fn kept(&mut self, email: u64) -> Result<Option<Bytes>, AllocError>
        ensures found { IfOk result (λ body. body ≡ body_at self.old.bodies email) }
        ensures used { IfOk result (λ body. MatchOption body (self.new ≡ self.old)
            (λ octets. self.new ≡ record self.old { bodies = after_use email self.old.bodies })) }
        ensures err { OnErr result (self.new ≡ self.old) }
    {
        let found = self.bodies.get(email)?;
        Ok(found)
    }
}

impl<L: Link> BodySource<L> for Fetching {
    ghost use Rattle.gate_machine.specs.Lending.{AnswersBody, RunsOut};

    ghost answers = { λ before message body after. AnswersBody message body
        (record { source = before.0; tape = L.tape before.1; faults = L.faults before.1; hidden = L.hidden before.1 })
        (record { source = after.0; tape = L.tape after.1; faults = L.faults after.1; hidden = L.hidden after.1 }) };

    ghost lacks = { λ before message after. RunsOut message
        (record { source = before.0; tape = L.tape before.1; faults = L.faults before.1; hidden = L.hidden before.1 })
        (record { source = after.0; tape = L.tape after.1; faults = L.faults after.1; hidden = L.hidden after.1 }) };

    fn body(&mut self, link: &mut L, message: MessagePlace) -> Result<Bytes, BodyError> {
        match self.kept(message.email) {
            Err(_) => Err(BodyError::Memory),
            Ok(Some(body)) => Ok(body),
            Ok(None) => self.ask_alive(link, message),
        }
    }
}
