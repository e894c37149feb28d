// The mail of a request, as its calls find it and leave it.
ghost use Rattle.std.specs.Prelude.{◌≡◌, ◌≢◌, ℕ, List, IfOk, IfSome, IsSome, None, Ok, Err, false};
ghost use Rattle.serde_json.specs.View.{view};
ghost use Rattle.serde_json.specs.Written.{has_float};
ghost use Rattle.jmap_core.specs.CreatedIds.{Ids};
ghost use Rattle.serde_json.specs.Data.{Data};
ghost use Rattle.set_arguments.specs.Arguments.{set_asked as set_asked_by};
ghost use Rattle.set_arguments.specs.reading.Asked.{asked_data};
ghost use Rattle.set_arguments.specs.declared.set_method.SetMethod.{SetMethod as set_type};
ghost use Rattle.gate_changes.specs.reading.Asking.{call_rules};
ghost use Rattle.gate_calls.specs.ItemChecks.{item_checks};
ghost use Rattle.gate_machine.specs.Holding.{HoldsMachine};
ghost use Rattle.gate_machine.specs.Progress.{Progress};
ghost use Rattle.gate_calls.specs.Mailings.{error_of as error_meant, mail_at};
ghost use Rattle.gate_calls.specs.RequestMail.{RequestAnswers, RequestLacks, moment_of};
ghost use Rattle.gate_calls.specs.Sources.{Gives};
ghost use Rattle.gate_calls.specs.declared.method.Method.TheVariants.{Set};

use crate::method::Method;
use crate::methods::{reply_over, reply_without};
use crate::source::CallSource;
use blob_store::BlobStore;
use gate_changes::{Answered, CallChecks, answer_change};
use gate_machine::{Machine, MailFailure, MailStatus};
use gate_world::{Chance, Clock, Link};
use imap_client::Client;
use jmap_arguments::MethodError;
use jmap_core::CreatedIds;
use serde_json::Value;
use set_arguments::{SetAsked, SetMethod, set_asked};
use set_methods::SetChecks;
use std::alloc::Global;
use std::mem;

/// What the machine serves, in what is left of the request's link life.
#[derive(Drop)]
pub struct RequestMail {
    /// What the gateway holds.
    pub machine: Machine,
    /// The client of the link life.
    pub client: Client,
    /// Whether the mail is served.
    pub status: MailStatus,
}

/// The error of calls that need the mail, where it can't be told.
pub fn error_of(why: MailFailure) -> MethodError
    ensures { result ≡ error_meant why }
{
    match why {
        MailFailure::Linked(_) => MethodError::ServerUnavailable,
        MailFailure::Spent => MethodError::ServerFail,
        MailFailure::Broken => MethodError::ServerUnavailable,
    }
}

/// What the items of a call have to pass that asks this.
fn checks_of<'u>(method: SetMethod, asked: &SetAsked<'_>, uploads: &'u BlobStore) -> CallChecks<'u>
    ensures { call_rules result ≡ item_checks uploads.now method (asked_data asked.now) }
{
    match method {
        SetMethod::EmailSet => CallChecks::Set(SetChecks::Email { uploads }),
        SetMethod::MailboxSet => CallChecks::Set(SetChecks::Mailbox {
            removes: asked.removes,
        }),
        SetMethod::EmailImport => CallChecks::Import { uploads },
    }
}

impl RequestMail {
    /// Why the mail can't be told, where it can't.
    fn untold(&self) -> Option<MethodError>
        ensures told { result ≡ None → (self.now.status ≡ MailStatus.Stands) × IsSome self.now.machine.known }
        ensures error { IfSome result (λ e. (p : Progress) → HoldsMachine p.machine self.now.machine → p.standing ≡ self.now.status → mail_at p ≡ Err e) }
    {
        match self.status {
            MailStatus::Stands => match &self.machine.known {
                Some(_) => None,
                None => Some(MethodError::ServerUnavailable),
            },
            MailStatus::Unserved(why) => Some(error_of(why)),
            MailStatus::OutOfMemory => Some(MethodError::ServerUnavailable),
        }
    }

    /// A method that reads, over what is served, which is lent to it.
    fn read<L: Link>(
        &mut self,
        alloc: Global,
        link: &mut L,
        uploads: &BlobStore,
        method: Method,
        arguments: Value,
    ) -> Result<Value, MethodError>
        requires known { IsSome self.old.machine.known }
        requires stands { self.old.status ≡ MailStatus.Stands }
        requires reads { (m : set_type) → method ≢ Set m }
        ensures meant { (created : Ids)
            → Gives (λ r. RequestAnswers uploads.now (moment_of self.old created (L.tape link.old) (L.faults link.old) (L.hidden link.old)) method (view arguments) r
            (moment_of self.new created (L.tape link.new) (L.faults link.new) (L.hidden link.new)))
            (RequestLacks uploads.now (moment_of self.old created (L.tape link.old) (L.faults link.old) (L.hidden link.old)) method (view arguments)
            (moment_of self.new created (L.tape link.new) (L.faults link.new) (L.hidden link.new))) result }
        ensures whole { IfOk result (λ value. has_float (view value) ≡ false) }
    {
        let client = mem::replace(&mut self.client, Client::new(alloc));
        let (served, mut fetching) = self.machine.lend(client);
        let came = reply_over(
            alloc,
            served.state(),
            uploads,
            &mut fetching,
            link,
            method,
            arguments,
        );
        self.client = self.machine.take_back(served, fetching);
        came
    }

    /// The items of a call that asks this are done, and what they change is served.
    fn change_asked<L: Link + Clock + Chance>(
        &mut self,
        alloc: Global,
        link: &mut L,
        uploads: &BlobStore,
        created: &mut CreatedIds,
        method: SetMethod,
        asked: &SetAsked<'_>,
    ) -> Result<Value, MethodError>
        requires known { IsSome self.old.machine.known }
        requires stands { self.old.status ≡ MailStatus.Stands }
        ensures meant { (d : Data) → set_asked_by method d ≡ Ok (asked_data asked.now)
            → Gives (λ r. RequestAnswers uploads.now (moment_of self.old created.old (L.tape link.old) (L.faults link.old) (L.hidden link.old)) (Set method) d r
            (moment_of self.new created.new (L.tape link.new) (L.faults link.new) (L.hidden link.new)))
            (RequestLacks uploads.now (moment_of self.old created.old (L.tape link.old) (L.faults link.old) (L.hidden link.old)) (Set method) d
            (moment_of self.new created.new (L.tape link.new) (L.faults link.new) (L.hidden link.new))) result }
        ensures whole { IfOk result (λ value. has_float (view value) ≡ false) }
    {
        let client = mem::replace(&mut self.client, Client::new(alloc));
        let Answered {
            answer,
            status,
            client,
        } = answer_change(
            alloc,
            &mut self.machine,
            client,
            link,
            method,
            asked,
            checks_of(method, asked, uploads),
            created,
        );
        self.client = client;
        self.status = status;
        answer
    }

    /// A method that changes the mail that is served.
    fn change<L: Link + Clock + Chance>(
        &mut self,
        alloc: Global,
        link: &mut L,
        uploads: &BlobStore,
        created: &mut CreatedIds,
        method: SetMethod,
        arguments: &Value,
    ) -> Result<Value, MethodError>
        requires known { IsSome self.old.machine.known }
        requires stands { self.old.status ≡ MailStatus.Stands }
        ensures meant { Gives (λ r. RequestAnswers uploads.now (moment_of self.old created.old (L.tape link.old) (L.faults link.old) (L.hidden link.old)) (Set method) (view arguments.now) r
            (moment_of self.new created.new (L.tape link.new) (L.faults link.new) (L.hidden link.new)))
            (RequestLacks uploads.now (moment_of self.old created.old (L.tape link.old) (L.faults link.old) (L.hidden link.old)) (Set method) (view arguments.now)
            (moment_of self.new created.new (L.tape link.new) (L.faults link.new) (L.hidden link.new))) result }
        ensures whole { IfOk result (λ value. has_float (view value) ≡ false) }
    {
        match set_asked(alloc, method, arguments) {
            Ok(asked) => self.change_asked(alloc, link, uploads, created, method, &asked),
            Err(refusal) => Err(refusal),
        }
    }

    /// A method over the mail that is served.
    fn reply_told<L: Link + Clock + Chance>(
        &mut self,
        alloc: Global,
        link: &mut L,
        uploads: &BlobStore,
        created: &mut CreatedIds,
        method: Method,
        arguments: Value,
    ) -> Result<Value, MethodError>
        requires known { IsSome self.old.machine.known }
        requires stands { self.old.status ≡ MailStatus.Stands }
        ensures meant { Gives (λ r. RequestAnswers uploads.now (moment_of self.old created.old (L.tape link.old) (L.faults link.old) (L.hidden link.old)) method (view arguments) r
            (moment_of self.new created.new (L.tape link.new) (L.faults link.new) (L.hidden link.new)))
            (RequestLacks uploads.now (moment_of self.old created.old (L.tape link.old) (L.faults link.old) (L.hidden link.old)) method (view arguments)
            (moment_of self.new created.new (L.tape link.new) (L.faults link.new) (L.hidden link.new))) result }
        ensures whole { IfOk result (λ value. has_float (view value) ≡ false) }
    {
        match method {
            Method::Set(method) => {
                self.change(alloc, link, uploads, created, method, &arguments)
            }
            _ => self.read(alloc, link, uploads, method, arguments),
        }
    }
}

impl<L: Link + Clock + Chance> CallSource<L> for RequestMail {
    ghost use Rattle.gate_calls.specs.RequestMail.{RequestAnswers, RequestLacks, moment_of};

    ghost answers = { λ uploads before m d r after. RequestAnswers uploads
        (moment_of before.0.0 before.1 (L.tape before.0.1) (L.faults before.0.1) (L.hidden before.0.1)) m d r
        (moment_of after.0.0 after.1 (L.tape after.0.1) (L.faults after.0.1) (L.hidden after.0.1)) };

    ghost lacks = { λ uploads before m d after. RequestLacks uploads
        (moment_of before.0.0 before.1 (L.tape before.0.1) (L.faults before.0.1) (L.hidden before.0.1)) m d
        (moment_of after.0.0 after.1 (L.tape after.0.1) (L.faults after.0.1) (L.hidden after.0.1)) };

    fn reply(
        &mut self,
        alloc: Global,
        link: &mut L,
        uploads: &BlobStore,
        created: &mut CreatedIds,
        method: Method,
        arguments: Value,
    ) -> Result<Value, MethodError> {
        match self.untold() {
            Some(error) => reply_without(alloc, method, error, arguments),
            None => self.reply_told(alloc, link, uploads, created, method, arguments),
        }
    }
}
