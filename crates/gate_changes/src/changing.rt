// The items of a call that changes mail, and then one commit.
ghost use Rattle.std.specs.Prelude.{◌≡◌, ◌++◌, Err, IsSome, List, OnOk, map};
ghost use Rattle.gate_world.specs.Causes.{Faults, LinkAlone};
ghost use Rattle.gate_world.specs.Tape.{Adds};
ghost use Rattle.gate_world.specs.declared.event.Event.{Event};
ghost use Rattle.imap_exchange.specs.Answering.{HangsUp};
ghost use Rattle.gate_machine.specs.Progress.{CameTo, Progress, is_up};
ghost use Rattle.gate_machine.specs.declared.machine.Machine.{Machine as MachineKept};
ghost use Rattle.set_order.specs.Ordered.{Item as ItemData};
ghost use Rattle.set_order.specs.reading.Creating.{HasKeys};
ghost use Rattle.set_order.specs.reading.Items.{item_data};
ghost use Rattle.set_calls.specs.Calls.{SetCall};
ghost use Rattle.set_calls.specs.declared.call.CallEnd.TheVariants as ends;
ghost use Rattle.set_calls.specs.reading.Calling.{came_data};
ghost use Rattle.set_methods.specs.reading.Choosing.{rules_of};
ghost use Rattle.gate_changes.specs.Changing.{DoesCourse, GoesToCommit, broken_off};
ghost use Rattle.gate_changes.specs.Items.{DoesItemsOver};
ghost use Rattle.gate_changes.specs.reading.Asking.{ChangesTo, CourseCame, IsAtEnd, IsOver, call_rules};

use crate::importing::import_items;
use blob_store::BlobStore;
use gate_machine::{Fetching, Machine, MailFailure, MailStatus};
use gate_world::{Chance, Clock, Link};
use imap_client::Client;
use jmap_arguments::MethodError;
use jmap_core::CreatedIds;
use set_calls::{Call, CallEnd, run_items};
use set_jobs::Done;
use set_methods::SetChecks;
use set_order::Item;
use std::alloc::Global;
use std::collections::BTreeSet;
use told_mail::laws::next_mail_joins;

/// What a call that changes mail comes to.
#[derive(Drop)]
pub struct Changed<'k> {
    /// What its items came to, where what they changed is served.
    pub came: Result<Vec<(Item<'k>, Done)>, CallEnd>,
    /// Whether later calls of the request have the mail.
    pub status: MailStatus,
    /// The client, whose link life goes on as far as that stands.
    pub client: Client,
}

/// What the items of a call have to pass.
#[derive(Clone, Copy)]
pub enum CallChecks<'u> {
    /// The checks of Email/set, or of Mailbox/set.
    Set(SetChecks<'u>),
    /// Those of Email/import.
    Import {
        /// Where blobs are sought, beside the Emails.
        uploads: &'u BlobStore,
    },
}

/// Does the items in a row over what the machine serves, in the client's link life. The machine knows what they told.
fn do_items<'k, L: Link + Clock + Chance>(
    alloc: Global,
    machine: &mut Machine,
    client: Client,
    link: &mut L,
    created: &CreatedIds,
    making: &BTreeSet<&'k str>,
    checks: SetChecks<'_>,
    items: &[Item<'k>],
) -> (Result<Vec<(Item<'k>, Done)>, CallEnd>, Client)
    requires { IsSome machine.old.known }
    ensures run { Adds (L.tape link.old) (L.tape link.new) (λ es. (call : SetCall) (before : Progress) (was : Faults) → call.created ≡ created.now
        → HasKeys making.now call.making → call.rules ≡ rules_of checks.entry → IsOver call before
        → CameTo machine.old client MailStatus.Stands was (L.faults link.old) before
        → (mid : Progress) × DoesItemsOver call (map item_data items.now) before (came_data result.0) es mid
        × CameTo machine.new result.1 MailStatus.Stands was (L.faults link.new) mid) }
    ensures ready { IsSome machine.new.known }
    ensures alone { LinkAlone (L.faults link.old) (L.faults link.new) }
    ensures hidden { L.hidden link.new ≡ L.hidden link.old }
{
    next_mail_joins();
    let (served, fetching) = machine.lend(client);
    let (mut told, bodies, mut client) = fetching.into_parts();
    let call = Call {
        state: served.state(),
        created,
        making,
        checks,
    };
    let came = run_items(alloc, &mut client, link, &mut told, &call, items);
    let client = machine.take_back(served, Fetching::new(told, bodies, client));
    (came, client)
}

/// Does the items over what the machine serves, in the client's link life: in a row, or, where they are imports, each once its body was
/// asked.
fn do_course<'k, L: Link + Clock + Chance>(
    alloc: Global,
    machine: &mut Machine,
    client: Client,
    link: &mut L,
    created: &CreatedIds,
    making: &BTreeSet<&'k str>,
    checks: CallChecks<'_>,
    items: &[Item<'k>],
) -> (Result<Vec<(Item<'k>, Done)>, CallEnd>, Client)
    requires { IsSome machine.old.known }
    ensures run { Adds (L.tape link.old) (L.tape link.new) (λ es. (call : SetCall) (before : Progress) (was : Faults) → call.created ≡ created.now
        → HasKeys making.now call.making → call.rules ≡ call_rules checks.entry → IsOver call before
        → CameTo machine.old client MailStatus.Stands was (L.faults link.old) before
        → CourseCame call (map item_data items.now) before result.0 machine.new result.1 was (L.faults link.new) es) }
    ensures ready { IsSome machine.new.known }
    ensures alone { LinkAlone (L.faults link.old) (L.faults link.new) }
    ensures hidden { L.hidden link.new ≡ L.hidden link.old }
{
    match checks {
        CallChecks::Set(checks) => {
            do_items(alloc, machine, client, link, created, making, checks, items)
        }
        CallChecks::Import { uploads } => {
            import_items(
                alloc, machine, client, link, created, making, uploads, items,
            )
        }
    }
}

/// The link life ends, and no later call of the request has the mail.
fn break_off<'k, L: Link>(client: Client, link: &mut L, error: MethodError) -> Changed<'k>
    ensures run { Adds (L.tape link.old) (L.tape link.new) (λ es. (p : Progress) (machine : MachineKept) (how : MailStatus) (was : Faults)
        → CameTo machine client how was (L.faults link.old) p
        → HangsUp (is_up p.left) es × CameTo machine result.client result.status was (L.faults link.new) (broken_off p)) }
    ensures came { result.came ≡ Err (ends.Fails error) }
    ensures alone { LinkAlone (L.faults link.old) (L.faults link.new) }
    ensures hidden { L.hidden link.new ≡ L.hidden link.old }
    ensures status { result.status ≡ MailStatus.Unserved MailFailure.Broken }
{
    let mut client = client;
    client.leave(link);
    Changed {
        came: Err(CallEnd::Fails(error)),
        status: MailStatus::Unserved(MailFailure::Broken),
        client,
    }
}

/// What the items told is served.
fn commit<'k, L: Link>(
    machine: &mut Machine,
    client: Client,
    link: &mut L,
    came: Result<Vec<(Item<'k>, Done)>, CallEnd>,
) -> Changed<'k>
    requires { IsSome machine.old.known }
    ensures run { Adds (L.tape link.old) (L.tape link.new) (λ es. (call : SetCall) (items : List ItemData) (before mid : Progress) (doing : List Event) (was : Faults)
        → DoesCourse call items before (came_data came.entry) doing mid → GoesToCommit (came_data came.entry)
        → CameTo machine.old client MailStatus.Stands was (L.faults link.old) mid
        → ChangesTo call items before result.came machine.new result.client result.status was (L.faults link.new) (doing ++ es)) }
    ensures ready { result.status ≡ MailStatus.Stands → IsSome machine.new.known }
    ensures served { OnOk result.came (IsSome machine.new.known) }
    ensures alone { LinkAlone (L.faults link.old) (L.faults link.new) }
    ensures hidden { L.hidden link.new ≡ L.hidden link.old }
{
    match machine.settle() {
        MailStatus::Stands => Changed {
            came,
            status: MailStatus::Stands,
            client,
        },
        MailStatus::Unserved(_) => break_off(client, link, MethodError::ServerFail),
        MailStatus::OutOfMemory => Changed {
            came: Err(CallEnd::Memory),
            status: MailStatus::OutOfMemory,
            client,
        },
    }
}

/// Where an item ended the call as the store wasn't there, what was told is served all the same; where the call failed in part it isn't.
fn finish_failed<'k, L: Link>(
    machine: &mut Machine,
    client: Client,
    link: &mut L,
    error: MethodError,
) -> Changed<'k>
    requires { IsSome machine.old.known }
    ensures run { Adds (L.tape link.old) (L.tape link.new) (λ es. (call : SetCall) (items : List ItemData) (before mid : Progress) (doing : List Event) (was : Faults)
        → DoesCourse call items before (came_data (Err (ends.Fails error))) doing mid
        → CameTo machine.old client MailStatus.Stands was (L.faults link.old) mid
        → ChangesTo call items before result.came machine.new result.client result.status was (L.faults link.new) (doing ++ es)) }
    ensures ready { result.status ≡ MailStatus.Stands → IsSome machine.new.known }
    ensures served { OnOk result.came (IsSome machine.new.known) }
    ensures alone { LinkAlone (L.faults link.old) (L.faults link.new) }
    ensures hidden { L.hidden link.new ≡ L.hidden link.old }
{
    match error {
        MethodError::ServerUnavailable => {
            commit(
                machine,
                client,
                link,
                Err(CallEnd::Fails(MethodError::ServerUnavailable)),
            )
        }
        _ => break_off(client, link, error),
    }
}

/// Where memory ran out the machine isn't ready.
fn finish_ended<'k, L: Link>(
    machine: &mut Machine,
    client: Client,
    link: &mut L,
    end: CallEnd,
) -> Changed<'k>
    requires { IsSome machine.old.known }
    ensures run { Adds (L.tape link.old) (L.tape link.new) (λ es. (call : SetCall) (items : List ItemData) (before mid : Progress) (doing : List Event) (was : Faults)
        → DoesCourse call items before (came_data (Err end)) doing mid → IsAtEnd (Err end) machine.old client was (L.faults link.old) mid
        → ChangesTo call items before result.came machine.new result.client result.status was (L.faults link.new) (doing ++ es)) }
    ensures ready { result.status ≡ MailStatus.Stands → IsSome machine.new.known }
    ensures served { OnOk result.came (IsSome machine.new.known) }
    ensures alone { LinkAlone (L.faults link.old) (L.faults link.new) }
    ensures hidden { L.hidden link.new ≡ L.hidden link.old }
{
    match end {
        CallEnd::Fails(error) => finish_failed(machine, client, link, error),
        CallEnd::Memory => {
            machine.forget();
            Changed {
                came: Err(CallEnd::Memory),
                status: MailStatus::OutOfMemory,
                client,
            }
        }
    }
}

/// What the items told is served, unless the call failed in part or memory ran out.
fn finish<'k, L: Link>(
    machine: &mut Machine,
    client: Client,
    link: &mut L,
    came: Result<Vec<(Item<'k>, Done)>, CallEnd>,
) -> Changed<'k>
    requires { IsSome machine.old.known }
    ensures run { Adds (L.tape link.old) (L.tape link.new) (λ es. (call : SetCall) (items : List ItemData) (before mid : Progress) (doing : List Event) (was : Faults)
        → DoesCourse call items before (came_data came.entry) doing mid → IsAtEnd came.entry machine.old client was (L.faults link.old) mid
        → ChangesTo call items before result.came machine.new result.client result.status was (L.faults link.new) (doing ++ es)) }
    ensures ready { result.status ≡ MailStatus.Stands → IsSome machine.new.known }
    ensures served { OnOk result.came (IsSome machine.new.known) }
    ensures alone { LinkAlone (L.faults link.old) (L.faults link.new) }
    ensures hidden { L.hidden link.new ≡ L.hidden link.old }
{
    match came {
        Ok(done) => commit(machine, client, link, Ok(done)),
        Err(end) => finish_ended(machine, client, link, end),
    }
}

/// Does the items of a call in order over what the machine serves, in the client's link life, and serves what they told. Where the call
/// failed in part, or a place would pass the last one, the link life ends and no later call of the request has the mail.
pub fn change_mail<'k, L: Link + Clock + Chance>(
    alloc: Global,
    machine: &mut Machine,
    client: Client,
    link: &mut L,
    created: &CreatedIds,
    making: &BTreeSet<&'k str>,
    checks: CallChecks<'_>,
    items: &[Item<'k>],
) -> Changed<'k>
    requires { IsSome machine.old.known }
    ensures run { Adds (L.tape link.old) (L.tape link.new) (λ es. (call : SetCall) (before : Progress) (was : Faults) → call.created ≡ created.now
        → HasKeys making.now call.making → call.rules ≡ call_rules checks.entry → IsOver call before
        → CameTo machine.old client MailStatus.Stands was (L.faults link.old) before
        → ChangesTo call (map item_data items.now) before result.came machine.new result.client result.status was (L.faults link.new) es) }
    ensures ready { result.status ≡ MailStatus.Stands → IsSome machine.new.known }
    ensures served { OnOk result.came (IsSome machine.new.known) }
    ensures alone { LinkAlone (L.faults link.old) (L.faults link.new) }
    ensures hidden { L.hidden link.new ≡ L.hidden link.old }
{
    let (came, client) = do_course(alloc, machine, client, link, created, making, checks, items);
    finish(machine, client, link, came)
}
