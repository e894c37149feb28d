// The items of an Email/import, one after another (RFC 8621 section 4.8).
ghost use Rattle.std.specs.Prelude.{◌≡◌, ◌++◌, ◌||◌, ◌∷◌, [], ℕ, ℤ, IfOk, IsSome, List, Ok, Some, map};
ghost use Rattle.gate_world.specs.Causes.{Faults, LinkAlone};
ghost use Rattle.gate_world.specs.Tape.{Adds};
ghost use Rattle.gate_world.specs.declared.event.Event.{Event};
ghost use Rattle.gate_world.specs.declared.event.Event.TheVariants as moment;
ghost use Rattle.email_bodies.specs.Asking.{BodyAsk};
ghost use Rattle.email_import.specs.Messages.{import_job as import_made};
ghost use Rattle.imap_client.specs.LinkLife.{LinkLife, Stands};
ghost use Rattle.mail_state.specs.State.{IsStateOf};
ghost use Rattle.gate_machine.specs.Progress.{CameTo, Progress};
ghost use Rattle.set_order.specs.Ordered.{Item as ItemData};
ghost use Rattle.set_order.specs.reading.Creating.{HasKeys};
ghost use Rattle.set_order.specs.reading.Items.{item_data};
ghost use Rattle.set_given.specs.Given.{Given as GivenFacts, MadeFolders as Made};
ghost use Rattle.set_given.specs.reading.Givens.{IsGiven};
ghost use Rattle.set_methods.specs.Checks.{ImportRules, KnownSteps};
ghost use Rattle.set_calls.specs.Calls.{SetCall, call_begun, given_at};
ghost use Rattle.set_calls.specs.reading.Calling.{one_came};
ghost use Rattle.gate_changes.specs.Importing as spec;
ghost use Rattle.gate_changes.specs.Importing.{ChecksItem, PreparesImport};
ghost use Rattle.gate_changes.specs.Items.{DoesItemsOver};
ghost use Rattle.gate_changes.specs.reading.Asking.{CourseCame, IsOver};
ghost use Rattle.gate_changes.specs.reading.Imports.{FindsChecked, FindsOctets, ImportCame, SeeksTo, end_after, end_of};

use blob_store::BlobStore;
use email_bodies::{BodyError, BodySource};
use email_import::{ReadyImport, check_import, find_message, import_job};
use gate_machine::{Fetching, Machine, MailStatus};
use gate_world::{Clock, Link};
use imap_client::Client;
use jmap_arguments::MethodError;
use jmap_core::CreatedIds;
use mail_state::MailState;
use octets::Bytes;
use set_calls::{CallEnd, take_known};
use set_given::{Given, MadeFolders};
use set_jobs::{Done, Job, SetError};
use set_order::Item;
use std::alloc::{AllocError, Global};
use std::collections::BTreeSet;
use told_mail::Mirror;
use told_mail::laws::next_mail_joins;

// ---- the octets

/// What an item comes to by its checks: an import makes an Email, and is nothing else.
fn check_item(
    alloc: Global,
    given: &Given<'_, '_>,
    item: &Item<'_>,
) -> Result<Result<ReadyImport, SetError>, AllocError>
    ensures { (g : GivenFacts) → IsGiven given.now g → IfOk result (ChecksItem g (item_data item.now)) }
{
    match item {
        Item::Create(creation) => check_import(alloc, given, creation.object),
        _ => Ok(Err(SetError::Forbidden)),
    }
}

/// The same over what is told and what is left of the link life.
fn check_told<'k>(
    alloc: Global,
    state: &MailState,
    mirror: &Mirror,
    client: &Client,
    created: &CreatedIds,
    making: &BTreeSet<&'k str>,
    item: &Item<'_>,
) -> Result<Result<ReadyImport, SetError>, AllocError>
    ensures { (call : SetCall) (life : LinkLife) → call.created ≡ created.now → HasKeys making.now call.making → IsStateOf call.history state.now
        → Stands client.now life → IfOk result (ChecksItem (given_at call (call_begun mirror.now.mail life)) (item_data item.now)) }
{
    let made = MadeFolders::new(alloc);
    let given = Given {
        state,
        mirror,
        selected: client.selected(),
        special_use: client.alive() && client.special_use(),
        created,
        making,
        made: &made,
    };
    check_item(alloc, &given, item)
}

/// An import that is ready with its message; or why it is refused; or why its body didn't come.
fn find_octets<W, B: BodySource<W>>(
    alloc: Global,
    state: &MailState,
    uploads: &BlobStore,
    bodies: &mut B,
    world: &mut W,
    ready: ReadyImport,
) -> Result<Result<(ReadyImport, Bytes), SetError>, BodyError>
    ensures { FindsOctets B.answers B.lacks (bodies.old, world.old) (bodies.new, world.new) state.now.rows.numbered.rows uploads.now ready result }
{
    match find_message(alloc, state, uploads, bodies, world, &ready) {
        Ok(Ok(message)) => Ok(Ok((ready, message))),
        Ok(Err(error)) => Ok(Err(error)),
        Err(why) => Err(why),
    }
}

/// The same of an import that came to this by its checks.
fn find_checked<W, B: BodySource<W>>(
    alloc: Global,
    state: &MailState,
    uploads: &BlobStore,
    bodies: &mut B,
    world: &mut W,
    checked: Result<Result<ReadyImport, SetError>, AllocError>,
) -> Result<Result<(ReadyImport, Bytes), SetError>, BodyError>
    ensures { FindsChecked B.answers B.lacks (bodies.old, world.old) (bodies.new, world.new) state.now.rows.numbered.rows uploads.now checked result }
{
    match checked {
        Ok(Ok(ready)) => find_octets(alloc, state, uploads, bodies, world, ready),
        Ok(Err(error)) => Ok(Err(error)),
        Err(_) => Err(BodyError::Memory),
    }
}

/// The same of the item of a call. The body is asked in the client's link life, where it isn't kept.
fn seek<'k, L: Link>(
    alloc: Global,
    machine: &mut Machine,
    client: Client,
    link: &mut L,
    created: &CreatedIds,
    making: &BTreeSet<&'k str>,
    uploads: &BlobStore,
    item: &Item<'_>,
) -> (
    Result<Result<(ReadyImport, Bytes), SetError>, BodyError>,
    Client,
)
    requires { IsSome machine.old.known }
    ensures run { Adds (L.tape link.old) (L.tape link.new) (λ es. (call : SetCall) (before : Progress) (was : Faults) → call.created ≡ created.now
        → HasKeys making.now call.making → IsOver call before → CameTo machine.old client MailStatus.Stands was (L.faults link.old) before
        → SeeksTo call uploads.now (item_data item.now) before result.0 machine.new result.1 was (L.faults link.new) es) }
    ensures ready { IsSome machine.new.known }
    ensures alone { LinkAlone (L.faults link.old) (L.faults link.new) }
    ensures hidden { L.hidden link.new ≡ L.hidden link.old }
{
    let (served, fetching) = machine.lend(client);
    let (told, bodies, client) = fetching.into_parts();
    let state = served.state();
    let checked = check_told(alloc, state, &told, &client, created, making, item);
    let mut fetching = Fetching::new(told, bodies, client);
    let sought = find_checked(alloc, state, uploads, &mut fetching, link, checked);
    let client = machine.take_back(served, fetching);
    (sought, client)
}

// ---- one import

/// Does the steps of an import over what the machine serves, in the client's link life, or refuses it.
fn take<L: Link>(
    alloc: Global,
    machine: &mut Machine,
    client: Client,
    link: &mut L,
    made: Result<Job, SetError>,
) -> (Result<Done, CallEnd>, Client)
    requires { IsSome machine.old.known }
    ensures run { Adds (L.tape link.old) (L.tape link.new) (λ es. (call : SetCall) (item : ItemData) (before : Progress) (was : Faults) → call.rules ≡ KnownSteps made
        → IsOver call before → CameTo machine.old client MailStatus.Stands was (L.faults link.old) before
        → (mid : Progress) × DoesItemsOver call (item ∷ []) before (one_came item result.0) es mid
        × CameTo machine.new result.1 MailStatus.Stands was (L.faults link.new) mid) }
    ensures ready { IsSome machine.new.known }
    ensures alone { LinkAlone (L.faults link.old) (L.faults link.new) }
    ensures hidden { L.hidden link.new ≡ L.hidden link.old }
{
    next_mail_joins();
    let (served, fetching) = machine.lend(client);
    let (mut told, bodies, mut client) = fetching.into_parts();
    let came = take_known(alloc, &mut client, link, &mut told, made);
    let client = machine.take_back(served, Fetching::new(told, bodies, client));
    (came, client)
}

/// Does the steps of an import whose message is there, at the present moment.
fn append<L: Link + Clock>(
    alloc: Global,
    machine: &mut Machine,
    client: Client,
    link: &mut L,
    ready: ReadyImport,
    message: Bytes,
) -> (Result<Done, CallEnd>, Client)
    requires { IsSome machine.old.known }
    ensures run { Adds (L.tape link.old) (L.tape link.new) (λ es. (call : SetCall) (uploads : List (List ℕ)) (item : ItemData) (before mid : Progress)
        (asks : List BodyAsk) (asking : List Event) (was : Faults)
        → ((now : ℤ) → PreparesImport call uploads item before asks (Some (Ok (import_made ready now message))) (asking ++ moment.Clock now ∷ []) mid)
        → IsOver call before → CameTo machine.old client MailStatus.Stands was (L.faults link.old) mid
        → ImportCame call uploads item before result.0 machine.new result.1 was (L.faults link.new) (asking ++ es)) }
    ensures ready { IsSome machine.new.known }
    ensures alone { LinkAlone (L.faults link.old) (L.faults link.new) }
    ensures hidden { L.hidden link.new ≡ L.hidden link.old }
{
    let now = link.now();
    match import_job(alloc, ready, now, message) {
        Ok(job) => take(alloc, machine, client, link, Ok(job)),
        Err(_) => (Err(CallEnd::Memory), client),
    }
}

/// How a call ends by an import whose body didn't come.
fn end_of(why: BodyError) -> CallEnd
    ensures { result ≡ end_of why }
{
    match why {
        BodyError::Ended => CallEnd::Fails(MethodError::ServerUnavailable),
        BodyError::Memory => CallEnd::Memory,
    }
}

/// What an import comes to.
fn import_item<'k, L: Link + Clock>(
    alloc: Global,
    machine: &mut Machine,
    client: Client,
    link: &mut L,
    created: &CreatedIds,
    making: &BTreeSet<&'k str>,
    uploads: &BlobStore,
    item: &Item<'_>,
) -> (Result<Done, CallEnd>, Client)
    requires { IsSome machine.old.known }
    ensures run { Adds (L.tape link.old) (L.tape link.new) (λ es. (call : SetCall) (before : Progress) (was : Faults) → call.created ≡ created.now
        → HasKeys making.now call.making → IsOver call before → CameTo machine.old client MailStatus.Stands was (L.faults link.old) before
        → ImportCame call uploads.now (item_data item.now) before result.0 machine.new result.1 was (L.faults link.new) es) }
    ensures ready { IsSome machine.new.known }
    ensures alone { LinkAlone (L.faults link.old) (L.faults link.new) }
    ensures hidden { L.hidden link.new ≡ L.hidden link.old }
{
    let (sought, client) = seek(alloc, machine, client, link, created, making, uploads, item);
    match sought {
        Ok(Ok((ready, message))) => append(alloc, machine, client, link, ready, message),
        Ok(Err(error)) => take(alloc, machine, client, link, Err(error)),
        Err(why) => (Err(end_of(why)), client),
    }
}

// ---- imports in order

fn is_made(done: &Done) -> bool
    ensures { result ≡ spec.is_made done.now }
{
    match done {
        Done::Made { .. } => true,
        _ => false,
    }
}

/// Whether an Email was made, once one more import came to this.
fn made_after(made: bool, done: &Done) -> bool
    ensures { result ≡ made || spec.is_made done.now }
{
    made || is_made(done)
}

/// How a call ends by an import, after others that made an Email or made none.
fn end_after(made: bool, end: CallEnd) -> CallEnd
    ensures { result ≡ end_after made end }
{
    match end {
        CallEnd::Fails(MethodError::ServerUnavailable) if made => {
            CallEnd::Fails(MethodError::ServerPartialFail)
        }
        other => other,
    }
}

/// Takes imports in order over what the machine serves, in the client's link life. It ends with the first that ends the call: where the
/// store isn't there for it the call failed in part once an Email was made.
pub(crate) fn import_items<'k, L: Link + Clock>(
    alloc: Global,
    machine: &mut Machine,
    client: Client,
    link: &mut L,
    created: &CreatedIds,
    making: &BTreeSet<&'k str>,
    uploads: &BlobStore,
    items: &[Item<'k>],
) -> (Result<Vec<(Item<'k>, Done)>, CallEnd>, Client)
    requires { IsSome machine.old.known }
    ensures run { Adds (L.tape link.old) (L.tape link.new) (λ es. (call : SetCall) (before : Progress) (was : Faults) → call.created ≡ created.now
        → HasKeys making.now call.making → call.rules ≡ ImportRules uploads.now → IsOver call before
        → CameTo machine.old client MailStatus.Stands was (L.faults link.old) before
        → CourseCame call (map item_data items.now) before result.0 machine.new result.1 was (L.faults link.new) es) }
    ensures ready { IsSome machine.new.known }
    ensures alone { LinkAlone (L.faults link.old) (L.faults link.new) }
    ensures hidden { L.hidden link.new ≡ L.hidden link.old }
{
    let mut client = client;
    let mut done = Vec::new(alloc);
    let mut made = false;
    for item in items {
        let (came, left) = import_item(
            alloc, machine, client, link, created, making, uploads, item,
        );
        client = left;
        match came {
            Err(end) => return (Err(end_after(made, end)), client),
            Ok(one) => {
                made = made_after(made, &one);
                match done.push((*item, one)) {
                    Ok(()) => {}
                    Err(_) => return (Err(CallEnd::Memory), client),
                }
            }
        }
    }
    (Ok(done), client)
}
