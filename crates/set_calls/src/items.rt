// The items of a call, one after another.
ghost use Rattle.std.specs.Prelude.{◌≡◌, ◌≢◌, ◌∷◌, [], Bool, Err, IfOk, Ok, OnOk, List, false, map};
ghost use Rattle.gate_world.specs.Causes.{LinkAlone, NoFault, RoseBy};
ghost use Rattle.gate_world.specs.Tape.{Adds};
ghost use Rattle.told_mail.specs.Mail.{IsNextMail};
ghost use Rattle.imap_client.specs.LinkLife.{LinkLife, Stands};
ghost use Rattle.imap_client.specs.Rounds.{CountsOn};
ghost use Rattle.set_order.specs.Ordered.{Item as ItemData};
ghost use Rattle.set_order.specs.reading.Items.{item_data};
ghost use Rattle.set_given.specs.Given.{MadeFolders as Made};
ghost use Rattle.set_given.specs.reading.Makings.{IsMade};
ghost use Rattle.set_items.specs.declared.item.ItemEnd.TheVariants.{Comes, OutOfMemory};
ghost use Rattle.set_items.specs.Ends.{any_change};
ghost use Rattle.set_items.specs.Talks.{AllReadKnown};
ghost use Rattle.set_methods.specs.Checks.{Checks, KnownSteps};
ghost use Rattle.set_calls.specs.Calls.{CallState, RunsItems, SetCall, StepsItem, call_begun, given_at, made_with};
ghost use Rattle.set_calls.specs.reading.Calling.{IsAt, IsCall, IsPreparedSo, ItemCame, Leaves, came_data, came_end, one_came};

use crate::call::{Call, CallEnd};
use gate_world::{Chance, Clock, Link};
use imap_client::Client;
use set_given::{Given, MadeFolders};
use set_items::{ItemEnd, do_item};
use set_jobs::{Done, Job, SetError};
use set_methods::{Passed, make};
use set_order::Item;
use std::alloc::{AllocError, Global};
use told_mail::Mirror;
use told_mail::laws::next_mail_joins;

/// What the item comes to by its checks at this point of the call.
fn check_item<'k>(
    alloc: Global,
    client: &Client,
    mirror: &Mirror,
    call: &Call<'_, 'k>,
    made: &MadeFolders<'k>,
    item: &Item<'_>,
) -> Result<Result<Passed, SetError>, AllocError>
    ensures { (c : SetCall) (s : CallState) (changed : Bool) → IsCall call.now c → IsAt client.now mirror.now.mail made.now changed s
        → IfOk result (λ came. Checks c.rules (given_at c s) (item_data item.now) came) }
{
    let given = Given {
        state: call.state,
        mirror,
        selected: client.selected(),
        special_use: client.alive() && client.special_use(),
        created: call.created,
        making: call.making,
        made,
    };
    call.checks.check(alloc, &given, item)
}

/// The steps of an item that passed its checks, or why it is refused all the same. A moment and a word are drawn where its steps are
/// made of them.
fn steps_of<W: Clock + Chance>(
    alloc: Global,
    world: &mut W,
    passed: Passed,
) -> Result<Result<Job, SetError>, AllocError>
    ensures tape { Adds (W.tape world.old) (W.tape world.new) (λ es. (c : SetCall) (s : CallState) (item : ItemData)
        → Checks c.rules (given_at c s) item (Ok passed) → IsPreparedSo c s item result es) }
    ensures cause { NoFault (W.faults world.old) (W.faults world.new) }
    ensures hidden { W.hidden world.new ≡ W.hidden world.old }
{
    match passed {
        Passed::Steps(job) => Ok(Ok(job)),
        Passed::Drawing(ready) => {
            let now = world.now();
            let word = world.word();
            make(alloc, ready, now, word)
        }
    }
}

/// The steps of an item that came to this by its checks, or why it is refused.
fn settle<W: Clock + Chance>(
    alloc: Global,
    world: &mut W,
    checked: Result<Passed, SetError>,
) -> Result<Result<Job, SetError>, AllocError>
    ensures tape { Adds (W.tape world.old) (W.tape world.new) (λ es. (c : SetCall) (s : CallState) (item : ItemData)
        → Checks c.rules (given_at c s) item checked → IsPreparedSo c s item result es) }
    ensures cause { NoFault (W.faults world.old) (W.faults world.new) }
    ensures hidden { W.hidden world.new ≡ W.hidden world.old }
{
    match checked {
        Ok(passed) => steps_of(alloc, world, passed),
        Err(error) => Ok(Err(error)),
    }
}

/// The steps of the item at this point of the call, or why it is refused.
fn prepare_item<'k, W: Clock + Chance>(
    alloc: Global,
    client: &Client,
    world: &mut W,
    mirror: &Mirror,
    call: &Call<'_, 'k>,
    made: &MadeFolders<'k>,
    item: &Item<'_>,
) -> Result<Result<Job, SetError>, AllocError>
    ensures tape { Adds (W.tape world.old) (W.tape world.new) (λ es. (c : SetCall) (s : CallState) (changed : Bool) → IsCall call.now c
        → IsAt client.now mirror.now.mail made.now changed s → IsPreparedSo c s (item_data item.now) result es) }
    ensures cause { NoFault (W.faults world.old) (W.faults world.new) }
    ensures hidden { W.hidden world.new ≡ W.hidden world.old }
{
    match check_item(alloc, client, mirror, call, made, item) {
        Ok(checked) => settle(alloc, world, checked),
        Err(error) => Err(error),
    }
}

/// Does the steps of an item.
fn do_steps<L: Link>(
    alloc: Global,
    client: &mut Client,
    link: &mut L,
    mirror: &mut Mirror,
    job: Job,
    changed: &mut bool,
) -> Result<Done, CallEnd>
    ensures tape { Adds (L.tape link.old) (L.tape link.new) (λ es. (item : ItemData) (s : CallState) → Stands client.old s.life → s.mail ≡ mirror.old.mail
        → any_change s.exchanges ≡ changed.old → (after : CallState) × StepsItem item job s (came_end result) es after
        × Leaves client.new mirror.old mirror.new changed.new result (L.faults link.old).link (L.faults link.new).link s after) }
    ensures counts { CountsOn mirror.old mirror.new }
    ensures next { IsNextMail mirror.old.mail mirror.new.mail }
    ensures idle { client.old.alive ≡ false → (client.new ≡ client.old) × (link.new ≡ link.old) }
    ensures alone { LinkAlone (L.faults link.old) (L.faults link.new) }
    ensures hidden { L.hidden link.new ≡ L.hidden link.old }
{
    match do_item(alloc, client, link, mirror, job, changed) {
        ItemEnd::Comes(done) => Ok(done),
        ItemEnd::Ends(error) => Err(CallEnd::Fails(error)),
        ItemEnd::OutOfMemory => Err(CallEnd::Memory),
    }
}

/// What an item comes to: it is checked, what its steps are made of is drawn, and its steps are done where it isn't refused.
fn take_item<'k, L: Link + Clock + Chance>(
    alloc: Global,
    client: &mut Client,
    link: &mut L,
    mirror: &mut Mirror,
    call: &Call<'_, 'k>,
    made: &MadeFolders<'k>,
    changed: &mut bool,
    item: &Item<'_>,
) -> Result<Done, CallEnd>
    ensures tape { Adds (L.tape link.old) (L.tape link.new) (λ es. (c : SetCall) (s : CallState) → IsCall call.now c
        → IsAt client.old mirror.old.mail made.now changed.old s → (after : CallState) × ItemCame c (item_data item.now) s result es after
        × Leaves client.new mirror.old mirror.new changed.new result (L.faults link.old).link (L.faults link.new).link s after) }
    ensures counts { CountsOn mirror.old mirror.new }
    ensures next { IsNextMail mirror.old.mail mirror.new.mail }
    ensures idle { client.old.alive ≡ false → (client.new ≡ client.old) × NoFault (L.faults link.old) (L.faults link.new) }
    ensures alone { LinkAlone (L.faults link.old) (L.faults link.new) }
    ensures hidden { L.hidden link.new ≡ L.hidden link.old }
{
    mirror.each_is_mail();
    match prepare_item(alloc, client, link, mirror, call, made, item)? {
        Ok(job) => do_steps(alloc, client, link, mirror, job, changed),
        Err(error) => Ok(Done::Not(error)),
    }
}

/// What the one item of a call comes to whose steps are known, or why it is refused. Where the client isn't alive nothing is sent.
pub fn take_known<L: Link>(
    alloc: Global,
    client: &mut Client,
    link: &mut L,
    mirror: &mut Mirror,
    made: Result<Job, SetError>,
) -> Result<Done, CallEnd>
    ensures tape { Adds (L.tape link.old) (L.tape link.new) (λ es. (c : SetCall) (life : LinkLife) (item : ItemData) → c.rules ≡ KnownSteps made → Stands client.old life
        → (after : CallState) × RunsItems c (item ∷ []) (call_begun mirror.old.mail life) (one_came item result) es after
        × Stands client.new after.life × (after.mail ≡ mirror.new.mail)
        × (one_came item result ≢ Err OutOfMemory → AllReadKnown mirror.old.mail after.exchanges → mirror.new.changes ≡ mirror.old.changes)
        × RoseBy after.lost (L.faults link.old).link (L.faults link.new).link) }
    ensures counts { CountsOn mirror.old mirror.new }
    ensures next { IsNextMail mirror.old.mail mirror.new.mail }
    ensures alone { LinkAlone (L.faults link.old) (L.faults link.new) }
    ensures hidden { L.hidden link.new ≡ L.hidden link.old }
{
    mirror.each_is_mail();
    match made {
        Ok(job) => {
            let mut changed = false;
            do_steps(alloc, client, link, mirror, job, &mut changed)
        }
        Err(refusal) => Ok(Done::Not(refusal)),
    }
}

/// A folder that the item made is named by its creation id from then on.
fn note_made<'a>(made: &mut MadeFolders<'a>, item: &Item<'a>, done: &Done) -> Result<(), AllocError>
    ensures { (m : Made) → IsMade made.old m → OnOk result (IsMade made.new (made_with m (item_data item.now) (Comes done.now))) }
{
    match (item, done) {
        (Item::Create(creation), Done::MadeMailbox { number }) => made.add(creation.key, *number),
        _ => Ok(()),
    }
}

/// Does the items of a call in order, and tells the mirror what completed exchanges say. It ends with the first item that ends the
/// call, of which no further one is tried.
pub fn run_items<'k, L: Link + Clock + Chance>(
    alloc: Global,
    client: &mut Client,
    link: &mut L,
    mirror: &mut Mirror,
    call: &Call<'_, 'k>,
    items: &[Item<'k>],
) -> Result<Vec<(Item<'k>, Done)>, CallEnd>
    ensures tape { Adds (L.tape link.old) (L.tape link.new) (λ es. (c : SetCall) (life : LinkLife) → IsCall call.now c → Stands client.old life
        → (after : CallState) × RunsItems c (map item_data items.now) (call_begun mirror.old.mail life) (came_data result) es after
        × Stands client.new after.life × (after.mail ≡ mirror.new.mail)
        × (came_data result ≢ Err OutOfMemory → AllReadKnown mirror.old.mail after.exchanges → mirror.new.changes ≡ mirror.old.changes)
        × RoseBy after.lost (L.faults link.old).link (L.faults link.new).link) }
    ensures counts { CountsOn mirror.old mirror.new }
    ensures next { IsNextMail mirror.old.mail mirror.new.mail }
    ensures idle { client.old.alive ≡ false → (client.new ≡ client.old) × NoFault (L.faults link.old) (L.faults link.new) }
    ensures alone { LinkAlone (L.faults link.old) (L.faults link.new) }
    ensures hidden { L.hidden link.new ≡ L.hidden link.old }
{
    mirror.each_is_mail();
    next_mail_joins();
    let mut made = MadeFolders::new(alloc);
    let mut changed = false;
    let mut done = Vec::with_capacity(alloc, items.len())?;
    for item in items {
        let came = take_item(alloc, client, link, mirror, call, &made, &mut changed, item)?;
        note_made(&mut made, item, &came)?;
        match done.push((*item, came)) {
            Ok(()) => {}
            Err(_) => return Err(CallEnd::Memory),
        }
    }
    Ok(done)
}
