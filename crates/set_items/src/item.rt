// An item of a call that changes mail is done in the link life of its request (RFC 8620 section 5.3).
ghost use Rattle.std.specs.Prelude.{◌≡◌, ◌&&◌, ◌||◌, Bool, List, [], false};
ghost use Rattle.gate_world.specs.Causes.{LinkAlone, RoseBy};
ghost use Rattle.gate_world.specs.Tape.{Adds};
ghost use Rattle.told_folder.specs.declared.exchange.Exchange.{Exchange as exchange_type};
ghost use Rattle.told_mail.specs.Mail.{Mail, IsNextMail};
ghost use Rattle.imap_client.specs.LinkLife.{LinkLife, Stands};
ghost use Rattle.imap_client.specs.Plans.{IsEnd, ends_torn};
ghost use Rattle.imap_client.specs.Refusals.{refusal_end};
ghost use Rattle.imap_client.specs.Rounds.{CountsOn};
ghost use Rattle.imap_client.specs.reading.Keeping.{KeepsMirror};
ghost use Rattle.set_items.specs.Ends.{any_change, broken_end, done_end, is_cut_off, item_end};
ghost use Rattle.set_items.specs.Items as items;
ghost use Rattle.set_items.specs.Talks.{IsItemDone, fault_in};
ghost use Rattle.set_items.specs.reading.Running.{FollowsItem, state_of};

use crate::item_plan::ItemPlan;
use crate::stage::{ItemStage, Rest};
use gate_world::Link;
use imap_client::{Client, Due, LinkEnd, Plan, Refusal, follow_torn};
use jmap_arguments::MethodError;
use set_jobs::{Done, Job, Step};
use std::alloc::Global;
use std::mem;
use told_changes::is_changing;
use told_mail::Mirror;

/// How an item ends.
#[derive(Debug, Drop)]
pub enum ItemEnd {
    /// The item came to this, and the call goes on.
    Comes(Done),
    /// The call ends with the error.
    Ends(MethodError),
    OutOfMemory,
}

// ---- the plan

/// The end that a refusal is answered with.
fn end_of(refusal: Refusal) -> LinkEnd
    ensures { result ≡ refusal_end refusal }
{
    match refusal {
        Refusal::Refused => LinkEnd::Refused,
        Refusal::NoQresync => LinkEnd::NoQresync,
        Refusal::Lacks => LinkEnd::Lacks,
    }
}

/// How the plan ends in a link life that has ended: nothing is sent.
fn end_without_link(alloc: Global, plan: &ItemPlan) -> Result<(), LinkEnd>
    ensures { (life : LinkLife) → life.goes_on ≡ false → (ends : IsEnd (items.item_plan (state_of plan.now) []) life life result []) × (ends_torn ends ≡ false) }
{
    match plan.due(alloc) {
        Ok(Due::Done) => Ok(()),
        Ok(Due::Send(_)) => Err(LinkEnd::Lost),
        Ok(Due::Fails(why)) => Err(end_of(why)),
        Err(_) => Err(LinkEnd::Memory),
    }
}

/// Follows the plan. `torn` says whether the store took octets of a command whose exchange isn't completed.
fn run_plan<L: Link>(
    alloc: Global,
    client: &mut Client,
    link: &mut L,
    plan: &mut ItemPlan,
    torn: &mut bool,
) -> Result<(), LinkEnd>
    ensures tape { Adds (L.tape link.old) (L.tape link.new) (λ es. (life : LinkLife) → Stands client.old life → (left : LinkLife)
        × (follows : FollowsItem plan.old plan.new life left client.new result es) × (torn.new ≡ ends_torn follows.follows.ends)
        × RoseBy (fault_in life.goes_on left.goes_on result) (L.faults link.old).link (L.faults link.new).link) }
    ensures kept { KeepsMirror plan.old.mirror plan.new.mirror }
    ensures idle { client.old.alive ≡ false → (client.new ≡ client.old) × (link.new ≡ link.old) }
    ensures alone { LinkAlone (L.faults link.old) (L.faults link.new) }
    ensures hidden { L.hidden link.new ≡ L.hidden link.old }
{
    if client.alive() {
        return follow_torn(client, link, plan, torn);
    }
    *torn = false;
    end_without_link(alloc, plan)
}

// ---- what it comes to

/// Whether the command of the step changes mail.
fn is_changing_step(step: &Step) -> bool
    ensures { (m : Mail) (torn : Bool) → is_cut_off (items.step_due m step.now) torn ≡ (result && torn) }
{
    match step {
        Step::Change(command) => is_changing(command),
        Step::Delete { .. } | Step::Expunge { .. } => true,
        _ => false,
    }
}

/// Whether a changing command was answered OK, or may have been obeyed: it is due, and the store took octets of it.
fn has_changed(stage: &ItemStage, changed: bool, torn: bool) -> bool
    ensures { (m : Mail) → result ≡ (changed || is_cut_off (items.item_due stage.now m) torn) }
{
    if changed {
        return true;
    }
    match stage {
        ItemStage::Doing { step, .. } => is_changing_step(step) && torn,
        _ => false,
    }
}

/// How the call ends where the plan ended so.
fn broken(end: LinkEnd, changed: bool) -> ItemEnd
    ensures { result ≡ broken_end end changed }
{
    match end {
        LinkEnd::Memory => ItemEnd::OutOfMemory,
        _ => ItemEnd::Ends(if changed {
            MethodError::ServerPartialFail
        } else {
            MethodError::ServerUnavailable
        }),
    }
}

/// How the item ends where its plan is done.
fn settled(stage: ItemStage) -> ItemEnd
    ensures { result ≡ done_end stage }
{
    match stage {
        ItemStage::Settled(done) => ItemEnd::Comes(done),
        _ => ItemEnd::Ends(MethodError::ServerPartialFail),
    }
}

/// How the item ends, from the stage that it came to.
fn end_by(stage: ItemStage, ended: Result<(), LinkEnd>, changed: bool, torn: bool) -> ItemEnd
    ensures { (m : Mail) → result ≡ item_end stage ended (changed || is_cut_off (items.item_due stage m) torn) }
{
    match ended {
        Ok(()) => settled(stage),
        Err(end) => broken(end, has_changed(&stage, changed, torn)),
    }
}

// ---- the whole

/// Does the steps of an item, and tells the mirror what completed exchanges say. `changed` says whether a changing command of
/// the call was answered OK. Where the client isn't alive nothing is sent. The mirror is to be dropped where memory ran out.
pub fn do_item<L: Link>(
    alloc: Global,
    client: &mut Client,
    link: &mut L,
    mirror: &mut Mirror,
    job: Job,
    changed: &mut bool,
) -> ItemEnd
    ensures tape { Adds (L.tape link.old) (L.tape link.new) (λ es. (life : LinkLife) → Stands client.old life
        → (call : List exchange_type) → any_change call ≡ changed.old → (left : LinkLife)
        × IsItemDone job call mirror.old mirror.new life left client.new result changed.new (L.faults link.old).link (L.faults link.new).link es) }
    ensures counts { CountsOn mirror.old mirror.new }
    ensures next { IsNextMail mirror.old.mail mirror.new.mail }
    ensures idle { client.old.alive ≡ false → (client.new ≡ client.old) × (link.new ≡ link.old) }
    ensures alone { LinkAlone (L.faults link.old) (L.faults link.new) }
    ensures hidden { L.hidden link.new ≡ L.hidden link.old }
{
    mirror.each_is_mail();
    let Job { steps, done } = job;
    let rest = Rest {
        left: steps,
        changed: false,
        done,
    };
    let empty = Mirror::new(alloc);
    let mut plan = ItemPlan {
        stage: rest.going(),
        mirror: mem::replace(mirror, empty),
        changed: *changed,
    };
    let mut torn = false;
    let result = run_plan(alloc, client, link, &mut plan, &mut torn);
    let ItemPlan {
        stage,
        mirror: told,
        changed: is_changed,
    } = plan;
    *mirror = told;
    *changed = is_changed;
    end_by(stage, result, is_changed, torn)
}
