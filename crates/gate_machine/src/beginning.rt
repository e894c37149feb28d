// A request's way to the mail: the machine is ready, the link life begins, the round asks for all mail, and what it told is
// served.
ghost use Rattle.std.specs.Prelude.{◌≡◌, true, false, IsSome};
ghost use Rattle.gate_world.specs.Causes.{Faults, LinkAlone};
ghost use Rattle.gate_world.specs.Tape.{Adds};
ghost use Rattle.gate_machine.specs.Holding.{HoldsMachine};
ghost use Rattle.gate_machine.specs.Machine.{MachineState};
ghost use Rattle.gate_machine.specs.Progress.{Progress, CameTo, idle};
ghost use Rattle.gate_machine.specs.Beginning.{Dials, RunsRound, AsksThen, DialsTo, BeginsTo};

use crate::machine::Machine;
use crate::mail_status::MailStatus;
use gate_world::{Chance, Link, Secrets};
use imap_client::Client;
use std::alloc::Global;
use told_mail::laws::{next_mail_joins, telling_goes_on};

// The link life begins.
fn dial<W: Link + Secrets>(
    machine: &mut Machine,
    client: &mut Client,
    world: &mut W,
    user: &[u8],
) -> MailStatus
    requires { client.old.alive ≡ false }
    ensures run { Adds (W.tape world.old) (W.tape world.new) (λ es. (before : MachineState) → HoldsMachine before machine.old → (after : Progress)
        × Dials user.now (W.hidden world.old).password (idle before) es after
        × CameTo machine.new client.new result (W.faults world.old) (W.faults world.new) after) }
    ensures alive { result ≡ MailStatus.Stands → client.new.alive ≡ true }
    ensures machine { result ≡ MailStatus.Stands → machine.new ≡ machine.old }
    ensures alone { LinkAlone (W.faults world.old) (W.faults world.new) }
    ensures hidden { W.hidden world.new ≡ W.hidden world.old }
{
    let connected = client.connect(world, user);
    machine.end(connected)
}

// The round.
fn ask<L: Link>(machine: &mut Machine, client: &mut Client, link: &mut L) -> MailStatus
    requires alive { client.old.alive ≡ true }
    requires ready { IsSome machine.old.known }
    ensures run { Adds (L.tape link.old) (L.tape link.new) (λ es. (before : Progress) (was : Faults)
        → CameTo machine.old client.old MailStatus.Stands was (L.faults link.old) before
        → (after : Progress) × RunsRound before es after × CameTo machine.new client.new result was (L.faults link.new) after) }
    ensures ready { result ≡ MailStatus.Stands → IsSome machine.new.known }
    ensures alone { LinkAlone (L.faults link.old) (L.faults link.new) }
    ensures hidden { L.hidden link.new ≡ L.hidden link.old }
{
    telling_goes_on();
    next_mail_joins();
    let Some(known) = &mut machine.known else {
        unreachable!()
    };
    let asked = known.ask(client, link);
    machine.end(asked)
}

// The round, and what it told is served.
fn ask_and_settle<L: Link>(machine: &mut Machine, client: &mut Client, link: &mut L) -> MailStatus
    requires alive { client.old.alive ≡ true }
    requires ready { IsSome machine.old.known }
    ensures run { Adds (L.tape link.old) (L.tape link.new) (λ es. (before : Progress) (was : Faults)
        → CameTo machine.old client.old MailStatus.Stands was (L.faults link.old) before
        → (after : Progress) × AsksThen before es after × CameTo machine.new client.new result was (L.faults link.new) after) }
    ensures ready { result ≡ MailStatus.Stands → IsSome machine.new.known }
    ensures alone { LinkAlone (L.faults link.old) (L.faults link.new) }
    ensures hidden { L.hidden link.new ≡ L.hidden link.old }
{
    match ask(machine, client, link) {
        MailStatus::Stands => machine.settle(),
        MailStatus::Unserved(why) => MailStatus::Unserved(why),
        MailStatus::OutOfMemory => MailStatus::OutOfMemory,
    }
}

// The link life, once the machine is ready.
fn live<W: Link + Secrets>(
    machine: &mut Machine,
    client: &mut Client,
    world: &mut W,
    user: &[u8],
) -> MailStatus
    requires dead { client.old.alive ≡ false }
    requires ready { IsSome machine.old.known }
    ensures run { Adds (W.tape world.old) (W.tape world.new) (λ es. (before : MachineState) → HoldsMachine before machine.old
        → DialsTo user.now (W.hidden world.old).password before machine.new client.new result (W.faults world.old) (W.faults world.new) es) }
    ensures ready { result ≡ MailStatus.Stands → IsSome machine.new.known }
    ensures alone { LinkAlone (W.faults world.old) (W.faults world.new) }
    ensures hidden { W.hidden world.new ≡ W.hidden world.old }
{
    match dial(machine, client, world, user) {
        MailStatus::Stands => ask_and_settle(machine, client, world),
        MailStatus::Unserved(why) => MailStatus::Unserved(why),
        MailStatus::OutOfMemory => MailStatus::OutOfMemory,
    }
}

/// Makes the machine ready, connects, asks for all mail, and serves what is told, each after the one before stands. The
/// client's link life goes on after it where it stands, and may where what was told isn't served.
pub fn begin<W: Link + Chance + Secrets>(
    alloc: Global,
    machine: &mut Machine,
    client: &mut Client,
    world: &mut W,
    user: &[u8],
) -> MailStatus
    requires { client.old.alive ≡ false }
    ensures run { Adds (W.tape world.old) (W.tape world.new) (λ es. (before : MachineState) → HoldsMachine before machine.old
        → BeginsTo user.now (W.hidden world.old).password before machine.new client.new result (W.faults world.old) (W.faults world.new) es) }
    ensures ready { result ≡ MailStatus.Stands → IsSome machine.new.known }
    ensures alone { LinkAlone (W.faults world.old) (W.faults world.new) }
    ensures hidden { W.hidden world.new ≡ W.hidden world.old }
{
    match machine.make_ready(alloc, world) {
        Ok(()) => live(machine, client, world, user),
        Err(_) => MailStatus::OutOfMemory,
    }
}
