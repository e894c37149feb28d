// What is asked of a store in order.
ghost use Rattle.std.specs.Prelude.{◌≡◌, ◌∷◌, [], List, IfOk, OnOk};
ghost use Rattle.told_folder.specs.declared.exchange.Exchange.{Exchange as exchange_type};
ghost use Rattle.imap_client.specs.Refusals.{refusal_end};
ghost use Rattle.imap_client.specs.declared.plan.Due.{Due as due_type};

use imap_exchange::LinkEnd;
use imap_types::Command;
use std::alloc::{AllocError, Global};
use told_mail::Exchange;

/// Why a plan fails by what the store answered. No other end is a plan's to say.
#[derive(Clone, Copy, Debug, PartialEq, Eq, Drop)]
pub enum Refusal {
    /// NO or BAD to a command that must be obeyed, or LOGIN isn't allowed.
    Refused,
    /// The store has no IMAP4rev2 or no QRESYNC, or didn't enable QRESYNC.
    NoQresync,
    /// An OK without what it has to tell, or a folder that isn't there or has another validity.
    Lacks,
}

/// The end that a refusal is answered with.
pub fn end_of(refusal: Refusal) -> LinkEnd
    ensures { result ≡ refusal_end refusal }
{
    match refusal {
        Refusal::Refused => LinkEnd::Refused,
        Refusal::NoQresync => LinkEnd::NoQresync,
        Refusal::Lacks => LinkEnd::Lacks,
    }
}

/// What is due next.
#[derive(Debug, Drop)]
pub enum Due {
    /// This command, whose exchange is heard next.
    Send(Command),
    /// No more is asked.
    Done,
    /// No more is asked, and the link life ends.
    Fails(Refusal),
}

/// What is asked of a store in order, by what it answered so far.
pub trait Plan {
    /// What is due once further exchanges are completed.
    ghost plan: { Self → List exchange_type → due_type };

    /// Where the plan's own state is once an exchange is completed.
    ghost hears: { Self → exchange_type → Self → Type 0 };

    /// What holds between the plan's own state and a later one, also where memory ran out.
    ghost keeps: { Self → Self → Type 0 };

    /// What is due now; an error where there is no memory for the command.
    fn due(&self, alloc: Global) -> Result<Due, AllocError>
        ensures { IfOk result (λ now. now ≡ Self.plan self.now []) };

    /// The exchange that was due is completed.
    fn hear(&mut self, alloc: Global, x: Exchange) -> Result<(), AllocError>
        ensures rest { OnOk result ((xs : List exchange_type) → Self.plan self.new xs ≡ Self.plan self.old (x ∷ xs)) }
        ensures heard { OnOk result (Self.hears self.old x self.new) }
        ensures kept { (first : Self) → Self.keeps first self.old → Self.keeps first self.new };
}
