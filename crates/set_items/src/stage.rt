// How far an item is, and what a NO or BAD makes of it.
ghost use Rattle.std.specs.Prelude.{◌≡◌};
ghost use Rattle.set_items.specs.Items as items;

use imap_client::Refusal;
use imap_types::Code;
use octets::Listed;
use set_jobs::{Done, SetError, Step};
use told_changes::is_changing;
use told_mail::Exchange;

/// How far an item is.
#[derive(Debug, Drop)]
pub enum ItemStage {
    /// This step is due, and these are left after it.
    Doing {
        step: Step,
        left: Listed<Step>,
        /// Whether a changing command of the item was answered OK.
        changed: bool,
        /// What the item comes to once all are done.
        done: Done,
    },
    /// The item came to this.
    Settled(Done),
    /// Some of what was to be changed was, and not all: the call ends.
    Partly,
    /// The call ends by what the store answered to a reading command.
    Failing(Refusal),
}

/// What is left of an item once the step that is due is done.
#[derive(Debug, Drop)]
pub struct Rest {
    pub left: Listed<Step>,
    /// Whether a changing command of the item was answered OK by then.
    pub changed: bool,
    /// What the item comes to once all are done.
    pub done: Done,
}

impl Rest {
    /// The stage at which the next step is due, or the item is done.
    pub fn going(self) -> ItemStage
        ensures { result ≡ items.going self.left self.changed self.done }
    {
        let Rest {
            mut left,
            changed,
            done,
        } = self;
        match left.pop_front() {
            Some(step) => ItemStage::Doing {
                step,
                left,
                changed,
                done,
            },
            None => ItemStage::Settled(done),
        }
    }
}

fn refused_with(code: &Code) -> SetError
    ensures { result ≡ items.refused_with code.now }
{
    match code {
        Code::OverQuota => SetError::OverQuota,
        _ => SetError::Forbidden,
    }
}

/// The item's first changing command was refused, or a later one.
fn change_refused(changed: bool, code: &Code) -> ItemStage
    ensures { result ≡ items.change_refused changed code.now }
{
    if changed {
        ItemStage::Partly
    } else {
        ItemStage::Settled(Done::Not(refused_with(code)))
    }
}

/// What a NO or BAD to a step makes of the item.
pub fn refused(step: &Step, rest: Rest, exchange: &Exchange) -> ItemStage
    ensures { result ≡ items.refused step.now rest.left rest.changed rest.done exchange.now }
{
    match step {
        Step::Change(command) => {
            if is_changing(command) {
                change_refused(rest.changed, &exchange.code)
            } else {
                ItemStage::Failing(Refusal::Refused)
            }
        }
        Step::Delete { .. } => change_refused(rest.changed, &exchange.code),
        Step::Expunge { .. } => rest.going(),
        _ => ItemStage::Failing(Refusal::Refused),
    }
}
