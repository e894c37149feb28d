// What an item has to pass before a command is sent for it, and what its steps are made of.
ghost use Rattle.std.specs.Prelude.{◌≡◌, IfOk};
ghost use Rattle.set_order.specs.reading.Items.{item_data};
ghost use Rattle.set_given.specs.Given.{Given as GivenFacts};
ghost use Rattle.set_given.specs.reading.Givens.{IsGiven};
ghost use Rattle.set_methods.specs.Checks as spec;
ghost use Rattle.set_methods.specs.Checks.{Checks, Makes};
ghost use Rattle.set_methods.specs.reading.Choosing.{rules_of};

use crate::emails::check_email;
use crate::mailboxes::check_mailbox;
use blob_store::BlobStore;
use email_creation::{ReadyCreation, draw_creation};
use set_given::Given;
use set_jobs::{Job, SetError};
use set_order::Item;
use std::alloc::{AllocError, Global};

/// Whose checks the items of a call have to pass.
#[derive(Clone, Copy)]
pub enum SetChecks<'u> {
    /// Those of Email/set.
    Email {
        /// What a message's attachments are taken from.
        uploads: &'u BlobStore,
    },
    /// Those of Mailbox/set.
    Mailbox {
        /// Whether the call lets Emails go with their Mailbox (`onDestroyRemoveEmails`).
        removes: bool,
    },
}

/// What there is of an item that passed its checks.
#[derive(Drop)]
pub enum Passed {
    /// Its steps.
    Steps(Job),
    /// What its steps are made of, beside a moment and a word that are to be drawn.
    Drawing(ReadyCreation),
}

/// The steps are known.
pub(crate) fn with_steps(came: Result<Job, SetError>) -> Result<Passed, SetError>
    ensures { result ≡ spec.with_steps came }
{
    match came {
        Ok(job) => Ok(Passed::Steps(job)),
        Err(error) => Err(error),
    }
}

impl SetChecks<'_> {
    /// What an item comes to by its checks.
    pub fn check(
        &self,
        alloc: Global,
        given: &Given<'_, '_>,
        item: &Item<'_>,
    ) -> Result<Result<Passed, SetError>, AllocError>
        ensures { (g : GivenFacts) → IsGiven given.now g → IfOk result (λ came. Checks (rules_of self.now) g (item_data item.now) came) }
    {
        match self {
            SetChecks::Email { uploads } => check_email(alloc, given, uploads, item),
            SetChecks::Mailbox { removes } => {
                Ok(with_steps(check_mailbox(alloc, *removes, given, item)?))
            }
        }
    }
}

/// The steps of a creation that is ready, by the moment and the word that were drawn for it; or why it is refused.
pub fn make(
    alloc: Global,
    ready: ReadyCreation,
    now: i64,
    word: u64,
) -> Result<Result<Job, SetError>, AllocError>
    ensures { IfOk result (λ came. Makes ready (record { now = now; word = word }) came) }
{
    draw_creation(alloc, ready, now, word)
}
