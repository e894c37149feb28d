// What an item of Mailbox/set has to pass.
ghost use Rattle.std.specs.Prelude.{◌≡◌, IfOk};
ghost use Rattle.set_order.specs.reading.Items.{item_data};
ghost use Rattle.set_given.specs.Given.{Given as GivenFacts};
ghost use Rattle.set_given.specs.reading.Givens.{IsGiven};
ghost use Rattle.set_methods.specs.Checks as checks;

use mailbox_checks::{create_mailbox, destroy_mailbox, update_mailbox, wrong_parent};
use set_given::Given;
use set_jobs::{Job, SetError};
use set_order::Item;
use std::alloc::{AllocError, Global};

/// The steps of an item of Mailbox/set, or why it is refused.
pub(crate) fn check_mailbox(
    alloc: Global,
    removes: bool,
    given: &Given<'_, '_>,
    item: &Item<'_>,
) -> Result<Result<Job, SetError>, AllocError>
    ensures { (g : GivenFacts) → IsGiven given.now g → IfOk result (λ came. came ≡ checks.check_mailbox removes g (item_data item.now)) }
{
    match item {
        Item::Create(creation) => create_mailbox(alloc, given, creation.object),
        Item::Circle(_) => Ok(Err(wrong_parent(alloc)?)),
        Item::Update(change) => update_mailbox(alloc, given, change.key, change.object),
        Item::Destroy(text) => destroy_mailbox(alloc, given, removes, *text),
    }
}
