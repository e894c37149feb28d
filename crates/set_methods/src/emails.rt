// What an item of Email/set has to pass.
ghost use Rattle.std.specs.Prelude.{◌≡◌, ℕ, IfOk, List};
ghost use Rattle.serde_json.specs.Data.{Members};
ghost use Rattle.set_order.specs.reading.Items.{item_data};
ghost use Rattle.set_given.specs.Given.{Given as GivenFacts};
ghost use Rattle.set_given.specs.reading.Givens.{IsGiven};
ghost use Rattle.email_creation.specs.Creations.{ChecksCreation};
ghost use Rattle.set_methods.specs.Checks as checks;

use crate::checks::{Passed, with_steps};
use blob_store::BlobStore;
use email_checks::{destroy_email, update_email};
use email_creation::{ReadyCreation, check_creation};
use set_given::Given;
use set_jobs::{Job, SetError};
use set_order::Item;
use std::alloc::{AllocError, Global};

/// The steps of an item of Email/set that isn't a creation, or why it is refused.
fn check_other(
    alloc: Global,
    given: &Given<'_, '_>,
    item: &Item<'_>,
) -> Result<Result<Job, SetError>, AllocError>
    ensures { (g : GivenFacts) → IsGiven given.now g → IfOk result (λ came. came ≡ checks.check_other g (item_data item.now)) }
{
    match item {
        Item::Update(change) => update_email(alloc, given, change.key, change.object),
        Item::Destroy(text) => destroy_email(alloc, given, *text),
        _ => Ok(Err(SetError::Forbidden)),
    }
}

/// A creation that passes is ready.
fn with_creation(came: Result<ReadyCreation, SetError>) -> Result<Passed, SetError>
    ensures { (g : GivenFacts) (uploads : List (List ℕ)) (ms : Members) → ChecksCreation g uploads ms came → checks.ChecksNewEmail g uploads ms result }
{
    match came {
        Ok(ready) => Ok(Passed::Drawing(ready)),
        Err(error) => Err(error),
    }
}

/// What an item of Email/set comes to by its checks.
pub(crate) fn check_email(
    alloc: Global,
    given: &Given<'_, '_>,
    uploads: &BlobStore,
    item: &Item<'_>,
) -> Result<Result<Passed, SetError>, AllocError>
    ensures { (g : GivenFacts) → IsGiven given.now g → IfOk result (λ came. checks.Checks (checks.EmailRules uploads.now) g (item_data item.now) came) }
{
    match item {
        Item::Create(creation) => {
            Ok(with_creation(check_creation(alloc, given, uploads, creation.object)?))
        }
        _ => Ok(with_steps(check_other(alloc, given, item)?)),
    }
}
