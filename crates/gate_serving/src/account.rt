// Who is served.
ghost use Rattle.std.specs.Prelude.{◌≡◌, IfOk};

use gate_words::Place;
use octets::Text;
use std::alloc::{AllocError, Global};

/// Who is served, but for the secrets, which the outside keeps.
#[derive(Drop)]
pub struct Account {
    /// The user at the store.
    pub user: Text,
    /// The URL that clients come by.
    pub base: Text,
}

impl Account {
    /// The account at this place.
    pub fn at(alloc: Global, place: &Place) -> Result<Account, AllocError>
        ensures user { IfOk result (λ account. account.user ≡ place.now.user) }
        ensures base { IfOk result (λ account. account.base ≡ place.now.base) }
    {
        Ok(Account {
            user: Text::copy_of(alloc, place.user.as_str())?,
            base: Text::copy_of(alloc, place.base.as_str())?,
        })
    }
}
