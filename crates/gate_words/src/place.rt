// Where the store is, who asks, and under which URL.
ghost use Rattle.std.specs.Prelude.{◌≡◌, IfOk};
ghost use Rattle.gate_words.specs.reading.Lent.{place_in};

use octets::Text;
use std::alloc::{AllocError, Global};

/// Where the store is, whose mail it keeps, and where clients find the gateway.
#[derive(Debug, Drop)]
pub struct Place {
    /// The store's address.
    pub store: Text,
    /// The user at the store, which is not empty and has no control character.
    pub user: Text,
    /// The URL that clients come by, without a last `/`.
    pub base: Text,
}

/// A place whose texts are lent.
#[derive(Clone, Copy)]
pub(crate) struct LentPlace<'a> {
    pub(crate) store: &'a str,
    pub(crate) user: &'a str,
    pub(crate) base: &'a str,
}

/// A copy of the place.
pub(crate) fn owned(alloc: Global, place: LentPlace<'_>) -> Result<Place, AllocError>
    ensures { IfOk result (λ p. p ≡ place_in place.entry) }
{
    Ok(Place {
        store: Text::copy_of(alloc, place.store)?,
        user: Text::copy_of(alloc, place.user)?,
        base: Text::copy_of(alloc, place.base)?,
    })
}
