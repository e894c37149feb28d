// A plan that is watched.
ghost use Rattle.std.specs.Prelude.{◌≡◌, ◌∷◌, List, false};
ghost use Rattle.told_folder.specs.declared.exchange.Exchange.{Exchange as exchange_type};
ghost use Rattle.store_causes.specs.Causes.{loses_link};
ghost use Rattle.store_causes.specs.reading.Noting.{noted};

use crate::notes::Notes;
use imap_client::{Due, Plan};
use std::alloc::{AllocError, Global};
use told_mail::Exchange;

/// A plan, and notes on what it heard.
#[derive(Drop)]
pub struct Watched<P> {
    /// The plan.
    pub inner: P,
    /// What is known of the life.
    pub notes: Notes,
}

impl<P: Plan> Plan for Watched<P> {
    ghost plan = { λ w. P.plan w.inner };

    ghost hears = { λ w x v. P.hears w.inner x v.inner × (v.notes ≡ noted w.notes x) × ((xs : List exchange_type) → P.plan v.inner xs ≡ P.plan w.inner (x ∷ xs)) };

    ghost keeps = { λ w v. P.keeps w.inner v.inner × (loses_link w.notes.cause ≡ false → loses_link v.notes.cause ≡ false) };

    fn due(&self, alloc: Global) -> Result<Due, AllocError> {
        self.inner.due(alloc)
    }

    fn hear(&mut self, alloc: Global, x: Exchange) -> Result<(), AllocError> {
        self.notes.note(alloc, &x)?;
        self.inner.hear(alloc, x)
    }
}
