// Batches are written.
ghost use Rattle.std.specs.Prelude.{◌≡◌, IfOk};
ghost use Rattle.mail_batches.specs.Batches.{first_text, written, batch_text};

use crate::Item;
use crate::version::VERSION;
use crate::write::write_item;
use octets::Bytes;
use std::alloc::{AllocError, Global};

/// Octets before the epoch of the first batch, and of the epoch.
const FIRST_OCTETS: usize = 10;

/// The octet after the version of a first batch, and of others.
const FIRST: u8 = 0;

const ITEMS: u8 = 1;

/// The first batch.
pub fn first_batch(alloc: Global, epoch: u64) -> Result<Bytes, AllocError>
    ensures { IfOk result (λ batch. batch ≡ first_text written epoch) }
{
    let mut octets = Vec::with_capacity(alloc, FIRST_OCTETS)?;
    octets.push(VERSION)?;
    octets.push(FIRST)?;
    octets.extend_from_slice(&epoch.to_be_bytes())?;
    Ok(Bytes::from_vec(octets)?)
}

/// A batch of these items.
pub fn write_batch(alloc: Global, items: &[Item]) -> Result<Bytes, AllocError>
    ensures { IfOk result (λ batch. batch ≡ batch_text written items.now) }
{
    let mut octets = Vec::new(alloc);
    octets.push(VERSION)?;
    octets.push(ITEMS)?;
    for item in items {
        write_item(&mut octets, item)?;
    }
    Ok(Bytes::from_vec(octets)?)
}
