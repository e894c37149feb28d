// The batch from the mail of one mirror to that of another.
ghost use Rattle.std.specs.Prelude.{IfOk};
ghost use Rattle.mail_batches.specs.Between.{IsBetween};

use crate::batches::write_batch;
use crate::mail_differences::differences;
use octets::Bytes;
use std::alloc::{AllocError, Global};
use told_mail::Mirror;

/// The batch from the mail of one mirror to that of another, which has an item for each difference. It costs a look-up by mark for each
/// message of both, and memory for what differs.
pub fn encode_batch(alloc: Global, before: &Mirror, after: &Mirror) -> Result<Bytes, AllocError>
    ensures { IfOk result (λ batch. IsBetween before.now.mail after.now.mail batch) }
{
    let items = differences(alloc, before, after)?;
    write_batch(alloc, items.as_slice())
}
