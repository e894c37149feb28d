// The items of a batch are read, one after the other.
ghost use Rattle.std.specs.Prelude.{◌≡◌, IfOk};
ghost use Rattle.mail_batches.specs.Reads.{ReadsItems};
ghost use Rattle.mail_batches.specs.reading.Stepping as stepping;
ghost use Rattle.mail_batches.specs.reading.Stepping.{IsPlaceOf, ReadsItem};
ghost use Rattle.mail_batches.specs.Stored.{tables_of};

use crate::Item;
use crate::mail_tables::MailTables;
use crate::reading::item_of;
use std::alloc::{AllocError, Global};

/// Why a batch isn't read.
#[derive(Clone, Copy, Debug, PartialEq, Eq, Drop)]
pub enum BatchError {
    /// No right item stands at this octet of the items.
    Wrong { at: usize },
    /// Out of memory.
    Memory,
}

impl From<AllocError> for BatchError {
    ghost use Rattle.std.specs.Prelude.{◌≡◌};
    ghost use Rattle.mail_batches.specs.declared.batch_reading.BatchError.TheVariants.{Memory};

    ghost from_gives = { λ _ e. e ≡ Memory };

    fn from(_error: AllocError) -> BatchError {
        BatchError::Memory
    }
}

/// The place of an item among others: its kind, and then its number.
fn place_of(item: &Item) -> (u8, u64)
    ensures { IsPlaceOf result item.now }
{
    match item {
        Item::MessageGone { mark } => (0, *mark),
        Item::FolderGone { number } => (1, *number),
        Item::FolderPut { folder } => (2, folder.number),
        Item::MessagePut { message, .. } => (3, message.mark),
        Item::MessageSet { mark, .. } => (4, *mark),
    }
}

fn may_follow(last: Option<(u8, u64)>, place: (u8, u64)) -> bool
    ensures { result ≡ stepping.may_follow last place }
{
    match last {
        None => true,
        Some(last) => last.0 < place.0 || (last.0 == place.0 && last.1 < place.1),
    }
}

/// The place of the item at the front and the octets after it, if it is right after this one. The tables become what it makes of them.
fn read_item<'a>(
    alloc: Global,
    tables: &mut MailTables,
    last: Option<(u8, u64)>,
    octets: &'a [u8],
) -> Result<Option<((u8, u64), &'a [u8])>, AllocError>
    ensures { IfOk result (ReadsItem (tables_of tables.old) last octets.now (tables_of tables.new) (λ r. r.0) (λ r. r.1.now)) }
{
    let read = item_of(alloc, octets)?;
    let Some((item, rest)) = read else {
        return Ok(None);
    };
    let place = place_of(&item);
    let follows = may_follow(last, place);
    if !follows {
        return Ok(None);
    }
    let right = tables.take(item)?;
    if !right {
        return Ok(None);
    }
    Ok(Some((place, rest)))
}

/// Makes of the tables what the items make of them.
pub fn read_items(alloc: Global, tables: &mut MailTables, octets: &[u8]) -> Result<(), BatchError>
    ensures { ReadsItems (tables_of tables.old) octets.now (tables_of tables.new) result }
{
    let mut last = None;
    let mut rest = octets;
    while !rest.is_empty() {
        let read = read_item(alloc, tables, last, rest)?;
        let Some((place, more)) = read else {
            let at = octets.len() - rest.len();
            return Err(BatchError::Wrong { at });
        };
        last = Some(place);
        rest = more;
    }
    Ok(())
}
