// Messages that a VANISHED tells (RFC 7162 section 3.2.10).
ghost use Rattle.std.specs.Option.{option_map};
ghost use Rattle.std.specs.Prelude.{◌≡◌, Some, IsSome, find};
ghost use Rattle.told_folder.specs.Folders.{uid_of};
ghost use Rattle.told_folder.specs.Keyed.{Ascends, with_key, cut_keyed};
ghost use Rattle.told_folder.specs.Tell.{is_in, covers, without_those};
ghost use Rattle.told_folder.specs.FolderTelling.{telling_of, GoesOk};

use crate::messages::Messages;
use crate::puts::one_more;
use crate::telling::FolderTelling;
use imap_types::UidRange;
use std::alloc::AllocError;

/// The first UID of the range that is held.
fn first_in(messages: &Messages, range: &UidRange) -> Option<u32>
    requires { Ascends uid_of messages.now }
    ensures { result ≡ option_map uid_of (find (λ x. is_in range.now x.uid) messages.now) }
{
    match messages.first_from(range.first) {
        Some(uid) => { if uid <= range.last { Some(uid) } else { None } }
        None => None,
    }
}

/// A message that is gone.
fn tell_lost(work: &mut FolderTelling, uid: u32) -> Result<(), AllocError>
    requires ascends { Ascends uid_of work.old.messages }
    requires held { IsSome (with_key uid_of uid work.old.messages) }
    ensures { GoesOk work.old work.new (record (telling_of work.old) { messages = cut_keyed uid_of uid work.old.messages }) result }
{
    let Some(message) = work.messages.remove(uid)? else {
        return Ok(());
    };
    work.marks.remove(&message.mark);
    work.changes = one_more(work.changes);
    Ok(())
}

/// Messages of a range that are gone. It takes a logarithm, and as much for each of them.
fn tell_range(work: &mut FolderTelling, range: &UidRange) -> Result<(), AllocError>
    requires { Ascends uid_of work.old.messages }
    ensures { GoesOk work.old work.new (record (telling_of work.old) { messages = without_those (is_in range.now) work.old.messages }) result }
{
    while let Some(uid) = first_in(&work.messages, range) {
        tell_lost(work, uid)?;
    }
    Ok(())
}

/// Messages that are gone, in whatever order their UIDs are told.
pub fn tell_vanished(work: &mut FolderTelling, ranges: &[UidRange]) -> Result<(), AllocError>
    requires { Ascends uid_of work.old.messages }
    ensures { GoesOk work.old work.new (record (telling_of work.old) { messages = without_those (covers ranges.now) work.old.messages }) result }
{
    for range in ranges {
        tell_range(work, range)?;
    }
    Ok(())
}
