// Responses told to the messages of one folder.
ghost use Rattle.std.specs.Prelude.{◌≡◌, ◌≤◌, ◌+◌, ◌-◌, ℕ, ◌∷◌, ◌++◌, length, List, OnOk, IfOk, IsSome, not, slice_get, Some, None, IsTrue, ◌↔◌, Bool, true};
ghost use Rattle.told_folder.specs.Keyed.{Ascends, with_key, put_keyed};
ghost use Rattle.told_folder.specs.Folders.{uid_of, with_messages};
ghost use Rattle.told_folder.specs.Tell as told;
ghost use Rattle.told_folder.specs.Tell.{without_those, with_flags, with_new, new_message, tell_uid};
ghost use Rattle.told_folder.specs.FolderTelling.{telling_of, Goes, GoesOk, GoesWith, IsFlagged, cleared};
ghost use Rattle.std.specs.BTreeMap.{get};
ghost use Rattle.std.specs.Ordering.{nat_cmp};

use crate::Message;
use crate::headers::kept_header;
use crate::messages::Messages;
use crate::puts::one_more;
use crate::uids::Uids;
use crate::vanished::tell_vanished;
use imap_types::{FetchItems, Response};
use octets::Names;
use std::alloc::{AllocError, Global};
use std::collections::BTreeMap;
use std::mem;

/// The last mark: JSON's readers keep integers exactly up to it.
pub const MAX_MARK: u64 = 9_007_199_254_740_991;

/// A folder's messages while responses are told to it, and what changes with them.
#[derive(Drop)]
pub struct FolderTelling {
    /// The folder's number.
    pub folder: u64,
    /// Those of the folder.
    pub messages: Messages,
    /// The folder's number and the UID of each mark, those of other folders too.
    pub marks: BTreeMap<u64, (u64, u32)>,
    /// The mark that the next new message gets.
    pub next_mark: u64,
    /// How often the mail was changed, up to 2^64 - 1.
    pub changes: u64,
}

/// Whether they are the same names.
pub fn are_same(one: &Names, other: &Names) -> bool
    ensures { IsTrue result ↔ (one.now ≡ other.now) }
{
    one == other
}

/// Whether the message of the UID is held and has these flags.
fn is_flagged(messages: &Messages, uid: u32, flags: &Names) -> bool
    ensures { (x : Message) → with_key uid_of uid messages.now ≡ Some x → IsTrue result ↔ (x.flags ≡ flags.now) }
{
    match messages.get(uid) {
        Some(message) => are_same(&message.flags, flags),
        None => false,
    }
}

/// Gives a message that is held these flags.
fn set_flags(
    alloc: Global,
    work: &mut FolderTelling,
    uid: u32,
    flags: &Names,
) -> Result<(), AllocError>
    requires { Ascends uid_of work.old.messages }
    ensures { (x : Message) → with_key uid_of uid work.old.messages ≡ Some x → IsFlagged work.old work.new x flags.now result }
{
    if is_flagged(&work.messages, uid, flags) {
        return Ok(());
    }
    let flags = flags.share(alloc)?;
    work.messages.set_flags(uid, flags);
    work.changes = one_more(work.changes);
    Ok(())
}

/// A FETCH of a message that is held.
fn tell_held(
    alloc: Global,
    work: &mut FolderTelling,
    uid: u32,
    items: &FetchItems,
) -> Result<(), AllocError>
    requires ascends { Ascends uid_of work.old.messages }
    requires held { IsSome (with_key uid_of uid work.old.messages) }
    ensures { (adds : Bool) → GoesOk work.old work.new (tell_uid adds (telling_of work.old) uid items.now (with_key uid_of uid work.old.messages)) result }
{
    match &items.flags {
        Some(flags) => set_flags(alloc, work, uid, flags),
        None => Ok(()),
    }
}

/// Adds a message of a UID that isn't held.
fn put_new(work: &mut FolderTelling, message: Message) -> Result<(), AllocError>
    requires ascends { Ascends uid_of work.old.messages }
    requires free { with_key uid_of message.uid work.old.messages ≡ None }
    requires mark { message.mark ≡ work.old.next_mark }
    requires fits { work.old.next_mark ≤ MAX_MARK }
    ensures { GoesOk work.old work.new (with_new (telling_of work.old) (Some message)) result }
{
    let mark = message.mark;
    work.marks.insert(mark, (work.folder, message.uid))?;
    match work.messages.insert(message) {
        Ok(()) => {
            work.next_mark += 1;
            work.changes = one_more(work.changes);
            Ok(())
        }
        Err(e) => {
            work.marks.remove(&mark);
            Err(e)
        }
    }
}

/// The message that a FETCH tells, where it tells all of it and a mark is left.
fn message_of(
    alloc: Global,
    mark: u64,
    uid: u32,
    items: &FetchItems,
) -> Result<Option<Message>, AllocError>
    ensures { IfOk result (λ m. m ≡ new_message mark uid items.now.flags items.now.date items.now.size items.now.header) }
{
    let Some(flags) = &items.flags else {
        return Ok(None);
    };
    let Some(date) = items.date else {
        return Ok(None);
    };
    let Some(size) = items.size else {
        return Ok(None);
    };
    let Some(header) = &items.header else {
        return Ok(None);
    };
    if mark > MAX_MARK {
        return Ok(None);
    }
    let flags = flags.share(alloc)?;
    let header = kept_header(alloc, header)?;
    Ok(Some(Message {
        uid,
        mark,
        flags,
        date,
        size,
        header,
    }))
}

/// A FETCH of a message that isn't held.
fn tell_new(
    alloc: Global,
    work: &mut FolderTelling,
    uid: u32,
    items: &FetchItems,
) -> Result<(), AllocError>
    requires ascends { Ascends uid_of work.old.messages }
    requires free { with_key uid_of uid work.old.messages ≡ None }
    ensures { GoesOk work.old work.new (with_new (telling_of work.old) (new_message work.old.next_mark uid items.now.flags items.now.date items.now.size items.now.header)) result }
{
    match message_of(alloc, work.next_mark, uid, items)? {
        Some(message) => put_new(work, message),
        None => Ok(()),
    }
}

/// A FETCH.
fn tell_fetch(
    alloc: Global,
    work: &mut FolderTelling,
    adds: bool,
    items: &FetchItems,
) -> Result<(), AllocError>
    requires { Ascends uid_of work.old.messages }
    ensures { GoesOk work.old work.new (told.tell_fetch adds (telling_of work.old) items.now.uid items.now) result }
{
    let Some(uid) = items.uid else {
        return Ok(());
    };
    if work.messages.holds(uid) {
        tell_held(alloc, work, uid, items)
    } else if adds {
        tell_new(alloc, work, uid, items)
    } else {
        Ok(())
    }
}

/// Takes out the marks of those messages whose UIDs are in the set.
pub fn clear_marks<U: Uids>(messages: &[Message], gone: &U, marks: &mut BTreeMap<u64, (u64, u32)>)
    ensures { (q : ℕ) → get nat_cmp marks.new q ≡ cleared (U.has gone.now) messages.now q (get nat_cmp marks.old q) }
{
    for message in messages {
        if gone.contains(message.uid) {
            marks.remove(&message.mark);
        }
    }
}

/// Takes out the messages whose UIDs are in the set.
fn clear_messages<U: Uids>(messages: &mut Vec<Message>, gone: &U)
    ensures { messages.new.items ≡ without_those (U.has gone.now) messages.old.items }
{
    messages.retain(|message| !gone.contains(message.uid));
}

/// Messages that are gone. It goes through all of them.
pub fn tell_gone<U: Uids>(alloc: Global, work: &mut FolderTelling, gone: &U)
    requires { Ascends uid_of work.old.messages }
    ensures { Goes work.old work.new (record { messages = without_those (U.has gone.now) work.old.messages; next_mark = work.old.next_mark }) }
{
    let none = Messages::new(alloc, Vec::new(alloc));
    let mut messages = mem::replace(&mut work.messages, none).into_vec();
    let before = messages.len();
    clear_marks(messages.as_slice(), gone, &mut work.marks);
    clear_messages(&mut messages, gone);
    let left = messages.len();
    work.messages = Messages::new(alloc, messages);
    if left != before {
        work.changes = one_more(work.changes);
    }
}

/// A response.
fn tell_response(
    alloc: Global,
    work: &mut FolderTelling,
    adds: bool,
    response: &Response,
) -> Result<(), AllocError>
    requires { Ascends uid_of work.old.messages }
    ensures { GoesOk work.old work.new (told.tell_response adds (telling_of work.old) response.now) result }
{
    match response {
        Response::Fetch { items, .. } => tell_fetch(alloc, work, adds, items),
        Response::Vanished { uids, .. } => tell_vanished(work, uids.ranges.as_slice()),
        _ => Ok(()),
    }
}

/// Responses in order.
pub fn tell_responses(
    alloc: Global,
    work: &mut FolderTelling,
    adds: bool,
    responses: &[Response],
) -> Result<(), AllocError>
    requires { Ascends uid_of work.old.messages }
    ensures { GoesWith (told.AllKnown adds (telling_of work.old) responses.now) work.old work.new (told.tell_responses adds (telling_of work.old) responses.now) result }
{
    for response in responses {
        tell_response(alloc, work, adds, response)?;
    }
    Ok(())
}
