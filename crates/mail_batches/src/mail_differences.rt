// What differs between two mirrors.
ghost use Rattle.std.specs.BTreeSet.{contains, IsOrdered};
ghost use Rattle.std.specs.Ordering.{nat_cmp};
ghost use Rattle.std.specs.Prelude.{◌≡◌, ◌++◌, ◌↔◌, ℕ, Some, false, IfOk, IsTrue, MatchOption, OnOk};
ghost use Rattle.told_mail.specs.Mail.{folder_in};
ghost use Rattle.mail_batches.specs.Between.{AreBetween, HasMark};
ghost use Rattle.mail_batches.specs.Tables.{StandsAs};
ghost use Rattle.mail_batches.specs.reading.Adding.{AnyOf, Notes, IsLost, HasLost, IsOther, IsOtherAt, HasOther, Adds, listed, GoneMessage, GoneFolder, PutFolder, OfMark, new_item, set_item};

use crate::Item;
use std::alloc::{AllocError, Global};
use std::collections::BTreeSet;
use told_folder::telling::are_same;
use told_mail::{Folder, Message, Mirror, NumberedFolder};

fn has_mark(mirror: &Mirror, mark: u64) -> bool
    ensures { IsTrue result ↔ HasMark mirror.now.mail mark }
{
    mirror.place_of(mark).is_some()
}

/// Notes the message's mark, if the other mail hasn't it.
fn note_if_lost(
    marks: &mut BTreeSet<u64>,
    message: &Message,
    other: &Mirror,
) -> Result<(), AllocError>
    ensures { OnOk result (Notes (contains nat_cmp marks.old) (contains nat_cmp marks.new) (λ q. IsLost other.now.mail q message.now)) }
{
    let there = has_mark(other, message.mark);
    if !there {
        marks.insert(message.mark)?;
    }
    Ok(())
}

/// Notes the marks of those messages that the other mail hasn't.
fn note_lost(
    marks: &mut BTreeSet<u64>,
    messages: &[Message],
    other: &Mirror,
) -> Result<(), AllocError>
    ensures { OnOk result (Notes (contains nat_cmp marks.old) (contains nat_cmp marks.new) (λ q. AnyOf (IsLost other.now.mail q) messages.now)) }
{
    for message in messages {
        note_if_lost(marks, message, other)?;
    }
    Ok(())
}

/// The marks of messages of one mail that the other hasn't.
fn lost_marks(alloc: Global, mirror: &Mirror, other: &Mirror) -> Result<BTreeSet<u64>, AllocError>
    ensures { IfOk result (λ marks. Notes (λ _. false) (contains nat_cmp marks) (λ q. AnyOf (HasLost other.now.mail q) mirror.now.mail.folders)) }
{
    let mut marks = BTreeSet::new(alloc);
    for held in mirror.folders() {
        note_lost(&mut marks, held.messages.as_slice(), other)?;
    }
    Ok(marks)
}

/// The message of a mark, and the number of its folder.
fn placed(mirror: &Mirror, mark: u64) -> Option<(u64, &Message)>
    ensures { MatchOption result (HasMark mirror.now.mail mark → ⊥) (λ p. StandsAs mirror.now.mail mark (record { folder = p.0; message = p.1.now })) }
{
    let Some((folder, uid)) = mirror.place_of(mark) else {
        return None;
    };
    let Some(message) = mirror.message(folder, uid) else {
        unreachable!()
    };
    Some((folder, message))
}

/// Whether the message is in that mail, at another place or with other flags.
fn is_other(folder: u64, message: &Message, before: &Mirror) -> bool
    ensures { IsTrue result ↔ IsOther before.now.mail folder message.now }
{
    before.each_is_mail();
    let Some((at, was)) = placed(before, message.mark) else {
        return false;
    };
    if at != folder {
        return true;
    }
    let uid = was.uid;
    if uid != message.uid {
        return true;
    }
    let same = are_same(&was.flags, &message.flags);
    !same
}

/// Notes the message's mark, if it is in that mail otherwise.
fn note_if_other(
    marks: &mut BTreeSet<u64>,
    folder: u64,
    message: &Message,
    before: &Mirror,
) -> Result<(), AllocError>
    ensures { OnOk result (Notes (contains nat_cmp marks.old) (contains nat_cmp marks.new) (λ q. IsOtherAt before.now.mail folder q message.now)) }
{
    let other = is_other(folder, message, before);
    if other {
        marks.insert(message.mark)?;
    }
    Ok(())
}

/// Notes the marks of those messages of a folder that are in that mail otherwise.
fn note_other(
    marks: &mut BTreeSet<u64>,
    folder: u64,
    messages: &[Message],
    before: &Mirror,
) -> Result<(), AllocError>
    ensures { OnOk result (Notes (contains nat_cmp marks.old) (contains nat_cmp marks.new) (λ q. AnyOf (IsOtherAt before.now.mail folder q) messages.now)) }
{
    for message in messages {
        note_if_other(marks, folder, message, before)?;
    }
    Ok(())
}

/// The marks of messages of the mail after that were there before, at another place or with other flags.
fn other_marks(alloc: Global, before: &Mirror, after: &Mirror) -> Result<BTreeSet<u64>, AllocError>
    ensures { IfOk result (λ marks. Notes (λ _. false) (contains nat_cmp marks) (λ q. AnyOf (HasOther before.now.mail q) after.now.mail.folders)) }
{
    let mut marks = BTreeSet::new(alloc);
    for held in after.folders() {
        note_other(
            &mut marks,
            held.folder.number,
            held.messages.as_slice(),
            before,
        )?;
    }
    Ok(marks)
}

/// Adds the item, if there is one.
fn push(items: &mut Vec<Item>, item: Option<Item>) -> Result<(), AllocError>
    ensures { OnOk result (items.new.items ≡ items.old.items ++ listed item) }
{
    if let Some(item) = item {
        items.push(item)?;
    }
    Ok(())
}

/// Adds the messages that are gone, by mark.
fn push_gone_messages(items: &mut Vec<Item>, marks: &BTreeSet<u64>) -> Result<(), AllocError>
    ensures added { OnOk result (Adds GoneMessage marks.now.keys items.old.items items.new.items) }
    ensures ordered { OnOk result (IsOrdered nat_cmp marks.now) }
{
    for mark in marks {
        items.push(Item::MessageGone { mark: *mark })?;
    }
    Ok(())
}

fn gone_folder(held: &NumberedFolder, after: &Mirror) -> Option<Item>
    ensures { GoneFolder after.now.mail held.now result }
{
    let number = held.folder.number;
    match after.folder(number) {
        Some(_) => None,
        None => Some(Item::FolderGone { number }),
    }
}

/// Adds the folders that are gone, by number.
fn push_gone_folders(
    items: &mut Vec<Item>,
    before: &[NumberedFolder],
    after: &Mirror,
) -> Result<(), AllocError>
    ensures { OnOk result (Adds (GoneFolder after.now.mail) before.now items.old.items items.new.items) }
{
    for held in before {
        push(items, gone_folder(held, after))?;
    }
    Ok(())
}

fn has_folder(mirror: &Mirror, folder: &Folder) -> bool
    ensures { IsTrue result ↔ (folder_in mirror.now.mail.folders folder.now.number ≡ Some folder.now) }
{
    match mirror.folder(folder.number) {
        Some(was) => was == folder,
        None => false,
    }
}

fn put_folder(
    alloc: Global,
    before: &Mirror,
    held: &NumberedFolder,
) -> Result<Option<Item>, AllocError>
    ensures { IfOk result (PutFolder before.now.mail held.now) }
{
    if has_folder(before, &held.folder) {
        return Ok(None);
    }
    let folder = held.folder.share(alloc)?;
    Ok(Some(Item::FolderPut { folder }))
}

/// Adds the folders that are new or other, by number.
fn push_folders(
    alloc: Global,
    items: &mut Vec<Item>,
    before: &Mirror,
    after: &[NumberedFolder],
) -> Result<(), AllocError>
    ensures { OnOk result (Adds (PutFolder before.now.mail) after.now items.old.items items.new.items) }
{
    for held in after {
        let item = put_folder(alloc, before, held)?;
        push(items, item)?;
    }
    Ok(())
}

fn new_message(alloc: Global, mark: u64, after: &Mirror) -> Result<Option<Item>, AllocError>
    ensures { IfOk result (OfMark new_item after.now.mail mark) }
{
    let Some((folder, message)) = placed(after, mark) else {
        return Ok(None);
    };
    let message = message.share(alloc)?;
    Ok(Some(Item::MessagePut { folder, message }))
}

/// Adds the messages that are new, by mark.
fn push_new_messages(
    alloc: Global,
    items: &mut Vec<Item>,
    marks: &BTreeSet<u64>,
    after: &Mirror,
) -> Result<(), AllocError>
    ensures added { OnOk result (Adds (OfMark new_item after.now.mail) marks.now.keys items.old.items items.new.items) }
    ensures ordered { OnOk result (IsOrdered nat_cmp marks.now) }
{
    for mark in marks {
        let item = new_message(alloc, *mark, after)?;
        push(items, item)?;
    }
    Ok(())
}

fn set_message(alloc: Global, mark: u64, after: &Mirror) -> Result<Option<Item>, AllocError>
    ensures { IfOk result (OfMark set_item after.now.mail mark) }
{
    let Some((folder, message)) = placed(after, mark) else {
        return Ok(None);
    };
    let flags = message.flags.share(alloc)?;
    Ok(Some(Item::MessageSet {
        mark,
        folder,
        uid: message.uid,
        flags,
    }))
}

/// Adds the messages that stand elsewhere or have other flags, by mark.
fn push_set_messages(
    alloc: Global,
    items: &mut Vec<Item>,
    marks: &BTreeSet<u64>,
    after: &Mirror,
) -> Result<(), AllocError>
    ensures added { OnOk result (Adds (OfMark set_item after.now.mail) marks.now.keys items.old.items items.new.items) }
    ensures ordered { OnOk result (IsOrdered nat_cmp marks.now) }
{
    for mark in marks {
        let item = set_message(alloc, *mark, after)?;
        push(items, item)?;
    }
    Ok(())
}

/// An item for each difference between the mail of two mirrors, in the order of a batch.
pub fn differences(alloc: Global, before: &Mirror, after: &Mirror) -> Result<Vec<Item>, AllocError>
    ensures { IfOk result (λ v. AreBetween before.now.mail after.now.mail v.items) }
{
    before.each_is_mail();
    after.each_is_mail();
    let gone = lost_marks(alloc, before, after)?;
    let new = lost_marks(alloc, after, before)?;
    let other = other_marks(alloc, before, after)?;
    let mut items = Vec::new(alloc);
    push_gone_messages(&mut items, &gone)?;
    push_gone_folders(&mut items, before.folders(), after)?;
    push_folders(alloc, &mut items, before, after.folders())?;
    push_new_messages(alloc, &mut items, &new, after)?;
    push_set_messages(alloc, &mut items, &other, after)?;
    Ok(items)
}
