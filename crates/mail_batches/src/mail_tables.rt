// Mail as two tables, while the items of a batch are read.
ghost use Rattle.std.specs.BTreeMap.{get};
ghost use Rattle.std.specs.Map.{update};
ghost use Rattle.std.specs.Ordering.{nat_cmp};
ghost use Rattle.std.specs.Prelude.{◌≡◌, ◌||◌, ℕ, IfOk, OnOk, Some, is_some, nat_eq, nat_le};
ghost use Rattle.mail_batches.specs.Steps.{moved};
ghost use Rattle.mail_batches.specs.Tables.{no_tables};
ghost use Rattle.mail_batches.specs.declared.item.Item.TheVariants.{MessageGone, FolderGone, FolderPut, MessagePut, MessageSet};
ghost use Rattle.mail_batches.specs.reading.Stepping.{Steps};
ghost use Rattle.mail_batches.specs.Stored.{tables_of};

use crate::rules::{are_flags, is_right_folder, is_right_message};
use crate::{Item, Placed};
use octets::Names;
use std::alloc::{AllocError, Global};
use std::collections::BTreeMap;
use told_mail::{Folder, Message};

/// Folders by number, and messages by mark.
#[derive(Drop)]
pub struct MailTables {
    alloc: Global,
    folders: BTreeMap<u64, Folder>,
    messages: BTreeMap<u64, Placed>,
    next_mark: u64,
    next_folder: u64,
}

fn insert<V: Drop>(map: &mut BTreeMap<u64, V>, key: u64, value: V) -> Result<(), AllocError>
    ensures { OnOk result ((q : ℕ) → get nat_cmp map.new q ≡ update nat_eq (get nat_cmp map.old) key (Some value) q) }
{
    map.insert(key, value)?;
    Ok(())
}

/// Gives the message of the mark another place and other flags, where there is one. It takes no memory.
fn set_placed(
    messages: &mut BTreeMap<u64, Placed>,
    mark: u64,
    folder: u64,
    uid: u32,
    flags: Names,
) -> bool
    ensures there { result ≡ is_some (get nat_cmp messages.old mark) }
    ensures set { (was : Placed) → get nat_cmp messages.old mark ≡ Some was
        → (q : ℕ) → get nat_cmp messages.new q ≡ update nat_eq (get nat_cmp messages.old) mark (Some (moved was folder uid flags)) q }
{
    match messages.get_mut(&mark) {
        Some(placed) => {
            placed.folder = folder;
            placed.message.uid = uid;
            placed.message.flags = flags;
            true
        }
        None => false,
    }
}

impl MailTables {
    /// Those of no mail. It takes no memory.
    pub fn new(alloc: Global) -> MailTables
        ensures { tables_of result ≡ no_tables }
    {
        MailTables {
            alloc,
            folders: BTreeMap::new(alloc),
            messages: BTreeMap::new(alloc),
            next_mark: 1,
            next_folder: 1,
        }
    }

    fn cut_message(&mut self, mark: u64) -> bool
        ensures { Steps (tables_of self.old) (MessageGone mark) (tables_of self.new) result }
    {
        self.messages.remove(&mark).is_some()
    }

    fn cut_folder(&mut self, number: u64) -> bool
        ensures { Steps (tables_of self.old) (FolderGone number) (tables_of self.new) result }
    {
        self.folders.remove(&number).is_some()
    }

    /// Whether a folder of the number is there, or the number is above all earlier ones.
    fn may_put(&self, number: u64) -> bool
        ensures { result ≡ (nat_le self.now.next_folder number || is_some (get nat_cmp self.now.folders number)) }
    {
        self.next_folder <= number || self.folders.contains_key(&number)
    }

    fn put_folder(&mut self, folder: Folder) -> Result<bool, AllocError>
        ensures { IfOk result (Steps (tables_of self.old) (FolderPut folder) (tables_of self.new)) }
    {
        let number = folder.number;
        let right = is_right_folder(self.alloc, &folder)?;
        if !right {
            return Ok(false);
        }
        let free = self.may_put(number);
        if !free {
            return Ok(false);
        }
        insert(&mut self.folders, number, folder)?;
        self.next_folder = self.next_folder.max(number + 1);
        Ok(true)
    }

    fn put_message(&mut self, folder: u64, message: Message) -> Result<bool, AllocError>
        ensures { IfOk result (Steps (tables_of self.old) (MessagePut folder message) (tables_of self.new)) }
    {
        let mark = message.mark;
        if mark < self.next_mark {
            return Ok(false);
        }
        let right = is_right_message(self.alloc, &message)?;
        if !right {
            return Ok(false);
        }
        insert(&mut self.messages, mark, Placed { folder, message })?;
        self.next_mark = mark + 1;
        Ok(true)
    }

    fn set_message(
        &mut self,
        mark: u64,
        folder: u64,
        uid: u32,
        flags: Names,
    ) -> Result<bool, AllocError>
        ensures { IfOk result (Steps (tables_of self.old) (MessageSet mark folder uid flags) (tables_of self.new)) }
    {
        if uid == 0 {
            return Ok(false);
        }
        let right = are_flags(self.alloc, &flags)?;
        if !right {
            return Ok(false);
        }
        Ok(set_placed(&mut self.messages, mark, folder, uid, flags))
    }

    /// Makes of the tables what the item makes of them, if it is right, and says whether it is. Nothing is known of them if it isn't.
    pub(crate) fn take(&mut self, item: Item) -> Result<bool, AllocError>
        ensures { IfOk result (Steps (tables_of self.old) item (tables_of self.new)) }
    {
        match item {
            Item::MessageGone { mark } => Ok(self.cut_message(mark)),
            Item::FolderGone { number } => Ok(self.cut_folder(number)),
            Item::FolderPut { folder } => self.put_folder(folder),
            Item::MessagePut { folder, message } => self.put_message(folder, message),
            Item::MessageSet {
                mark,
                folder,
                uid,
                flags,
            } => self.set_message(mark, folder, uid, flags),
        }
    }

    /// The folders, by number.
    pub fn folders(&self) -> &BTreeMap<u64, Folder>
        ensures { (n : ℕ) → get nat_cmp result.now n ≡ (tables_of self.now).folders n }
    {
        &self.folders
    }

    /// The messages, by mark.
    pub fn messages(&self) -> &BTreeMap<u64, Placed>
        ensures { (mark : ℕ) → get nat_cmp result.now mark ≡ (tables_of self.now).messages mark }
    {
        &self.messages
    }
}
