// A folder's messages while responses are told of them.
ghost use Rattle.std.specs.BTreeMap.{values};
ghost use Rattle.std.specs.Option.{option_map, option_copied};
ghost use Rattle.std.specs.Prelude.{◌≡◌, ◌≢◌, ◌<◌, ◌-◌, slice_index_or, None, Some, IfOk, OnOk, OnErr, is_some, find, nat_le, take, vec_len};
ghost use Rattle.told_folder.specs.Folders.{uid_of};
ghost use Rattle.told_folder.specs.Keyed.{Ascends, with_key, put_keyed, cut_keyed};
ghost use Rattle.told_folder.specs.Places.{IsPlace, IsHeldAt};
ghost use Rattle.told_folder.specs.reading.Parts.{all_of, AllKeyed, AllUnder, IsParted};

use crate::Message;
use crate::keyed::{find, index_of, place_of};
use octets::Names;
use std::alloc::{AllocError, Global};
use std::collections::BTreeMap;
use std::marker::Model;

/// Changes that are made within the vector, before messages move into the map. That many cost far less than to move all of
/// them into the map and back.
const CHANGES_WITHIN: u32 = 16;

/// Messages by UID. The first changes are made within a vector. From then on those from some UID on stand in a map, so
/// that one more or one less among them costs a logarithm. A message moves into the map once.
#[derive(Drop)]
pub struct Messages {
    /// With room for those of the map.
    before: Vec<Message>,
    /// Those after them, by UID.
    after: BTreeMap<u32, Message>,
    /// How many more changes are made within the vector.
    within: u32,
}

impl Model for Messages {
    ghost use Rattle.std.specs.Prelude.{List};
    ghost use Rattle.told_folder.specs.declared.message.Message.{Message};

    ghost Value = { List Message };

    ghost use Rattle.told_folder.specs.reading.Parts.{all_of, IsParted};

    ghost view = { λ m. all_of m.before m.after };

    ghost invariant = { λ m. IsParted m.before m.after };
}

/// Moves the last message of the vector into the map.
fn move_last(
    before: &mut Vec<Message>,
    after: &mut BTreeMap<u32, Message>,
) -> Result<(), AllocError>
    requires { IsParted before.old after.old }
    ensures parted { IsParted before.new after.new }
    ensures same { all_of before.new after.new ≡ all_of before.old after.old }
    ensures moved { OnOk result (before.new.items ≡ take (vec_len before.old - 1) before.old.items) }
{
    let Some(message) = before.pop() else {
        return Ok(());
    };
    match after.insert(message.uid, message) {
        Ok(_) => Ok(()),
        Err(refused) => {
            let (_uid, message) = refused.value;
            let Ok(()) = before.push(message) else {
                unreachable!()
            };
            Err(AllocError)
        }
    }
}

/// Moves the messages from a place on into the map.
fn move_from(
    before: &mut Vec<Message>,
    after: &mut BTreeMap<u32, Message>,
    at: usize,
) -> Result<(), AllocError>
    requires { IsParted before.old after.old }
    ensures parted { IsParted before.new after.new }
    ensures same { all_of before.new after.new ≡ all_of before.old after.old }
    ensures moved { OnOk result (before.new.items ≡ take at before.old.items) }
{
    while at < before.len() {
        move_last(before, after)?;
    }
    Ok(())
}

/// Puts a message before one of the vector, in whose place it goes.
fn put_within(
    before: &mut Vec<Message>,
    after: &BTreeMap<u32, Message>,
    at: usize,
    message: Message,
) -> Result<(), AllocError>
    requires parted { IsParted before.old after.now }
    requires place { IsPlace uid_of message.uid before.old.items at }
    requires inside { at < vec_len before.old }
    requires free { (x : Message) → message.uid ≢ uid_of (slice_index_or before.old.items at x) }
    ensures parted { IsParted before.new after.now }
    ensures ok { OnOk result (all_of before.new after.now ≡ put_keyed uid_of message (all_of before.old after.now)) }
    ensures err { OnErr result (all_of before.new after.now ≡ all_of before.old after.now) }
{
    before.reserve(after.len() + 1)?;
    let Ok(()) = before.insert(at, message) else {
        unreachable!()
    };
    Ok(())
}

/// Takes the message at a place out of the vector.
fn cut_within(
    before: &mut Vec<Message>,
    after: &BTreeMap<u32, Message>,
    at: usize,
    uid: u32,
) -> Message
    requires parted { IsParted before.old after.now }
    requires held { IsHeldAt uid_of uid before.old.items at }
    ensures parted { IsParted before.new after.now }
    ensures cut { all_of before.new after.now ≡ cut_keyed uid_of uid (all_of before.old after.now) }
    ensures message { Some result ≡ with_key uid_of uid (all_of before.old after.now) }
{
    before.remove(at)
}

/// Puts a message after those of the vector.
fn put_behind(
    before: &mut Vec<Message>,
    after: &mut BTreeMap<u32, Message>,
    message: Message,
) -> Result<(), AllocError>
    requires parted { IsParted before.old after.old }
    requires under { AllUnder message.uid before.old.items }
    ensures parted { IsParted before.new after.new }
    ensures ok { OnOk result (all_of before.new after.new ≡ put_keyed uid_of message (all_of before.old after.old)) }
    ensures err { OnErr result (all_of before.new after.new ≡ all_of before.old after.old) }
{
    before.reserve(after.len() + 1)?;
    if after.is_empty() {
        before.push(message)?;
    } else {
        after.insert(message.uid, message)?;
    }
    Ok(())
}

/// The first key that isn't below this one.
fn first_key(after: &BTreeMap<u32, Message>, first: u32) -> Option<u32>
    ensures { AllKeyed after.now.entries → result ≡ option_map uid_of (find (λ x. nat_le first x.uid) (values after.now)) }
{
    match after.range(first..).next() {
        Some((uid, _message)) => Some(*uid),
        None => None,
    }
}

impl Messages {
    /// It takes no memory.
    pub fn new(alloc: Global, messages: Vec<Message>) -> Messages
        requires { Ascends uid_of messages.items }
        ensures { result ≡ messages.items }
    {
        Messages {
            before: messages,
            after: BTreeMap::new(alloc),
            within: CHANGES_WITHIN,
        }
    }

    /// All of them in one vector. It takes no memory.
    pub fn into_vec(self) -> Vec<Message>
        ensures { result.items ≡ self }
    {
        let mut all = self.before;
        let mut after = self.after;
        while let Some((_uid, message)) = after.pop_first() {
            let Ok(()) = all.push(message) else {
                unreachable!()
            };
        }
        all
    }

    /// The message of a UID.
    pub fn get(&self, uid: u32) -> Option<&Message>
        ensures { option_copied result ≡ with_key uid_of uid self.now }
    {
        match find(self.before.as_slice(), u64::from(uid)) {
            Some(message) => Some(message),
            None => self.after.get(&uid),
        }
    }

    /// Whether there is a message of this UID.
    pub fn holds(&self, uid: u32) -> bool
        ensures { result ≡ is_some (with_key uid_of uid self.now) }
    {
        self.get(uid).is_some()
    }

    /// The first UID from this one on that is held.
    pub fn first_from(&self, first: u32) -> Option<u32>
        ensures { result ≡ option_map uid_of (find (λ x. nat_le first x.uid) self.now) }
    {
        let at = place_of(self.before.as_slice(), u64::from(first));
        if at < self.before.len() {
            Some(self.before[at].uid)
        } else {
            first_key(&self.after, first)
        }
    }

    /// Gives the message of the UID these flags, where it is held.
    pub fn set_flags(&mut self, uid: u32, flags: Names)
        ensures held { (x : Message) → with_key uid_of uid self.old ≡ Some x → self.new ≡ put_keyed uid_of (record x { flags = flags }) self.old }
        ensures none { with_key uid_of uid self.old ≡ None → self.new ≡ self.old }
    {
        match index_of(self.before.as_slice(), u64::from(uid)) {
            Ok(at) => {
                let message = &mut self.before[at];
                message.flags = flags;
            }
            Err(_) => {
                if let Some(message) = self.after.get_mut(&uid) {
                    message.flags = flags;
                }
            }
        }
    }

    /// Puts a message, for the one of its UID where there is one. A refusal changes nothing.
    pub fn insert(&mut self, message: Message) -> Result<(), AllocError>
        ensures ok { OnOk result (self.new ≡ put_keyed uid_of message self.old) }
        ensures err { OnErr result (self.new ≡ self.old) }
    {
        let at = place_of(self.before.as_slice(), u64::from(message.uid));
        if 0 < self.within && at < self.before.len() && self.before[at].uid != message.uid {
            self.within -= 1;
            return put_within(&mut self.before, &self.after, at, message);
        }
        move_from(&mut self.before, &mut self.after, at)?;
        put_behind(&mut self.before, &mut self.after, message)
    }

    /// Takes out the message of a UID. Where memory lacks it stays.
    pub fn remove(&mut self, uid: u32) -> Result<Option<Message>, AllocError>
        ensures ok { OnOk result (self.new ≡ cut_keyed uid_of uid self.old) }
        ensures message { IfOk result (λ m. m ≡ with_key uid_of uid self.old) }
        ensures err { OnErr result (self.new ≡ self.old) }
    {
        let at = place_of(self.before.as_slice(), u64::from(uid));
        if 0 < self.within && at < self.before.len() && self.before[at].uid == uid {
            self.within -= 1;
            return Ok(Some(cut_within(&mut self.before, &self.after, at, uid)));
        }
        move_from(&mut self.before, &mut self.after, at)?;
        Ok(self.after.remove(&uid))
    }
}
