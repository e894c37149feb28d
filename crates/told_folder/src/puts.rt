// Messages put into a mirror and cut out of it.
ghost use Rattle.std.specs.Prelude.{◌≡◌, ◌≢◌, ℕ, ◌+◌, ◌-◌, ◌^◌, ◌<◌, ◌≤◌, None, Some, min, IsSome, OnOk, OnErr, MatchOption};
ghost use Rattle.told_folder.specs.Keyed.{Ascends, with_key, put_keyed, cut_keyed};
ghost use Rattle.told_folder.specs.Places.{IsHeldAt};
ghost use Rattle.told_folder.specs.Folders.{uid_of};

use crate::keyed::{index_of, place_of};
use crate::{Message, NumberedFolder};
use octets::Listed;
use std::alloc::{AllocError, Global};
use std::mem;

/// One more, short of the last value.
pub fn one_more(count: u64) -> u64
    ensures { result ≡ min (count + 1) (2 ^ 64 - 1) }
{
    count.saturating_add(1)
}

/// The folder's messages, which leaves it without any. It takes no memory.
pub fn take_messages(alloc: Global, held: &mut NumberedFolder) -> Vec<Message>
    ensures taken { result.items ≡ held.old.messages }
    ensures folder { held.new.folder ≡ held.old.folder }
{
    mem::replace(&mut held.messages, Listed::from_vec(Vec::new(alloc))).into_vec()
}

/// Puts a message of a UID that the folder doesn't hold.
pub fn put_in(alloc: Global, held: &mut NumberedFolder, message: Message) -> Result<(), AllocError>
    requires ascends { Ascends uid_of held.old.messages }
    requires free { with_key uid_of message.uid held.old.messages ≡ None }
    ensures ok { OnOk result (held.new ≡ record held.old { messages = put_keyed uid_of message held.old.messages }) }
    ensures err { OnErr result (held.new ≡ held.old) }
{
    let place = place_of(held.messages.as_slice(), u64::from(message.uid));
    let mut messages = take_messages(alloc, held);
    match messages.insert(place, message) {
        Ok(()) => {
            held.messages = Listed::from_vec(messages);
            Ok(())
        }
        Err(_) => {
            held.messages = Listed::from_vec(messages);
            Err(AllocError)
        }
    }
}

/// Takes out the message at a place.
pub fn cut_at(alloc: Global, held: &mut NumberedFolder, uid: u32, at: usize) -> Message
    requires ascends { Ascends uid_of held.old.messages }
    requires there { IsHeldAt uid_of uid held.old.messages at }
    ensures cut { held.new ≡ record held.old { messages = cut_keyed uid_of uid held.old.messages } }
    ensures message { with_key uid_of uid held.old.messages ≡ Some result }
{
    let mut messages = take_messages(alloc, held);
    let message = messages.remove(at);
    held.messages = Listed::from_vec(messages);
    message
}
