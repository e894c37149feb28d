// The flags of a message that is held.
ghost use Rattle.std.specs.Prelude.{◌≡◌, Some, None};
ghost use Rattle.told_folder.specs.Folders.{uid_of};
ghost use Rattle.told_folder.specs.Keyed.{Ascends, with_key, put_keyed};

use crate::{Message, NumberedFolder};
use octets::{Listed, Names};
use std::alloc::Global;
use told_folder::messages::Messages;
use told_folder::puts::take_messages;

/// Gives the message of the UID these flags, where it is held. No other message is moved.
pub fn set_flags_in(alloc: Global, held: &mut NumberedFolder, uid: u32, flags: Names)
    requires { Ascends uid_of held.old.messages }
    ensures held { (x : Message) → with_key uid_of uid held.old.messages ≡ Some x → held.new ≡ record held.old { messages = put_keyed uid_of (record x { flags = flags }) held.old.messages } }
    ensures none { with_key uid_of uid held.old.messages ≡ None → held.new ≡ held.old }
{
    let mut messages = Messages::new(alloc, take_messages(alloc, held));
    messages.set_flags(uid, flags);
    held.messages = Listed::from_vec(messages.into_vec());
}
