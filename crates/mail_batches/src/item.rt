// One change of the mail, as a batch has it.
use octets::Names;
use told_mail::{Folder, Message};

/// One change of the mail. No item says what was so before.
#[derive(Debug, PartialEq, Drop)]
pub enum Item {
    /// The message of the mark is gone.
    MessageGone {
        /// Its mark.
        mark: u64,
    },
    /// The folder of the number is gone, which takes no message with it.
    FolderGone {
        /// Its number.
        number: u64,
    },
    /// A folder is new, or is now as this one.
    FolderPut {
        /// The folder.
        folder: Folder,
    },
    /// A message is new.
    MessagePut {
        /// The number of its folder.
        folder: u64,
        /// The message.
        message: Message,
    },
    /// A message stands at a place, and has flags.
    MessageSet {
        /// Its mark.
        mark: u64,
        /// The number of its folder.
        folder: u64,
        /// Its UID there.
        uid: u32,
        /// In kept form.
        flags: Names,
    },
}
