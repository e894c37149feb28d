// What an item of a changing call asks of the store, step by step.

use imap_types::Command;
use octets::Bytes;

/// A step of an item.
#[derive(Debug, PartialEq, Drop)]
pub enum Step {
    /// SELECT of a folder, after which the message of the mark has to be shown.
    Select { folder: u64, mark: u64 },
    /// UNSELECT, as a folder is selected.
    Unselect,
    /// A command that changes mail, which has to be obeyed; the OK to MOVE and APPEND has to tell where the message went.
    Change(Command),
    /// STORE of `\Deleted`, after which the message has to have it, or be gone.
    Delete { uid: u32 },
    /// UID EXPUNGE, whatever the answer.
    Expunge { uid: u32 },
    /// LIST, which has to tell this name; with special-use attributes where the store tells them.
    List { name: Bytes, special_use: bool },
    /// SELECT of the folder of this name, which was made.
    SelectMade { name: Bytes },
}
