// Whether a mirror tells the mail of a store.
use small_mail::{StoredFolder, StoredMessage};
use told_mail::{Message, Mirror, NumberedFolder};

/// The mod-sequence of a message isn't told by a mirror.
fn is_message(stored: &StoredMessage, told: &Message) -> bool {
    stored.uid() == told.uid
        && stored.flags() == &told.flags
        && stored.date() == told.date
        && stored.size() == told.size
        && stored.octets().starts_with(told.header.as_slice())
}

fn are_messages(stored: &[StoredMessage], told: &[Message]) -> bool {
    stored.len() == told.len()
        && stored
            .iter()
            .zip(told.iter())
            .all(|(stored, told)| is_message(stored, told))
}

fn is_folder(stored: &StoredFolder, told: &NumberedFolder) -> bool {
    let folder = &told.folder;
    stored.name() == &folder.name
        && stored.attributes() == &folder.attributes
        && stored.validity() == folder.validity
        && stored.highest() == folder.modseq
        && are_messages(stored.messages(), told.messages.as_slice())
}

/// Whether the mirror has these folders and no others, each with its UIDVALIDITY, its highest mod-sequence and its messages.
pub(crate) fn is_told(stored: &[StoredFolder], mirror: &Mirror) -> bool {
    let told = mirror.folders();
    stored.len() == told.len()
        && stored
            .iter()
            .all(|stored| told.iter().any(|told| is_folder(stored, told)))
}
