// A client's copy of INBOX, brought up to date by what a SELECT tells.
use imap_grammar::{Code, FetchItems, Response};
use imap_types::UidSet;
use octets::Names;
use small_mail::StoredFolder;
use std::alloc::{AllocError, Global};
use std::collections::BTreeMap;

/// The messages by their UIDs, each with its flags and its mod-sequence as text.
#[derive(Drop)]
pub(crate) struct Copy {
    pub modseq: u64,
    count: u32,
    messages: BTreeMap<u32, String>,
    alloc: Global,
}

impl Copy {
    /// What the folder holds.
    pub(crate) fn new(alloc: Global, folder: &StoredFolder) -> Result<Copy, AllocError> {
        let mut copy = Copy {
            modseq: folder.highest(),
            count: 0,
            messages: BTreeMap::new(alloc),
            alloc,
        };
        for message in folder.messages() {
            copy.put(message.uid(), message.flags(), message.modseq())?;
            copy.count = copy.count.saturating_add(1);
        }
        Ok(copy)
    }

    fn put(&mut self, uid: u32, flags: &Names, modseq: u64) -> Result<(), AllocError> {
        let text = format!(in self.alloc; "{flags:?} {modseq}")?;
        self.messages.insert(uid, text)?;
        Ok(())
    }

    fn take_out(&mut self, uids: &UidSet) {
        for range in uids.ranges.as_slice() {
            for uid in range.first..=range.last {
                self.messages.remove(&uid);
            }
        }
    }

    fn put_items(&mut self, items: &FetchItems) -> Result<(), AllocError> {
        match items {
            FetchItems {
                uid: Some(uid),
                flags: Some(flags),
                modseq: Some(modseq),
                ..
            } => self.put(*uid, flags, *modseq),
            _ => Ok(()),
        }
    }

    /// Takes what a response to a SELECT tells.
    pub(crate) fn take(&mut self, response: &Response) -> Result<(), AllocError> {
        match response {
            Response::Exists(count) => self.count = *count,
            Response::Untagged {
                code: Code::HighestModSeq(modseq),
                ..
            } => self.modseq = *modseq,
            Response::Vanished {
                earlier: true,
                uids,
            } => self.take_out(uids),
            Response::Fetch { items, .. } => self.put_items(items)?,
            _ => {}
        }
        Ok(())
    }

    /// Whether both copies say the same.
    pub(crate) fn is_as(&self, other: &Copy) -> bool {
        self.modseq == other.modseq && self.count == other.count && self.messages == other.messages
    }
}
