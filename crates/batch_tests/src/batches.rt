// Batches of changes of mail, and the tables that they make.
use mail_batches::{BatchError, MailTables, encode_batch, read_items};
use octets::Bytes;
use std::alloc::{AllocError, Global};
use told_mail::{Mirror, NumberedFolder};

/// Octets of a batch before its items.
const HEAD_OCTETS: usize = 2;

/// Adds how much the tables have, or where the items are wrong.
fn put_read(
    tables: &MailTables,
    read: Result<(), BatchError>,
    out: &mut String,
) -> Result<(), AllocError> {
    match read {
        Ok(()) => write!(
            out,
            "{} folders, {} messages",
            tables.folders().len(),
            tables.messages().len()
        ),
        Err(BatchError::Wrong { at }) => write!(out, "wrong at {at}"),
        Err(BatchError::Memory) => out.push_str("no memory"),
    }
}

/// Whether the messages of a folder stand in the tables so.
fn has_messages(tables: &MailTables, held: &NumberedFolder) -> bool {
    held.messages.as_slice().iter().all(|message| match tables.messages().get(&message.mark) {
        Some(placed) => placed.folder == held.folder.number && placed.message == *message,
        None => false,
    })
}

/// Whether the tables are those of the mail.
fn are_tables_of(tables: &MailTables, mirror: &Mirror) -> bool {
    let mut messages: usize = 0;
    for held in mirror.folders() {
        messages = messages.saturating_add(held.messages.as_slice().len());
        match tables.folders().get(&held.folder.number) {
            Some(folder) => {
                if *folder != held.folder || !has_messages(tables, held) {
                    return false;
                }
            }
            None => return false,
        }
    }
    tables.folders().len() == mirror.folders().len() && tables.messages().len() == messages
}

/// The mail that was kept last, and the tables that the batches so far made.
#[derive(Drop)]
pub struct Batches {
    mirror: Mirror,
    tables: MailTables,
    /// What stands before items that are read.
    before: Vec<u8>,
    last: Option<Bytes>,
    alloc: Global,
}

impl Batches {
    /// No mail, and no batch yet.
    pub fn new(alloc: Global) -> Batches {
        Batches {
            mirror: Mirror::new(alloc),
            tables: MailTables::new(alloc),
            before: Vec::new(alloc),
            last: None,
            alloc,
        }
    }

    /// Takes items that stand before those that are read.
    pub fn set_before(&mut self, items: Vec<u8>) {
        self.before = items;
    }

    /// Reads the items, after those before, and adds what comes of them.
    pub fn put_items(&self, items: &[u8], out: &mut String) -> Result<(), AllocError> {
        let mut tables = MailTables::new(self.alloc);
        if read_items(self.alloc, &mut tables, self.before.as_slice()).is_err() {
            return out.push_str("wrong before");
        }
        let read = read_items(self.alloc, &mut tables, items);
        put_read(&tables, read, out)
    }

    /// The octets of the last batch.
    pub fn last(&self) -> &[u8] {
        match &self.last {
            Some(batch) => batch.as_slice(),
            None => &[],
        }
    }

    /// Keeps the batch that leads to this mail, if it is other mail. The answer says whether it is, and whether the tables became those of
    /// the mail.
    pub fn keep(&mut self, mirror: &Mirror) -> Result<Option<bool>, AllocError> {
        if mirror.same_mail(&self.mirror) {
            return Ok(None);
        }
        let batch = encode_batch(self.alloc, &self.mirror, mirror)?;
        let read = match batch.as_slice().get(HEAD_OCTETS..) {
            Some(items) => read_items(self.alloc, &mut self.tables, items).is_ok(),
            None => false,
        };
        self.mirror = mirror.copy()?;
        self.last = Some(batch);
        Ok(Some(read && are_tables_of(&self.tables, &self.mirror)))
    }

    /// Cuts the items of the last batch at each octet, and adds where they are wrong then.
    pub fn put_cuts(&self, out: &mut String) -> Result<(), AllocError> {
        let octets = self.last();
        for end in HEAD_OCTETS..octets.len() {
            let Some(items) = octets.get(HEAD_OCTETS..end) else {
                return Ok(());
            };
            let mut tables = MailTables::new(self.alloc);
            match read_items(self.alloc, &mut tables, items) {
                Ok(()) => out.push_str(" read")?,
                Err(BatchError::Wrong { at }) => write!(out, " {at}")?,
                Err(BatchError::Memory) => out.push_str(" memory")?,
            }
        }
        Ok(())
    }
}
