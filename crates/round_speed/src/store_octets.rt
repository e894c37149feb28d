// What a store in memory gives.
use std::alloc::{AllocError, Global};

/// UIDs of one slice of a round.
const SLICE: u32 = 10_000;

/// Octets of a header's padding.
const HEADER: usize = 2_978;

/// The octets of a store, with the number of the command that is answered next.
#[derive(Drop)]
struct StoreOctets {
    alloc: Global,
    octets: Vec<u8>,
    number: u32,
}

impl StoreOctets {
    fn put(&mut self, text: &[u8]) -> Result<(), AllocError> {
        self.octets.extend_from_slice(text)?;
        Ok(())
    }

    fn ok(&mut self) -> Result<(), AllocError> {
        let number = self.number;
        let line = format!(in self.alloc; "a{number} OK done\r\n")?;
        self.put(line.as_bytes())?;
        self.number = number.saturating_add(1);
        Ok(())
    }

    fn connect(&mut self) -> Result<(), AllocError> {
        self.put(b"* OK hi\r\n* CAPABILITY IMAP4rev2 QRESYNC\r\n")?;
        self.ok()?;
        self.ok()?;
        self.put(b"* CAPABILITY IMAP4rev2 QRESYNC\r\n")?;
        self.ok()?;
        self.put(b"* ENABLED QRESYNC\r\n")?;
        self.ok()
    }

    fn message(&mut self, uid: u32, header: &[u8]) -> Result<(), AllocError> {
        let count = header.len();
        let line = format!(in self.alloc;
            "* {uid} FETCH (UID {uid} FLAGS (\\Seen) MODSEQ (1) INTERNALDATE \"02-Jan-2024 09:00:00 +0000\" RFC822.SIZE 3006 BODY[HEADER]<0> {{{count}}}\r\n"
        )?;
        self.put(line.as_bytes())?;
        self.put(header)?;
        self.put(b")\r\n")
    }

    fn fetch(&mut self, first: u32, last: u32, header: &[u8]) -> Result<(), AllocError> {
        for uid in first..last.saturating_add(1) {
            self.message(uid, header)?;
        }
        self.ok()
    }

    fn begin_round(&mut self, uid_next: u32) -> Result<(), AllocError> {
        self.put(b"* LIST () \"/\" INBOX\r\n")?;
        self.ok()?;
        let line = format!(in self.alloc;
            "* OK [UIDVALIDITY 7] x\r\n* OK [UIDNEXT {uid_next}] x\r\n* OK [HIGHESTMODSEQ 1] x\r\n"
        )?;
        self.put(line.as_bytes())?;
        self.ok()
    }
}

fn header(alloc: Global) -> Result<Vec<u8>, AllocError> {
    let mut out = Vec::new(alloc);
    out.extend_from_slice(b"Subject: a message\r\nX-")?;
    for at in 0..HEADER {
        out.push(if at == 9 { b':' } else { b'a' })?;
    }
    out.extend_from_slice(b"\r\n\r\n")?;
    Ok(out)
}

/// What a store gives in `connect` and in two rounds over this many messages: all of them in slices, and then the last one
/// alone, as a store answers that is asked for those from one past it on.
pub fn two_rounds(alloc: Global, messages: u32) -> Result<Vec<u8>, AllocError> {
    let header = header(alloc)?;
    let uid_next = messages.saturating_add(1);
    let mut store = StoreOctets {
        alloc,
        octets: Vec::new(alloc),
        number: 1,
    };
    store.connect()?;
    store.begin_round(uid_next)?;
    for slice in 0..messages.div_ceil(SLICE) {
        let before = slice.saturating_mul(SLICE);
        let last = before.saturating_add(SLICE).min(messages);
        store.fetch(before.saturating_add(1), last, &header)?;
    }
    store.begin_round(uid_next)?;
    store.fetch(messages, messages, &header)?;
    Ok(store.octets)
}
