// A slow program that reckons what is served of some mail, from what was served before, by the definitions alone.
use crate::shown::put_rows;
use mail_state::{MailState, MailType};
use std::alloc::{AllocError, Global};
use test_rows::put_octets;
use told_mail::{Folder, Message, NumberedFolder};

/// An Email. Its header has one digit each for its own id, the id that it answers and its subject.
#[derive(Clone, Copy)]
struct PlainEmail {
    number: u64,
    mark: u64,
    folder: u64,
    uid: u32,
    /// Whether its message has `\Seen`.
    is_seen: bool,
    /// The date of its message, in seconds since 1970-01-01T00:00:00Z.
    received: i64,
    /// The digits of its own id, of the id that it answers and of its subject, as octets.
    own: u8,
    parent: u8,
    subject: u8,
    thread: u64,
}

/// The types, in the order in which they are compared.
pub(crate) const KINDS: [MailType; 3] = [MailType::Mailbox, MailType::Email, MailType::Thread];

/// The Emails, by number, and the number that the next one gets.
#[derive(Drop)]
pub(crate) struct Plain {
    emails: Vec<PlainEmail>,
    pub next: u64,
    alloc: Global,
}

fn has_flag(message: &Message, name: &[u8]) -> bool {
    message
        .flags
        .as_slice()
        .iter()
        .any(|flag| flag.as_slice() == name)
}

/// What the message says of an Email with this number and Thread.
fn email_of(number: u64, folder: u64, message: &Message, thread: u64) -> PlainEmail {
    let header = message.header.as_slice();
    PlainEmail {
        number,
        mark: message.mark,
        folder,
        uid: message.uid,
        is_seen: has_flag(message, b"\\seen"),
        received: message.date,
        own: header.get(13).copied().unwrap_or(0),
        parent: header.get(32).copied().unwrap_or(0),
        subject: header.get(49).copied().unwrap_or(0),
        thread,
    }
}

/// The visible message of a mark, with its folder's number.
fn visible(folders: &[NumberedFolder], mark: u64) -> Option<(u64, &Message)> {
    for held in folders {
        for message in held.messages.as_slice() {
            if message.mark == mark && !has_flag(message, b"\\deleted") {
                return Some((held.folder.number, message));
            }
        }
    }
    None
}

/// The Thread of the lowest Email that has the subject and names the id which is answered, or else the own id.
fn thread_of(emails: &[PlainEmail], new: &PlainEmail) -> u64 {
    for id in [new.parent, new.own] {
        let named = emails.iter().find(|email| email.subject == new.subject
            && (email.own == id || email.parent == id));
        if let Some(email) = named {
            return email.thread;
        }
    }
    new.number
}

/// Whether one of these Emails is in the folder and the Thread.
fn is_among(emails: &[PlainEmail], folder: u64, thread: u64) -> bool {
    emails
        .iter()
        .any(|email| email.folder == folder && email.thread == thread)
}

/// How many Emails a folder has, how many of them are unread, how many Threads have an Email in it, and how many of these
/// have an unread one anywhere.
fn counts_in(emails: &[PlainEmail], folder: u64) -> [u64; 4] {
    let mut counts = [0_u64; 4];
    for at in 0..emails.len() {
        let email = emails[at];
        if email.folder == folder {
            counts[0] = counts[0].saturating_add(1);
            counts[1] = counts[1].saturating_add(u64::from(!email.is_seen));
        }
        if email.folder == folder && !is_among(&emails[..at], folder, email.thread) {
            let is_unread = emails
                .iter()
                .any(|other| other.thread == email.thread && !other.is_seen);
            counts[2] = counts[2].saturating_add(1);
            counts[3] = counts[3].saturating_add(u64::from(is_unread));
        }
    }
    counts
}

/// The name begins with that of the other folder and `/`.
fn is_below(name: &[u8], other: &[u8]) -> bool {
    name.starts_with(other) && name.get(other.len()..).unwrap_or(&[]).starts_with(b"/")
}

/// The folder with the longest name that is above this one.
fn parent<'a>(folders: &'a [NumberedFolder], name: &[u8]) -> Option<&'a Folder> {
    let mut best: Option<&'a Folder> = None;
    for held in folders {
        let other = held.folder.name.as_slice();
        let len = best.map_or(0, |folder| folder.name.as_slice().len());
        if is_below(name, other) && len < other.len() {
            best = Some(&held.folder);
        }
    }
    best
}

/// Whether the Email is found by its mark.
fn is_found(state: &MailState, email: &PlainEmail) -> bool {
    match state.email_by_mark(email.mark) {
        Some(row) => (row.number, row.mark, row.uid) == (email.number, email.mark, email.uid),
        None => false,
    }
}

impl Plain {
    pub(crate) fn new(alloc: Global) -> Plain {
        Plain {
            emails: Vec::new(alloc),
            next: 1,
            alloc,
        }
    }

    /// Leaves the Emails that remain.
    fn keep(&mut self, folders: &[NumberedFolder]) -> Result<(), AllocError> {
        let mut left = Vec::new(self.alloc);
        for email in &self.emails {
            if let Some((folder, message)) = visible(folders, email.mark) {
                left.push(email_of(email.number, folder, message, email.thread))?;
            }
        }
        self.emails = left;
        Ok(())
    }

    /// Takes a message in, where it is visible and has no Email.
    fn add(&mut self, folder: u64, message: &Message) -> Result<(), AllocError> {
        let is_known = self.emails.iter().any(|email| email.mark == message.mark);
        if is_known || has_flag(message, b"\\deleted") {
            return Ok(());
        }
        let mut new = email_of(self.next, folder, message, 0);
        new.thread = thread_of(&self.emails, &new);
        self.emails.push(new)?;
        self.next = self.next.saturating_add(1);
        Ok(())
    }

    fn add_folder(&mut self, held: &NumberedFolder) -> Result<(), AllocError> {
        for message in held.messages.as_slice() {
            self.add(held.folder.number, message)?;
        }
        Ok(())
    }

    /// Goes on to these folders.
    pub(crate) fn step(&mut self, folders: &[NumberedFolder]) -> Result<(), AllocError> {
        self.keep(folders)?;
        for held in folders {
            self.add_folder(held)?;
        }
        Ok(())
    }

    /// Adds what is served of Emails.
    fn put_emails(&self, out: &mut String) -> Result<(), AllocError> {
        for email in &self.emails {
            let (number, folder, uid, thread) = (
                email.number,
                email.folder,
                email.uid,
                email.thread,
            );
            let seen = if email.is_seen { " $seen" } else { "" };
            write!(out, " e{number} m{folder}/{uid} t{thread}{seen};")?;
        }
        Ok(())
    }

    /// Adds the Threads, by number: each with its Emails in the order of their dates.
    fn put_threads(&self, out: &mut String) -> Result<(), AllocError> {
        let mut places = Vec::new(self.alloc);
        for email in &self.emails {
            places.push((email.thread, email.received, email.number))?;
        }
        places.sort()?;
        let mut last = 0;
        for (thread, _, number) in &places {
            if *thread != last {
                let end = if last == 0 { "" } else { ";" };
                write!(out, "{end} t{thread}")?;
                last = *thread;
            }
            write!(out, " e{number}")?;
        }
        out.push_str(if last == 0 { "" } else { ";" })
    }

    /// Adds the Mailbox of a folder. Names are ASCII, delimiters `/`, and no folder has attributes.
    fn put_mailbox(
        &self,
        out: &mut String,
        folders: &[NumberedFolder],
        folder: &Folder,
    ) -> Result<(), AllocError> {
        let name = folder.name.as_slice();
        let mut from = 0;
        write!(out, " m{} ", folder.number)?;
        if let Some(parent) = parent(folders, name) {
            write!(out, "m{}/", parent.number)?;
            from = parent.name.as_slice().len().saturating_add(1);
        }
        put_octets(out, name.get(from..).unwrap_or(&[]))?;
        let role = if name == b"INBOX".as_slice() {
            " Inbox"
        } else {
            ""
        };
        let [total, unread, threads, unread_threads] = counts_in(&self.emails, folder.number);
        write!(out, ":{role} {total}/{unread} {threads}/{unread_threads};")
    }

    /// Adds the Mailboxes, one for each folder, with what is counted of their Emails.
    fn put_mailboxes(
        &self,
        out: &mut String,
        folders: &[NumberedFolder],
    ) -> Result<(), AllocError> {
        for held in folders {
            self.put_mailbox(out, folders, &held.folder)?;
        }
        Ok(())
    }

    /// Adds what is served of a type.
    fn put_rows(
        &self,
        out: &mut String,
        folders: &[NumberedFolder],
        kind: MailType,
    ) -> Result<(), AllocError> {
        match kind {
            MailType::Email => self.put_emails(out),
            MailType::Mailbox => self.put_mailboxes(out, folders),
            MailType::Thread => self.put_threads(out),
        }
    }

    /// Whether the state serves of each type, and finds by mark, what is reckoned here.
    pub(crate) fn is_served(
        &self,
        state: &MailState,
        folders: &[NumberedFolder],
    ) -> Result<bool, AllocError> {
        let mut served = String::new(self.alloc);
        let mut wanted = String::new(self.alloc);
        for kind in KINDS {
            put_rows(&mut served, state, kind, true)?;
            self.put_rows(&mut wanted, folders, kind)?;
        }
        let are_found = self.emails.iter().all(|email| is_found(state, email));
        Ok(served == wanted && are_found && state.email_by_mark(0).is_none())
    }
}
