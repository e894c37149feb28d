// Rows that are served, and what changed in them, as text.
use change_list::{ChangeList, Changes};
use mail_maps::{EmailRow, Envelope, MailboxRow};
use mail_state::{MailState, MailType};
use octets::Bytes;
use std::alloc::AllocError;
use test_rows::put_octets;
use thread_rule::next_id;

/// ` e3 m1/5 t2 $seen;`: the Email, its Mailbox, its UID, which isn't served and may be left out, its Thread and keywords.
fn put_email(out: &mut String, row: &EmailRow, uids: bool) -> Result<(), AllocError> {
    write!(out, " e{} m{}", row.number, row.folder)?;
    if uids {
        write!(out, "/{}", row.uid)?;
    }
    write!(out, " t{}", row.thread)?;
    for keyword in row.keywords.as_slice() {
        out.push(' ')?;
        put_octets(out, keyword.as_slice())?;
    }
    out.push(';')
}

/// ` m3 m1/Work: Sent 2/1 4/3;`: the Mailbox, its parent, name and role, how many Emails, unread ones, Threads and unread Threads.
fn put_mailbox(out: &mut String, row: &MailboxRow) -> Result<(), AllocError> {
    write!(out, " m{} ", row.number)?;
    if let Some(parent) = row.parent {
        write!(out, "m{parent}/")?;
    }
    write!(out, "{}:", row.name.as_str())?;
    if let Some(role) = row.role {
        write!(out, " {role:?}")?;
    }
    let (emails, unread) = (row.total_emails, row.unread_emails);
    let (threads, unread_threads) = (row.total_threads, row.unread_threads);
    write!(out, " {emails}/{unread} {threads}/{unread_threads};")
}

/// ` t1 e1 e4;`: the Thread and its Emails, in their order.
fn put_thread(out: &mut String, thread: u64, emails: &[u64]) -> Result<(), AllocError> {
    write!(out, " t{thread}")?;
    put_ids(out, "e", emails)?;
    out.push(';')
}

/// Adds the row of a type and number, where there is one.
pub(crate) fn put_row(
    out: &mut String,
    state: &MailState,
    kind: MailType,
    number: u64,
    uids: bool,
) -> Result<(), AllocError> {
    match kind {
        MailType::Email => match state.email(number) {
            Some(row) => put_email(out, row, uids),
            None => Ok(()),
        },
        MailType::Mailbox => match state.mailbox(number) {
            Some(row) => put_mailbox(out, row),
            None => Ok(()),
        },
        MailType::Thread => match state.thread(number) {
            Some(emails) => put_thread(out, number, emails),
            None => Ok(()),
        },
    }
}

/// Adds the rows of a type, with UIDs or without.
pub(crate) fn put_rows(
    out: &mut String,
    state: &MailState,
    kind: MailType,
    uids: bool,
) -> Result<(), AllocError> {
    for number in &state.numbers(kind)? {
        put_row(out, state, kind, *number, uids)?;
    }
    Ok(())
}

fn put_ids(out: &mut String, letters: &str, ids: &[u64]) -> Result<(), AllocError> {
    for id in ids {
        write!(out, " {letters}{id}")?;
    }
    Ok(())
}

/// ` e-1`, ` e~2`, ` e#2` and ` e+3`: an id that is gone, changed, changed in its counts alone, and new.
fn put_changes(
    out: &mut String,
    [gone, changed, counts, new]: [&str; 4],
    changes: &Changes,
) -> Result<(), AllocError> {
    let changed = if changes.counts_only { counts } else { changed };
    put_ids(out, gone, changes.destroyed.as_slice())?;
    put_ids(out, changed, changes.updated.as_slice())?;
    put_ids(out, new, changes.created.as_slice())
}

/// Adds what changed in a type since a place, one touch after the other.
pub(crate) fn put_touches(
    out: &mut String,
    letters: [&str; 4],
    list: &ChangeList,
    from: u64,
) -> Result<(), AllocError> {
    for place in from..list.place() {
        match list.since(place, Some(1)) {
            Ok(changes) if changes.to == place.saturating_add(1) => {
                put_changes(out, letters, &changes)?
            }
            _ => out.push_str(" otherwise")?,
        }
    }
    Ok(())
}

/// Adds a text of a header, `-` where there is none, and `|`.
fn put_part(out: &mut String, part: &Option<Bytes>) -> Result<(), AllocError> {
    match part {
        Some(text) => put_octets(out, text.as_slice())?,
        None => out.push('-')?,
    }
    out.push('|')
}

/// Adds the ids of a text.
fn put_message_ids(out: &mut String, text: &[u8]) -> Result<(), AllocError> {
    let mut rest = text;
    for _ in 0..text.len() {
        let Some((id, more)) = next_id(rest) else {
            break;
        };
        out.push(' ')?;
        put_octets(out, id)?;
        rest = more;
    }
    Ok(())
}

/// Adds what is read of a header.
pub(crate) fn put_envelope(out: &mut String, read: &Envelope) -> Result<(), AllocError> {
    let (from, to) = (&read.from, &read.to);
    for part in [
        &read.subject,
        &from.text,
        &from.first,
        &to.text,
        &to.first,
        &read.cc,
        &read.bcc,
    ] {
        put_part(out, part)?;
    }
    put_octets(out, read.base.as_slice())?;
    write!(out, "|{:?}", read.sent_at)?;
    put_message_ids(out, read.ids.as_text())
}
