// Emails and Mailboxes that are written down as lines.
use mail_maps::{EmailRow, MailboxRow, Rights, Role, read_envelope};
use octets::{Bytes, Names, Text};
use std::alloc::{AllocError, Global};
use test_rows::first_word;

/// The number that is written, and 0 where it is none.
pub(crate) fn number(word: &str) -> u64 {
    word.parse::<u64>().unwrap_or(0)
}

/// The keywords, which stand in order and between commas; `-` stands for none.
fn keywords_of(alloc: Global, words: &str) -> Result<Names, AllocError> {
    let mut names = Names::new(alloc);
    for word in words.split(',') {
        if word != "-" {
            names.push(Bytes::copy_of(alloc, word.as_bytes())?)?;
        }
    }
    Ok(names)
}

/// The header whose fields stand between `|`.
fn header_of(alloc: Global, fields: &str) -> Result<Bytes, AllocError> {
    let mut header = Vec::new(alloc);
    for field in fields.split('|') {
        header.extend_from_slice(field.as_bytes())?;
        header.extend_from_slice(b"\r\n")?;
    }
    Bytes::from_vec(header)
}

/// The Email of a line: its number, Mailbox, Thread, octets, time, keywords and the fields of its header.
pub(crate) fn email_of(alloc: Global, line: &str) -> Result<EmailRow, AllocError> {
    let (email, rest) = first_word(line);
    let (folder, rest) = first_word(rest);
    let (thread, rest) = first_word(rest);
    let (size, rest) = first_word(rest);
    let (received, rest) = first_word(rest);
    let (keywords, fields) = first_word(rest);
    let keywords = keywords_of(alloc, keywords)?;
    let header = header_of(alloc, fields)?;
    let envelope = read_envelope(alloc, header.as_slice())?;
    Ok(EmailRow {
        number: number(email),
        mark: number(email),
        folder: number(folder),
        uid: 1,
        keywords,
        received: received.parse::<i64>().unwrap_or(0),
        size: number(size),
        thread: number(thread),
        header,
        envelope,
    })
}

/// The role of a name (RFC 8621 section 2), if it is one.
pub(crate) fn role_of(name: &str) -> Option<Role> {
    match name {
        "inbox" => Some(Role::Inbox),
        "all" => Some(Role::All),
        "archive" => Some(Role::Archive),
        "drafts" => Some(Role::Drafts),
        "flagged" => Some(Role::Flagged),
        "junk" => Some(Role::Junk),
        "sent" => Some(Role::Sent),
        "trash" => Some(Role::Trash),
        _ => None,
    }
}

/// All that the user may do.
fn all_rights() -> Rights {
    Rights {
        may_read_items: true,
        may_add_items: true,
        may_remove_items: true,
        may_set_seen: true,
        may_set_keywords: true,
        may_create_child: true,
        may_rename: true,
        may_delete: true,
        may_submit: true,
    }
}

/// The Mailbox of a line: its number, its parent's number or `-`, its role or `-`, whether it is subscribed, and its name.
pub(crate) fn mailbox_of(alloc: Global, line: &str) -> Result<MailboxRow, AllocError> {
    let (mailbox, rest) = first_word(line);
    let (parent, rest) = first_word(rest);
    let (role, rest) = first_word(rest);
    let (subscribed, name) = first_word(rest);
    Ok(MailboxRow {
        number: number(mailbox),
        name: Text::copy_of(alloc, name)?,
        full_name: Bytes::copy_of(alloc, name.as_bytes())?,
        parent: parent.parse::<u64>().ok(),
        role: role_of(role),
        subscribed: subscribed == "subscribed",
        rights: all_rights(),
        total_emails: 0,
        unread_emails: 0,
        total_threads: 0,
        unread_threads: 0,
    })
}
