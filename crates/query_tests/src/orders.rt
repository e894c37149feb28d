// Emails and Mailboxes in order.
use mail_maps::{EmailRow, MailboxRow};
use octets::Bytes;
use query_conditions::EmailEntry;
use query_orders::{
    EmailComparator, EmailSort, MailboxComparator, MailboxEntry, MailboxSort, numbers_in_order,
    sort_mailboxes,
};
use std::alloc::{AllocError, Global};

/// The property of a comparator, and whether it is ascending.
fn parts_of(word: &str) -> (&str, bool) {
    match word.strip_prefix('-') {
        None => (word, true),
        Some(property) => (property, false),
    }
}

/// The property of a name that speaks of a keyword.
fn keyword_sort(alloc: Global, name: &str, keyword: &str) -> Result<Option<EmailSort>, AllocError> {
    let keyword = Bytes::copy_of(alloc, keyword.as_bytes())?;
    match name {
        "hasKeyword" => Ok(Some(EmailSort::HasKeyword(keyword))),
        "allInThreadHaveKeyword" => Ok(Some(EmailSort::AllInThreadHaveKeyword(keyword))),
        "someInThreadHaveKeyword" => Ok(Some(EmailSort::SomeInThreadHaveKeyword(keyword))),
        _ => Ok(None),
    }
}

/// The property of a name, which a keyword may follow behind `:`.
fn email_sort(alloc: Global, property: &str) -> Result<Option<EmailSort>, AllocError> {
    let (name, keyword) = property.split_once(':').unwrap_or((property, ""));
    match name {
        "receivedAt" => Ok(Some(EmailSort::ReceivedAt)),
        "size" => Ok(Some(EmailSort::Size)),
        "from" => Ok(Some(EmailSort::From)),
        "to" => Ok(Some(EmailSort::To)),
        "subject" => Ok(Some(EmailSort::Subject)),
        "sentAt" => Ok(Some(EmailSort::SentAt)),
        _ => keyword_sort(alloc, name, keyword),
    }
}

/// The comparators of Emails, between spaces; those of no known property are passed over.
fn email_comparators(alloc: Global, words: &str) -> Result<Vec<EmailComparator>, AllocError> {
    let mut comparators = Vec::new(alloc);
    for word in words.split_whitespace() {
        let (property, is_ascending) = parts_of(word);
        if let Some(property) = email_sort(alloc, property)? {
            comparators.push(EmailComparator {
                property,
                is_ascending,
            })?;
        }
    }
    Ok(comparators)
}

/// Adds the numbers of all Emails, in the order of the comparators.
pub(crate) fn put_emails(
    alloc: Global,
    emails: &[EmailRow],
    words: &str,
    out: &mut String,
) -> Result<(), AllocError> {
    let comparators = email_comparators(alloc, words)?;
    let mut entries = Vec::new(alloc);
    let mut rows = Vec::new(alloc);
    for row in emails {
        let number = row.number;
        entries.push(EmailEntry { number, row })?;
        rows.push(EmailEntry { number, row })?;
    }
    for number in &numbers_in_order(alloc, &entries, rows, &comparators)? {
        write!(out, " e{number}")?;
    }
    Ok(())
}

/// The property of a name.
fn mailbox_sort(name: &str) -> Option<MailboxSort> {
    match name {
        "name" => Some(MailboxSort::Name),
        "sortOrder" => Some(MailboxSort::SortOrder),
        _ => None,
    }
}

/// The comparators of Mailboxes, between spaces; those of no known property are passed over.
fn mailbox_comparators(alloc: Global, words: &str) -> Result<Vec<MailboxComparator>, AllocError> {
    let mut comparators = Vec::new(alloc);
    for word in words.split_whitespace() {
        let (property, is_ascending) = parts_of(word);
        if let Some(property) = mailbox_sort(property) {
            comparators.push(MailboxComparator {
                property,
                is_ascending,
            })?;
        }
    }
    Ok(comparators)
}

/// Adds the numbers of all Mailboxes, in the order of the comparators.
pub(crate) fn put_mailboxes(
    alloc: Global,
    mailboxes: &[MailboxRow],
    words: &str,
    out: &mut String,
) -> Result<(), AllocError> {
    let comparators = mailbox_comparators(alloc, words)?;
    let mut rows = Vec::new(alloc);
    for row in mailboxes {
        rows.push(MailboxEntry {
            number: row.number,
            row,
        })?;
    }
    sort_mailboxes(&mut rows, &comparators)?;
    for mailbox in &rows {
        write!(out, " m{}", mailbox.number)?;
    }
    Ok(())
}
