// Which Emails a condition takes.
use crate::mail::number;
use mail_maps::EmailRow;
use octets::Bytes;
use query_conditions::{
    EmailEntry, Quantity, RecordCondition, TextField, keyword_threads, record_matches,
    thread_matches,
};
use search_words::search_words;
use std::alloc::{AllocError, Global};
use std::collections::BTreeSet;

/// The numbers of Mailboxes, between spaces.
fn mailboxes_of(alloc: Global, words: &str) -> Result<BTreeSet<u64>, AllocError> {
    let mut mailboxes = BTreeSet::new(alloc);
    for word in words.split_whitespace() {
        mailboxes.insert(number(word))?;
    }
    Ok(mailboxes)
}

/// The field of a name, if a condition speaks of its text.
fn field_of(name: &str) -> Option<TextField> {
    match name {
        "from" => Some(TextField::From),
        "to" => Some(TextField::To),
        "cc" => Some(TextField::Cc),
        "bcc" => Some(TextField::Bcc),
        "subject" => Some(TextField::Subject),
        _ => None,
    }
}

/// The condition of a name that speaks of the text of a field.
fn text_condition(
    alloc: Global,
    name: &str,
    text: &str,
) -> Result<Option<RecordCondition>, AllocError> {
    let Some(field) = field_of(name) else {
        return Ok(None);
    };
    match search_words(alloc, text.as_bytes())? {
        None => Ok(None),
        Some(words) => Ok(Some(RecordCondition::InField { field, words })),
    }
}

/// The condition of a name that speaks of a keyword or of the text of a field.
fn worded_condition(
    alloc: Global,
    name: &str,
    word: &str,
) -> Result<Option<RecordCondition>, AllocError> {
    match name {
        "hasKeyword" => {
            let keyword = Bytes::copy_of(alloc, word.as_bytes())?;
            Ok(Some(RecordCondition::HasKeyword(keyword)))
        }
        "notKeyword" => {
            let keyword = Bytes::copy_of(alloc, word.as_bytes())?;
            Ok(Some(RecordCondition::NotKeyword(keyword)))
        }
        _ => text_condition(alloc, name, word),
    }
}

/// The condition of this name and argument.
fn record_condition(
    alloc: Global,
    name: &str,
    argument: &str,
) -> Result<Option<RecordCondition>, AllocError> {
    let time = argument.parse::<i64>().unwrap_or(0);
    match name {
        "inMailbox" => Ok(Some(RecordCondition::InMailbox(argument.parse::<u64>().ok()))),
        "inMailboxOtherThan" => {
            let mailboxes = mailboxes_of(alloc, argument)?;
            Ok(Some(RecordCondition::InMailboxOtherThan(mailboxes)))
        }
        "before" => Ok(Some(RecordCondition::Before(time))),
        "after" => Ok(Some(RecordCondition::After(time))),
        "minSize" => Ok(Some(RecordCondition::MinSize(number(argument)))),
        "maxSize" => Ok(Some(RecordCondition::MaxSize(number(argument)))),
        _ => worded_condition(alloc, name, argument),
    }
}

/// Adds the numbers of the Emails that the condition of their own rows takes.
fn put_by_record(
    emails: &[EmailRow],
    condition: &RecordCondition,
    out: &mut String,
) -> Result<(), AllocError> {
    for email in emails {
        if record_matches(email, condition) {
            write!(out, " e{}", email.number)?;
        }
    }
    Ok(())
}

/// Adds the numbers of the Emails of whose Thread so many have the keyword.
fn put_by_thread(
    alloc: Global,
    emails: &[EmailRow],
    quantity: Quantity,
    keyword: &[u8],
    out: &mut String,
) -> Result<(), AllocError> {
    let mut entries = Vec::new(alloc);
    for row in emails {
        entries.push(EmailEntry {
            number: row.number,
            row,
        })?;
    }
    let threads = keyword_threads(alloc, &entries, keyword)?;
    for email in emails {
        if thread_matches(&threads, quantity, email.thread) {
            write!(out, " e{}", email.number)?;
        }
    }
    Ok(())
}

/// How many Emails of a Thread a condition of this name speaks of.
fn quantity_of(name: &str) -> Option<Quantity> {
    match name {
        "allInThreadHaveKeyword" => Some(Quantity::All),
        "someInThreadHaveKeyword" => Some(Quantity::Some),
        "noneInThreadHaveKeyword" => Some(Quantity::None),
        _ => None,
    }
}

/// Adds the numbers of the Emails that the condition of this name and argument takes.
pub(crate) fn put_taken(
    alloc: Global,
    emails: &[EmailRow],
    name: &str,
    argument: &str,
    out: &mut String,
) -> Result<(), AllocError> {
    if let Some(quantity) = quantity_of(name) {
        return put_by_thread(alloc, emails, quantity, argument.as_bytes(), out);
    }
    match record_condition(alloc, name, argument)? {
        None => out.push_str(" no such condition"),
        Some(condition) => put_by_record(emails, &condition, out),
    }
}
