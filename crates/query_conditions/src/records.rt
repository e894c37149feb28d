// Whether an Email is as a condition of its own row says.
ghost use Rattle.std.specs.Prelude.{◌↔◌, ◌≡◌, IsTrue};
ghost use Rattle.mail_maps.specs.Serve.{email_of};
ghost use Rattle.query_conditions.specs.Records as records;
ghost use Rattle.query_conditions.specs.Records.{RecordMatches};

use crate::email_condition::{RecordCondition, TextField};
use crate::words::has_words;
use mail_maps::keywords::has_name;
use mail_maps::{EmailRow, Envelope, text_or_empty};

/// The text of a field, as it is searched; it is empty where there is no such field.
pub fn field_text(envelope: &Envelope, field: TextField) -> &[u8]
    ensures { result.now ≡ records.field_text field envelope.now }
{
    match field {
        TextField::From => text_or_empty(&envelope.from.text),
        TextField::To => text_or_empty(&envelope.to.text),
        TextField::Cc => text_or_empty(&envelope.cc),
        TextField::Bcc => text_or_empty(&envelope.bcc),
        TextField::Subject => text_or_empty(&envelope.subject),
    }
}

fn is_in_mailbox(folder: u64, mailbox: Option<u64>) -> bool
    ensures { result ≡ records.is_in_mailbox folder mailbox }
{
    match mailbox {
        None => false,
        Some(mailbox) => mailbox == folder,
    }
}

/// Whether the Email is as the condition says (RFC 8621 section 4.4.1). It takes no memory and reads no header.
pub fn record_matches(row: &EmailRow, condition: &RecordCondition) -> bool
    ensures { IsTrue result ↔ RecordMatches (email_of row.now) condition.now }
{
    match condition {
        RecordCondition::InMailbox(mailbox) => is_in_mailbox(row.folder, *mailbox),
        RecordCondition::InMailboxOtherThan(mailboxes) => !mailboxes.contains(&row.folder),
        RecordCondition::Before(time) => row.received < *time,
        RecordCondition::After(time) => *time <= row.received,
        RecordCondition::MinSize(size) => *size <= row.size,
        RecordCondition::MaxSize(size) => row.size < *size,
        RecordCondition::HasKeyword(keyword) => has_name(keyword.as_slice(), &row.keywords),
        RecordCondition::NotKeyword(keyword) => !has_name(keyword.as_slice(), &row.keywords),
        RecordCondition::InField { field, words } => {
            has_words(words, field_text(&row.envelope, *field))
        }
    }
}
