// Which Mailboxes a condition takes.
use crate::mail::role_of;
use mail_maps::MailboxRow;
use octets::Bytes;
use query_conditions::{MailboxCondition, mailbox_matches};
use std::alloc::{AllocError, Global};
use test_rows::first_word;

/// The condition of this name and argument; `null` stands for null.
fn mailbox_condition(
    alloc: Global,
    name: &str,
    argument: &str,
) -> Result<Option<MailboxCondition>, AllocError> {
    match (name, argument) {
        ("parentId", "null") => Ok(Some(MailboxCondition::IsTop)),
        ("parentId", _) => Ok(Some(MailboxCondition::HasParent(argument.parse::<u64>().ok()))),
        ("role", "null") => Ok(Some(MailboxCondition::HasNoRole)),
        ("role", _) => Ok(Some(MailboxCondition::HasRole(role_of(argument)))),
        ("hasAnyRole", _) => Ok(Some(MailboxCondition::HasAnyRole(argument == "true"))),
        ("isSubscribed", _) => Ok(Some(MailboxCondition::IsSubscribed(argument == "true"))),
        ("name", _) => {
            let word = Bytes::copy_of(alloc, argument.as_bytes())?;
            Ok(Some(MailboxCondition::Name(word)))
        }
        _ => Ok(None),
    }
}

/// Adds the numbers of the Mailboxes that the condition takes, which is its name and its argument.
pub(crate) fn put_taken(
    alloc: Global,
    mailboxes: &[MailboxRow],
    condition: &str,
    out: &mut String,
) -> Result<(), AllocError> {
    let (name, argument) = first_word(condition);
    let Some(condition) = mailbox_condition(alloc, name, argument)? else {
        return out.push_str(" no such condition");
    };
    for mailbox in mailboxes {
        if mailbox_matches(mailbox, &condition) {
            write!(out, " m{}", mailbox.number)?;
        }
    }
    Ok(())
}
