// Whether a Mailbox is as a condition says.
ghost use Rattle.std.specs.Prelude.{◌↔◌, ◌≡◌, IsTrue};
ghost use Rattle.mail_maps.specs.Serve.{mailbox_of};
ghost use Rattle.query_conditions.specs.Mailboxes.{IsThereAs, MailboxMatches};

use crate::mailbox_condition::MailboxCondition;
use crate::words::has_word;
use mail_maps::{MailboxRow, Role};

fn has_parent(parent: Option<u64>, mailbox: Option<u64>) -> bool
    ensures { IsTrue result ↔ IsThereAs parent mailbox }
{
    match mailbox {
        None => false,
        Some(_) => parent == mailbox,
    }
}

fn has_role(role: Option<Role>, asked: Option<Role>) -> bool
    ensures { IsTrue result ↔ IsThereAs role asked }
{
    match asked {
        None => false,
        Some(_) => role == asked,
    }
}

/// Whether the Mailbox is as the condition says (RFC 8621 section 2.3). It takes no memory.
pub fn mailbox_matches(row: &MailboxRow, condition: &MailboxCondition) -> bool
    ensures { IsTrue result ↔ MailboxMatches (mailbox_of row.now) condition.now }
{
    match condition {
        MailboxCondition::IsTop => row.parent.is_none(),
        MailboxCondition::HasParent(mailbox) => has_parent(row.parent, *mailbox),
        MailboxCondition::Name(word) => { has_word(word.as_slice(), row.name.as_str().as_bytes()) }
        MailboxCondition::HasNoRole => row.role.is_none(),
        MailboxCondition::HasRole(role) => has_role(row.role, *role),
        MailboxCondition::HasAnyRole(any) => row.role.is_some() == *any,
        MailboxCondition::IsSubscribed(subscribed) => row.subscribed == *subscribed,
    }
}
