// When rows are served alike.
ghost use Rattle.std.specs.Prelude.{◌≡◌};
ghost use Rattle.mail_maps.specs.Serve as serve;
ghost use Rattle.mail_maps.specs.Serve.{mailbox_of, same_mailbox, same_but_counts, same_thread, never};

use crate::roles::same_role;
use crate::{MailboxRow, Rights, Thread};
use served_maps::Row;

fn same_rights(one: &Rights, other: &Rights) -> bool
    ensures { result ≡ serve.same_rights one.now other.now }
{
    one.may_read_items == other.may_read_items
        && one.may_add_items == other.may_add_items
        && one.may_remove_items == other.may_remove_items
        && one.may_set_seen == other.may_set_seen
        && one.may_set_keywords == other.may_set_keywords
        && one.may_create_child == other.may_create_child
        && one.may_rename == other.may_rename
        && one.may_delete == other.may_delete
        && one.may_submit == other.may_submit
}

fn same_counts(one: &MailboxRow, other: &MailboxRow) -> bool
    ensures { result ≡ serve.same_counts (serve.counts_of one.now) (serve.counts_of other.now) }
{
    one.total_emails == other.total_emails
        && one.unread_emails == other.unread_emails
        && one.total_threads == other.total_threads
        && one.unread_threads == other.unread_threads
}

impl Row for MailboxRow {
    ghost same = { λ a b. same_mailbox (mailbox_of a) (mailbox_of b) };

    ghost but_for_counts = { λ a b. same_but_counts (mailbox_of a) (mailbox_of b) };

    fn is_same(&self, other: &MailboxRow) -> bool {
        self.is_same_but_for_counts(other) && same_counts(self, other)
    }

    fn is_same_but_for_counts(&self, other: &MailboxRow) -> bool {
        self.name.as_str() == other.name.as_str()
            && self.parent == other.parent
            && same_role(self.role, other.role)
            && self.subscribed == other.subscribed
            && same_rights(&self.rights, &other.rights)
    }
}

impl Row for Thread {
    ghost same = { same_thread };

    ghost but_for_counts = { never };

    fn is_same(&self, other: &Thread) -> bool {
        self.emails() == other.emails()
    }

    fn is_same_but_for_counts(&self, _other: &Thread) -> bool {
        false
    }
}
