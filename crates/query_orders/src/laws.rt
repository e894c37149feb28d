//! The laws of the orders, as clauses of functions that do nothing.
ghost use Rattle.std.specs.Prelude.{◌↔◌, ℕ, List, Contains, IsPermutation};
ghost use Rattle.std.specs.Cmp.{IsTotalOrder};
ghost use Rattle.mail_maps.specs.Serve.{Email, ServedMailbox};
ghost use Rattle.query_orders.specs.Emails.{email_cmp};
ghost use Rattle.query_orders.specs.Entries.{mailboxes_at};
ghost use Rattle.query_orders.specs.Mailboxes.{mailbox_cmp};
ghost use Rattle.query_orders.specs.declared.comparators.EmailComparator.{EmailComparator};
ghost use Rattle.query_orders.specs.declared.comparators.MailboxComparator.{MailboxComparator};
ghost use Rattle.query_orders.specs.declared.entry.MailboxEntry.{MailboxEntry};

/// The order of Emails is total, by whatever comparators: so a query of them has one list.
pub fn email_order_is_total()
    ensures { (emails : List (ℕ × Email)) (comparators : List EmailComparator) → IsTotalOrder (email_cmp emails comparators) }
{}

/// The same of Mailboxes.
pub fn mailbox_order_is_total()
    ensures { (comparators : List MailboxComparator) → IsTotalOrder (mailbox_cmp comparators) }
{}

/// Rows that were put in order are the Mailboxes that they were.
pub fn the_same_mailboxes()
    ensures { (old new : List MailboxEntry) → IsPermutation old new
        → (e : ℕ × ServedMailbox) → Contains (mailboxes_at new) e ↔ Contains (mailboxes_at old) e }
{}
