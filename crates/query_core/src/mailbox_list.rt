// The list of a query of Mailboxes.
ghost use Rattle.std.specs.Prelude.{◌≡◌, IfOk};
ghost use Rattle.served_maps.specs.Past.{served};
ghost use Rattle.mail_maps.specs.Serve.{mailbox_of};
ghost use Rattle.query_conditions.specs.Mailboxes.{MailboxMatches};
ghost use Rattle.query_orders.specs.Entries.{mailboxes_at};
ghost use Rattle.mail_state.specs.History.{MailHistory};
ghost use Rattle.mail_state.specs.State.{IsStateOf};
ghost use Rattle.query_arguments.specs.Asked.{list_seen};
ghost use Rattle.query_arguments.specs.FilterTrees.{filter_tree};
ghost use Rattle.query_lists.specs.Filters.{PassesFilter};
ghost use Rattle.query_lists.specs.Ordered as ordered;
ghost use Rattle.query_lists.specs.Ordered.{AscendByNumber};
ghost use Rattle.query_core.specs.Lists.{IsMailboxList};
ghost use Rattle.query_core.specs.reading.Kept.{Keeps};

use crate::filter_walk::{Tested, takes};
use crate::kept::keep_if;
use mail_state::{MailState, MailType};
use query_arguments::{AskedList, Filter};
use query_conditions::{MailboxCondition, mailbox_matches};
use query_orders::{MailboxComparator, MailboxEntry, sort_mailboxes};
use std::alloc::{AllocError, Global};

impl<'a> Tested<MailboxCondition> for MailboxEntry<'a> {
    ghost use Rattle.query_conditions.specs.Mailboxes.{MailboxMatches};
    ghost use Rattle.mail_maps.specs.Serve.{mailbox_of};

    ghost Knows = { λ b c. Unit {0} };

    ghost Holds = { λ b c. MailboxMatches (mailbox_of b.row.now) c };

    fn holds(&self, condition: &MailboxCondition) -> Result<bool, AllocError> {
        Ok(mailbox_matches(self.row, condition))
    }
}

/// All Mailboxes, by number.
fn mailbox_entries<'a>(
    alloc: Global,
    state: &'a MailState,
) -> Result<Vec<MailboxEntry<'a>>, AllocError>
    ensures rows { IfOk result (λ v. mailboxes_at v.items ≡ served mailbox_of state.now.rows.mailboxes) }
    ensures ascending { IfOk result (λ v. AscendByNumber (mailboxes_at v.items)) }
{
    let count = state.count(MailType::Mailbox);
    let mut entries = Vec::with_capacity(alloc, count)?;
    for (number, row) in state.mailboxes().iter() {
        entries.push(MailboxEntry {
            number: *number,
            row,
        })?;
    }
    Ok(entries)
}

/// Those that the filter takes, in their order.
fn taken<'a>(
    alloc: Global,
    mailboxes: &[MailboxEntry<'a>],
    filter: &Filter<MailboxCondition>,
) -> Result<Vec<MailboxEntry<'a>>, AllocError>
    ensures { IfOk result (λ v. Keeps (λ b. PassesFilter (MailboxMatches b.1) (filter_tree filter.now)) (mailboxes_at mailboxes.now) (mailboxes_at v.items)) }
{
    let mut rows = Vec::new(alloc);
    for mailbox in mailboxes {
        let taken = takes(mailbox, filter)?;
        keep_if(&mut rows, *mailbox, taken)?;
    }
    Ok(rows)
}

/// The numbers of rows, in their order.
fn numbers_of(alloc: Global, rows: &[MailboxEntry<'_>]) -> Result<Vec<u64>, AllocError>
    ensures { IfOk result (λ v. v.items ≡ ordered.numbers_of (mailboxes_at rows.now)) }
{
    let mut numbers = Vec::with_capacity(alloc, rows.len())?;
    for row in rows {
        numbers.push(row.number)?;
    }
    Ok(numbers)
}

/// The numbers of the Mailboxes that the filter takes, in the order asked (RFC 8621 section 2.3).
pub fn mailbox_numbers(
    alloc: Global,
    state: &MailState,
    asked: &AskedList<MailboxCondition, MailboxComparator>,
) -> Result<Vec<u64>, AllocError>
    ensures list { IfOk result (λ v. IsMailboxList (served mailbox_of state.now.rows.mailboxes) (list_seen asked.now) v.items) }
    ensures histories { IfOk result (λ v. (h : MailHistory) → IsStateOf h state.now → IsMailboxList h.mailboxes.now (list_seen asked.now) v.items) }
{
    let mailboxes = mailbox_entries(alloc, state)?;
    let mut rows = taken(alloc, &mailboxes, &asked.filter)?;
    sort_mailboxes(&mut rows, &asked.sort)?;
    numbers_of(alloc, &rows)
}
