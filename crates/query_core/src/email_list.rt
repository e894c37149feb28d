// The list of a query of Emails.
ghost use Rattle.std.specs.Prelude.{◌≡◌, ◌∷◌, [], IfOk, IfSome, Some, map};
ghost use Rattle.served_maps.specs.Past.{served};
ghost use Rattle.mail_maps.specs.Serve.{Email, email_of};
ghost use Rattle.query_conditions.specs.Entries.{emails_at};
ghost use Rattle.query_conditions.specs.declared.email_condition.RecordCondition.TheVariants.{InMailbox};
ghost use Rattle.mail_state.specs.History.{MailHistory};
ghost use Rattle.mail_state.specs.State.{IsStateOf};
ghost use Rattle.query_orders.specs.Emails.{email_cmp};
ghost use Rattle.query_arguments.specs.Asked.{list_seen};
ghost use Rattle.query_arguments.specs.FilterTrees.{filter_tree};
ghost use Rattle.query_arguments.specs.declared.email_condition.EmailCondition.TheVariants.{Record};
ghost use Rattle.query_lists.specs.Filters.{PassesFilter, conditions};
ghost use Rattle.query_lists.specs.Groups as groups;
ghost use Rattle.query_lists.specs.Ordered.{AscendByNumber};
ghost use Rattle.query_core.specs.Lists.{EmailMatches, IsEmailList};
ghost use Rattle.query_core.specs.reading.Kept.{Keeps};
ghost use Rattle.query_core.specs.reading.Ordered.{AreNumbersAsked};

use crate::calculable::sort_reads_threads;
use crate::email_filter::taken;
use mail_state::{MailState, MailType};
use query_arguments::{AskedList, EmailCondition, Filter};
use query_conditions::{EmailEntry, RecordCondition};
use query_lists::{GroupedRow, first_of_each};
use query_orders::{EmailComparator, numbers_in_order, threads_in_order};
use std::alloc::{AllocError, Global};

/// All Emails, by number.
fn email_entries<'a>(alloc: Global, state: &'a MailState) -> Result<Vec<EmailEntry<'a>>, AllocError>
    ensures rows { IfOk result (λ v. emails_at v.items ≡ served email_of state.now.rows.numbered.rows) }
    ensures ascending { IfOk result (λ v. AscendByNumber (emails_at v.items)) }
{
    let count = state.count(MailType::Email);
    let mut entries = Vec::with_capacity(alloc, count)?;
    for (number, row) in state.emails().iter() {
        entries.push(EmailEntry {
            number: *number,
            row,
        })?;
    }
    Ok(entries)
}

/// The Emails in a Mailbox, by number. The loop does nothing else, so that the processor reads several rows at a time.
fn in_mailbox<'a>(
    alloc: Global,
    state: &'a MailState,
    mailbox: u64,
) -> Result<Vec<EmailEntry<'a>>, AllocError>
    ensures rows { IfOk result (λ v. Keeps (λ e. mailbox ≡ e.1.folder) (served email_of state.now.rows.numbered.rows) (emails_at v.items)) }
    ensures ascending { IfOk result (λ v. AscendByNumber (served email_of state.now.rows.numbered.rows)) }
{
    let count = state.count(MailType::Email);
    let mut entries = Vec::with_capacity(alloc, count)?;
    for (number, row) in state.emails().iter() {
        if mailbox == row.folder {
            entries.push(EmailEntry {
                number: *number,
                row,
            })?;
        }
    }
    Ok(entries)
}

/// The condition, where the filter is one alone.
fn only_condition(filter: &Filter<EmailCondition>) -> Option<&EmailCondition>
    ensures { IfSome result (λ c. filter_tree filter.now ≡ conditions (c.now ∷ [])) }
{
    match filter {
        Filter::Conditions(conditions) => match conditions.as_slice() {
            [only] => Some(only),
            _ => None,
        },
        Filter::Joined(_, _) => None,
    }
}

/// The Mailbox, where the filter asks for the Emails of one and nothing else.
fn only_mailbox(filter: &Filter<EmailCondition>) -> Option<u64>
    ensures { IfSome result (λ m. filter_tree filter.now ≡ conditions (Record (InMailbox (Some m)) ∷ [])) }
{
    match only_condition(filter) {
        Some(EmailCondition::Record(RecordCondition::InMailbox(mailbox))) => *mailbox,
        _ => None,
    }
}

/// The Emails that the filter takes, by number.
fn emails_taken<'a>(
    alloc: Global,
    state: &'a MailState,
    filter: &Filter<EmailCondition>,
) -> Result<Vec<EmailEntry<'a>>, AllocError>
    ensures rows { IfOk result (λ v. Keeps (λ e. PassesFilter (EmailMatches (served email_of state.now.rows.numbered.rows) e.1) (filter_tree filter.now))
        (served email_of state.now.rows.numbered.rows) (emails_at v.items)) }
    ensures ascending { IfOk result (λ v. AscendByNumber (served email_of state.now.rows.numbered.rows)) }
{
    match only_mailbox(filter) {
        Some(mailbox) => in_mailbox(alloc, state, mailbox),
        None => {
            let emails = email_entries(alloc, state)?;
            taken(alloc, &emails, filter)
        }
    }
}

/// Emails of whose Threads the comparators ask: these order as they do with all Emails. All, where one asks of Threads.
fn emails_compared<'a>(
    alloc: Global,
    state: &'a MailState,
    comparators: &Vec<EmailComparator>,
) -> Result<Vec<EmailEntry<'a>>, AllocError>
    ensures { IfOk result (λ v. (a b : Email) → email_cmp (emails_at v.items) comparators.now.items a b
        ≡ email_cmp (served email_of state.now.rows.numbered.rows) comparators.now.items a b) }
{
    if sort_reads_threads(comparators) {
        email_entries(alloc, state)
    } else {
        Ok(Vec::new(alloc))
    }
}

/// The numbers of the first of each Thread (RFC 8621 section 4.4.3).
fn first_of_threads(alloc: Global, rows: &[GroupedRow]) -> Result<Vec<u64>, AllocError>
    ensures { IfOk result (λ v. v.items ≡ map (λ r. r.number) (groups.first_of_each rows.now)) }
{
    let first = first_of_each(alloc, rows)?;
    let mut numbers = Vec::with_capacity(alloc, first.len())?;
    for row in &first {
        numbers.push(row.number)?;
    }
    Ok(numbers)
}

/// The numbers of rows in the order asked: of all, or of the first of each Thread.
fn numbers_asked(
    alloc: Global,
    emails: &[EmailEntry<'_>],
    rows: Vec<EmailEntry<'_>>,
    comparators: &[EmailComparator],
    collapses: bool,
) -> Result<Vec<u64>, AllocError>
    ensures { AscendByNumber (emails_at rows.entry.items)
        → IfOk result (λ v. AreNumbersAsked (emails_at emails.now) comparators.now collapses (emails_at rows.entry.items) v.items) }
{
    if collapses {
        let grouped = threads_in_order(alloc, emails, rows, comparators)?;
        first_of_threads(alloc, &grouped)
    } else {
        numbers_in_order(alloc, emails, rows, comparators)
    }
}

/// The numbers of the Emails that the filter takes, in the order asked (RFC 8621 section 4.4): where Threads are collapsed, of each
/// Thread the first.
pub fn email_numbers(
    alloc: Global,
    state: &MailState,
    asked: &AskedList<EmailCondition, EmailComparator>,
) -> Result<Vec<u64>, AllocError>
    ensures list { IfOk result (λ v. IsEmailList (served email_of state.now.rows.numbered.rows) (list_seen asked.now) v.items) }
    ensures histories { IfOk result (λ v. (h : MailHistory) → IsStateOf h state.now → IsEmailList h.emails.now (list_seen asked.now) v.items) }
{
    let rows = emails_taken(alloc, state, &asked.filter)?;
    let emails = emails_compared(alloc, state, &asked.sort)?;
    numbers_asked(alloc, &emails, rows, &asked.sort, asked.collapses)
}
