// Emails that a filter takes.
ghost use Rattle.std.specs.Prelude.{◌≡◌, IfOk, map};
ghost use Rattle.std.specs.List.{AllByRecursion};
ghost use Rattle.query_conditions.specs.Entries.{emails_at};
ghost use Rattle.query_conditions.specs.Records.{RecordMatches};
ghost use Rattle.query_arguments.specs.FilterTrees.{filter_tree, trees_of};
ghost use Rattle.query_lists.specs.Filters.{PassesEach, PassesFilter};
ghost use Rattle.query_core.specs.Lists.{EmailMatches};
ghost use Rattle.query_core.specs.reading.ConditionsRead as conditions_read;
ghost use Rattle.query_core.specs.reading.Found.{EachCondition, EachConditionOf, KnowsThreads};
ghost use Rattle.query_core.specs.reading.Kept.{Keeps};

use crate::emails::TestedEmail;
use crate::filter_walk::{Tested, takes};
use crate::kept::keep_if;
use crate::keyword_threads::{FoundThreads, threads_for};
use crate::searched_fields::searches_again;
use crate::text_search::having_words;
use query_arguments::{EmailCondition, Filter};
use query_conditions::{EmailEntry, RecordCondition, record_matches};
use query_lists::FilterOperator;
use std::alloc::{AllocError, Global};

/// Those of which the condition holds, in their order. The filter isn't walked for each row.
fn matching<'a>(
    alloc: Global,
    emails: &[EmailEntry<'a>],
    rows: &[EmailEntry<'a>],
    found: &FoundThreads,
    condition: &EmailCondition,
) -> Result<Vec<EmailEntry<'a>>, AllocError>
    ensures { KnowsThreads (emails_at emails.now) found.now condition.now
        → IfOk result (λ v. Keeps (λ e. EmailMatches (emails_at emails.now) e.1 condition.now) (emails_at rows.now) (emails_at v.items)) }
{
    let mut kept = Vec::with_capacity(alloc, rows.len())?;
    for email in rows {
        let tested = TestedEmail {
            alloc,
            emails: &*emails,
            found,
            email: *email,
        };
        let holds = tested.holds(condition)?;
        keep_if(&mut kept, *email, holds)?;
    }
    Ok(kept)
}

/// Leaves those of which the condition holds. It takes no memory.
fn retain_matching(rows: &mut Vec<EmailEntry<'_>>, condition: &RecordCondition)
    ensures { Keeps (λ e. RecordMatches e.1 condition.now) (emails_at rows.old.items) (emails_at rows.new.items) }
{
    rows.retain(|email| record_matches(email.row, condition));
}

/// Those of which the condition holds, in their order: where it is one of a field's text, all texts are copied before they are
/// searched; another one of the row itself takes no memory.
fn satisfying<'a>(
    alloc: Global,
    emails: &[EmailEntry<'a>],
    rows: Vec<EmailEntry<'a>>,
    found: &FoundThreads,
    condition: &EmailCondition,
) -> Result<Vec<EmailEntry<'a>>, AllocError>
    ensures { KnowsThreads (emails_at emails.now) found.now condition.now
        → IfOk result (λ v. Keeps (λ e. EmailMatches (emails_at emails.now) e.1 condition.now) (emails_at rows.entry.items) (emails_at v.items)) }
{
    if let EmailCondition::Record(record) = condition {
        if let RecordCondition::InField { field, words } = record {
            return having_words(alloc, &rows, *field, words);
        }
        let mut left = rows;
        retain_matching(&mut left, record);
        return Ok(left);
    }
    matching(alloc, emails, &rows, found, condition)
}

/// Whether the condition is one of a field's text.
fn is_of_text(condition: &RecordCondition) -> bool
    ensures { result ≡ conditions_read.is_of_text condition.now }
{
    match condition {
        RecordCondition::InMailbox(_) => false,
        RecordCondition::InMailboxOtherThan(_) => false,
        RecordCondition::Before(_) => false,
        RecordCondition::After(_) => false,
        RecordCondition::MinSize(_) => false,
        RecordCondition::MaxSize(_) => false,
        RecordCondition::HasKeyword(_) => false,
        RecordCondition::NotKeyword(_) => false,
        RecordCondition::InField { field: _, words: _ } => true,
    }
}

/// Whether the condition reads a text or a header, which takes much longer than what stands in the row itself.
fn reads_text(condition: &EmailCondition) -> bool
    ensures { result ≡ conditions_read.reads_text condition.now }
{
    match condition {
        EmailCondition::Record(condition) => is_of_text(condition),
        EmailCondition::Header(_, _) => true,
        EmailCondition::Thread(_, _) => false,
    }
}

/// Those of which the condition holds; all, where it isn't of this kind: one that reads a text or a header, or one that doesn't.
fn narrowed_if<'a>(
    alloc: Global,
    emails: &[EmailEntry<'a>],
    rows: Vec<EmailEntry<'a>>,
    found: &FoundThreads,
    condition: &EmailCondition,
    of_texts: bool,
) -> Result<Vec<EmailEntry<'a>>, AllocError>
    ensures { KnowsThreads (emails_at emails.now) found.now condition.now
        → IfOk result (λ v. Keeps (λ e. conditions_read.reads_text condition.now ≡ of_texts → EmailMatches (emails_at emails.now) e.1 condition.now)
        (emails_at rows.entry.items) (emails_at v.items)) }
{
    if reads_text(condition) == of_texts {
        satisfying(alloc, emails, rows, found, condition)
    } else {
        Ok(rows)
    }
}

/// Those of which each condition holds that reads a text, or each that doesn't, in their order: a condition is tested of those that
/// are left by the ones before it.
fn narrowed_by<'a>(
    alloc: Global,
    emails: &[EmailEntry<'a>],
    rows: Vec<EmailEntry<'a>>,
    found: &FoundThreads,
    conditions: &Vec<EmailCondition>,
    of_texts: bool,
) -> Result<Vec<EmailEntry<'a>>, AllocError>
    ensures { AllByRecursion (KnowsThreads (emails_at emails.now) found.now) conditions.now.items
        → IfOk result (λ v. Keeps (λ e. AllByRecursion (λ c. conditions_read.reads_text c ≡ of_texts → EmailMatches (emails_at emails.now) e.1 c) conditions.now.items)
        (emails_at rows.entry.items) (emails_at v.items)) }
{
    let mut rows = rows;
    for condition in conditions {
        rows = narrowed_if(alloc, emails, rows, found, condition, of_texts)?;
    }
    Ok(rows)
}

/// Those of which each condition holds, in their order. Texts and headers are read last, of the Emails that are left then: JSON has
/// the conditions by name, so that `from` stands before `inMailbox`. Each has a name of its own, so there are some twenty at most.
fn narrowed<'a>(
    alloc: Global,
    emails: &[EmailEntry<'a>],
    rows: Vec<EmailEntry<'a>>,
    found: &FoundThreads,
    conditions: &Vec<EmailCondition>,
) -> Result<Vec<EmailEntry<'a>>, AllocError>
    ensures { AllByRecursion (KnowsThreads (emails_at emails.now) found.now) conditions.now.items
        → IfOk result (λ v. Keeps (λ e. AllByRecursion (EmailMatches (emails_at emails.now) e.1) conditions.now.items) (emails_at rows.entry.items) (emails_at v.items)) }
{
    let rows = narrowed_by(alloc, emails, rows, found, conditions, false)?;
    narrowed_by(alloc, emails, rows, found, conditions, true)
}

/// Those that the filter takes, in their order, by a walk over the filter for each.
fn taken_by<'a>(
    alloc: Global,
    emails: &[EmailEntry<'a>],
    rows: &[EmailEntry<'a>],
    found: &FoundThreads,
    filter: &Filter<EmailCondition>,
) -> Result<Vec<EmailEntry<'a>>, AllocError>
    ensures { EachCondition (KnowsThreads (emails_at emails.now) found.now) (filter_tree filter.now)
        → IfOk result (λ v. Keeps (λ e. PassesFilter (EmailMatches (emails_at emails.now) e.1) (filter_tree filter.now)) (emails_at rows.now) (emails_at v.items)) }
{
    let mut kept = Vec::new(alloc);
    for email in rows {
        let tested = TestedEmail {
            alloc,
            emails: &*emails,
            found,
            email: *email,
        };
        let taken = takes(&tested, filter)?;
        keep_if(&mut kept, *email, taken)?;
    }
    Ok(kept)
}

/// Those that each of the filters takes, in their order: a filter is asked of those that are left by the ones before it.
#[cycle(narrows)]
fn taken_by_each<'a>(
    alloc: Global,
    emails: &[EmailEntry<'a>],
    rows: Vec<EmailEntry<'a>>,
    found: &FoundThreads,
    filters: &Vec<Filter<EmailCondition>>,
) -> Result<Vec<EmailEntry<'a>>, AllocError>
    ensures { EachConditionOf (KnowsThreads (emails_at emails.now) found.now) (trees_of (map filter_tree filters.now.items))
        → IfOk result (λ v. Keeps (λ e. PassesEach (EmailMatches (emails_at emails.now) e.1) (trees_of (map filter_tree filters.now.items)))
        (emails_at rows.entry.items) (emails_at v.items)) }
{
    let mut rows = rows;
    for filter in filters {
        rows = taken_of(alloc, emails, rows, found, filter)?;
    }
    Ok(rows)
}

/// Those of `rows` that the filter takes, in their order. Conditions and filters that have to hold all are asked one after another,
/// others for each Email.
#[cycle(narrows)]
fn taken_of<'a>(
    alloc: Global,
    emails: &[EmailEntry<'a>],
    rows: Vec<EmailEntry<'a>>,
    found: &FoundThreads,
    filter: &Filter<EmailCondition>,
) -> Result<Vec<EmailEntry<'a>>, AllocError>
    ensures { EachCondition (KnowsThreads (emails_at emails.now) found.now) (filter_tree filter.now)
        → IfOk result (λ v. Keeps (λ e. PassesFilter (EmailMatches (emails_at emails.now) e.1) (filter_tree filter.now))
        (emails_at rows.entry.items) (emails_at v.items)) }
{
    match filter {
        Filter::Conditions(conditions) => narrowed(alloc, emails, rows, found, conditions),
        Filter::Joined(operator, filters) => match operator {
            FilterOperator::And => taken_by_each(alloc, emails, rows, found, filters),
            FilterOperator::Or => taken_by(alloc, emails, &rows, found, filter),
            FilterOperator::Not => taken_by(alloc, emails, &rows, found, filter),
        },
    }
}

/// Those that the filter takes, in their order. The texts of a field are copied once at most: where two conditions search one field,
/// the filter is walked for each Email, and words are searched where the texts lie, all of them while a text is near.
pub(crate) fn taken<'a>(
    alloc: Global,
    emails: &[EmailEntry<'a>],
    filter: &Filter<EmailCondition>,
) -> Result<Vec<EmailEntry<'a>>, AllocError>
    ensures { IfOk result (λ v. Keeps (λ e. PassesFilter (EmailMatches (emails_at emails.now) e.1) (filter_tree filter.now))
        (emails_at emails.now) (emails_at v.items)) }
{
    let found = threads_for(alloc, emails, filter)?;
    if searches_again(filter) {
        return taken_by(alloc, emails, emails, &found, filter);
    }
    let rows = emails.to_vec(alloc)?;
    taken_of(alloc, emails, rows, &found, filter)
}
