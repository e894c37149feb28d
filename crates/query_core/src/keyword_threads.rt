// The Threads of the keywords that a filter asks, found once a query.
ghost use Rattle.std.specs.Prelude.{◌≡◌, ◌++◌, IfOk, OnOk, map};
ghost use Rattle.std.specs.List.{AllByRecursion};
ghost use Rattle.std.specs.Option.{option_copied};
ghost use Rattle.query_conditions.specs.Entries.{emails_at};
ghost use Rattle.query_arguments.specs.FilterTrees.{filter_tree, trees_of};
ghost use Rattle.query_core.specs.reading.Found as reading;
ghost use Rattle.query_core.specs.reading.Found.{EachCondition, HasThreads, KnowsThreads, keyword_asked, keywords_asked, keywords_of_all, keywords_of_each};

use query_arguments::{EmailCondition, Filter};
use query_conditions::{EmailEntry, KeywordThreads, keyword_threads};
use std::alloc::{AllocError, Global};
use std::collections::BTreeMap;

/// The Threads of keywords.
pub(crate) type FoundThreads = BTreeMap<Vec<u8>, KeywordThreads>;

/// Adds the keyword that a condition asks of Threads.
fn put_keyword<'a>(
    condition: &'a EmailCondition,
    keywords: &mut Vec<&'a [u8]>,
) -> Result<(), AllocError>
    ensures { OnOk result (map (λ k. k.now) keywords.new.items ≡ map (λ k. k.now) keywords.old.items ++ keyword_asked condition.now) }
{
    match condition {
        EmailCondition::Record(_) => Ok(()),
        EmailCondition::Header(_, _) => Ok(()),
        EmailCondition::Thread(_, keyword) => {
            keywords.push(keyword.as_slice())?;
            Ok(())
        }
    }
}

fn put_keywords_of_all<'a>(
    conditions: &'a Vec<EmailCondition>,
    keywords: &mut Vec<&'a [u8]>,
) -> Result<(), AllocError>
    ensures { OnOk result (map (λ k. k.now) keywords.new.items ≡ map (λ k. k.now) keywords.old.items ++ keywords_of_all conditions.now.items) }
{
    for condition in conditions {
        put_keyword(condition, keywords)?;
    }
    Ok(())
}

#[cycle(keywords)]
fn put_keywords_of_each<'a>(
    filters: &'a Vec<Filter<EmailCondition>>,
    keywords: &mut Vec<&'a [u8]>,
) -> Result<(), AllocError>
    ensures { OnOk result (map (λ k. k.now) keywords.new.items
        ≡ map (λ k. k.now) keywords.old.items ++ keywords_of_each (trees_of (map filter_tree filters.now.items))) }
{
    for filter in filters {
        put_keywords(filter, keywords)?;
    }
    Ok(())
}

/// Adds the keywords that a filter asks of Threads.
#[cycle(keywords)]
fn put_keywords<'a>(
    filter: &'a Filter<EmailCondition>,
    keywords: &mut Vec<&'a [u8]>,
) -> Result<(), AllocError>
    ensures { OnOk result (map (λ k. k.now) keywords.new.items ≡ map (λ k. k.now) keywords.old.items ++ keywords_asked (filter_tree filter.now)) }
{
    match filter {
        Filter::Conditions(conditions) => put_keywords_of_all(conditions, keywords),
        Filter::Joined(_, filters) => put_keywords_of_each(filters, keywords),
    }
}

/// Finds the Threads of a keyword, unless they were found.
fn find(
    alloc: Global,
    emails: &[EmailEntry<'_>],
    keyword: &[u8],
    found: &mut FoundThreads,
) -> Result<(), AllocError>
    requires { reading.AreSound (emails_at emails.now) found.old }
    ensures sound { OnOk result (reading.AreSound (emails_at emails.now) found.new) }
    ensures found { OnOk result (HasThreads (emails_at emails.now) found.new keyword.now) }
    ensures others { OnOk result (reading.StillThere (emails_at emails.now) found.old found.new) }
{
    if found.contains_key(keyword) {
        return Ok(());
    }
    let threads = keyword_threads(alloc, emails, keyword)?;
    let key = keyword.to_vec(alloc)?;
    found.insert(key, threads)?;
    Ok(())
}

/// The Threads of each of the keywords.
fn threads_of_each(
    alloc: Global,
    emails: &[EmailEntry<'_>],
    keywords: &[&[u8]],
) -> Result<FoundThreads, AllocError>
    ensures { IfOk result (λ found. AllByRecursion (HasThreads (emails_at emails.now) found) (map (λ k. k.now) keywords.now)) }
{
    let mut found = BTreeMap::new(alloc);
    for keyword in keywords {
        find(alloc, emails, *keyword, &mut found)?;
    }
    Ok(found)
}

/// The Threads of each keyword that the filter asks of Threads.
pub(crate) fn threads_for(
    alloc: Global,
    emails: &[EmailEntry<'_>],
    filter: &Filter<EmailCondition>,
) -> Result<FoundThreads, AllocError>
    ensures { IfOk result (λ found. EachCondition (KnowsThreads (emails_at emails.now) found) (filter_tree filter.now)) }
{
    let mut keywords = Vec::new(alloc);
    put_keywords(filter, &mut keywords)?;
    threads_of_each(alloc, emails, keywords.as_slice())
}

/// The Threads of a keyword, where they were found.
pub(crate) fn threads_found<'a>(
    found: &'a FoundThreads,
    keyword: &[u8],
) -> Option<&'a KeywordThreads>
    ensures { option_copied result ≡ reading.threads_in found.now keyword.now }
{
    found.get(keyword)
}
