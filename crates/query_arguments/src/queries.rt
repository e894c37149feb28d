// What the arguments of queries ask.
ghost use Rattle.std.specs.Prelude.{◌≡◌, codes, option_map};
ghost use Rattle.serde_json.specs.View.{view};
ghost use Rattle.jmap_arguments.specs.Arguments.{text_at as text_asked};
ghost use Rattle.jmap_arguments.specs.Outcome.{Agrees, IsJust};
ghost use Rattle.jmap_arguments.specs.declared.method_error.MethodError.TheVariants.{Memory};
ghost use Rattle.query_arguments.specs.Asked as spec;
ghost use Rattle.query_arguments.specs.Asked.{list_seen, query_seen, changes_seen};
ghost use Rattle.query_arguments.specs.FilterTrees.{filter_tree};

use crate::asked::{AskedList, AskedQuery, AskedQueryChanges};
use crate::email_condition::EmailCondition;
use crate::filter::Filter;
use crate::filters::{Condition, filter_or_all};
use crate::numbers::part_asked;
use crate::reading::Reading;
use crate::sorts::{Comparator, sort_or_none};
use email_properties::flag_at;
use jmap_arguments::{MethodError, check_account, most_or_null, text_at};
use octets::Text;
use query_conditions::MailboxCondition;
use query_orders::{EmailComparator, MailboxComparator};
use serde_json::Value;
use std::alloc::Global;

/// What a part of the arguments means, None where it isn't supported.
fn check_kind<T: Drop>(reading: Reading<T>) -> Result<Option<T>, MethodError>
    ensures { result ≡ spec.kind_check reading }
{
    match reading {
        Reading::Wrong => Err(MethodError::InvalidArguments),
        Reading::Unsupported => Ok(None),
        Reading::Means(value) => Ok(Some(value)),
    }
}

fn filter_asked<C: Condition>(
    alloc: Global,
    arguments: &Value,
) -> Result<Option<Filter<C>>, MethodError>
    ensures { Agrees Memory (λ o. option_map filter_tree o) result (spec.filter_asked C.condition_in (view arguments.now)) }
{
    check_kind(filter_or_all(alloc, arguments.get("filter"))?)
}

fn sort_asked<S: Comparator>(
    alloc: Global,
    arguments: &Value,
) -> Result<Option<Vec<S>>, MethodError>
    ensures { Agrees Memory (λ o. option_map (λ v. v.items) o) result (spec.sort_asked S.comparator_in (view arguments.now)) }
{
    check_kind(sort_or_none(alloc, arguments.get("sort"))?)
}

/// The list that is asked: the account first, then what isn't supported.
fn list_of<C: Drop, S: Drop>(
    account: &str,
    filter: Option<Filter<C>>,
    sort: Option<Vec<S>>,
    collapses: bool,
) -> Result<AskedList<C, S>, MethodError>
    ensures { IsJust list_seen result (spec.list_of account.now (option_map filter_tree filter) (option_map (λ v. v.items) sort) collapses) }
{
    check_account(account)?;
    let Some(filter) = filter else {
        return Err(MethodError::UnsupportedFilter);
    };
    let Some(sort) = sort else {
        return Err(MethodError::UnsupportedSort);
    };
    Ok(AskedList {
        filter,
        sort,
        collapses,
    })
}

/// What a /query asks, where it collapses Threads as is given.
fn query_asked<C: Condition, S: Comparator>(
    alloc: Global,
    arguments: &Value,
    collapses: Result<bool, MethodError>,
) -> Result<AskedQuery<C, S>, MethodError>
    ensures { Agrees Memory query_seen result (spec.query_asked C.condition_in S.comparator_in collapses (view arguments.now)) }
{
    let account = text_at(arguments, "accountId")?;
    let filter = filter_asked(alloc, arguments)?;
    let sort = sort_asked(alloc, arguments)?;
    let part = part_asked(alloc, arguments)?;
    let counts = flag_at(arguments, "calculateTotal")?;
    let collapses = collapses?;
    let list = list_of(account, filter, sort, collapses)?;
    Ok(AskedQuery { list, part, counts })
}

/// The text at `sinceQueryState`.
fn since_asked(alloc: Global, arguments: &Value) -> Result<Text, MethodError>
    ensures { Agrees Memory (λ t. t) result (text_asked (codes "sinceQueryState") (view arguments.now)) }
{
    match text_at(arguments, "sinceQueryState") {
        Err(error) => Err(error),
        Ok(since) => Ok(Text::copy_of(alloc, since)?),
    }
}

/// What a /queryChanges asks, where it collapses Threads as is given.
fn query_changes_asked<C: Condition, S: Comparator>(
    alloc: Global,
    arguments: &Value,
    collapses: Result<bool, MethodError>,
) -> Result<AskedQueryChanges<C, S>, MethodError>
    ensures { Agrees Memory changes_seen result (spec.query_changes_asked C.condition_in S.comparator_in collapses (view arguments.now)) }
{
    let account = text_at(arguments, "accountId")?;
    let filter = filter_asked(alloc, arguments)?;
    let sort = sort_asked(alloc, arguments)?;
    let since = since_asked(alloc, arguments)?;
    let most = most_or_null(arguments, "maxChanges")?;
    let counts = flag_at(arguments, "calculateTotal")?;
    let collapses = collapses?;
    let list = list_of(account, filter, sort, collapses)?;
    Ok(AskedQueryChanges {
        list,
        since,
        most,
        counts,
    })
}

/// What an Email/query asks (RFC 8621 section 4.4). A refusal is, in this order, `InvalidArguments` exactly where an argument has a
/// wrong kind, `AccountNotFound`, `UnsupportedFilter` where a condition or an operator in the filter isn't known, and `UnsupportedSort`
/// where a property isn't known or a collation is asked.
pub fn email_query_asked(
    alloc: Global,
    arguments: &Value,
) -> Result<AskedQuery<EmailCondition, EmailComparator>, MethodError>
    ensures { Agrees Memory query_seen result (spec.email_query_asked (view arguments.now)) }
{
    query_asked(alloc, arguments, flag_at(arguments, "collapseThreads"))
}

/// What a Mailbox/query asks (RFC 8621 section 2.3), refused as `email_query_asked` is. `sortAsTree` and `filterAsTree` aren't read:
/// the list is flat.
pub fn mailbox_query_asked(
    alloc: Global,
    arguments: &Value,
) -> Result<AskedQuery<MailboxCondition, MailboxComparator>, MethodError>
    ensures { Agrees Memory query_seen result (spec.mailbox_query_asked (view arguments.now)) }
{
    query_asked(alloc, arguments, Ok(false))
}

/// What an Email/queryChanges asks (RFC 8621 section 4.5), refused as `email_query_asked` is.
pub fn email_query_changes_asked(
    alloc: Global,
    arguments: &Value,
) -> Result<AskedQueryChanges<EmailCondition, EmailComparator>, MethodError>
    ensures { Agrees Memory changes_seen result (spec.email_query_changes_asked (view arguments.now)) }
{
    query_changes_asked(alloc, arguments, flag_at(arguments, "collapseThreads"))
}

/// What a Mailbox/queryChanges asks (RFC 8621 section 2.4), refused as `email_query_asked` is.
pub fn mailbox_query_changes_asked(
    alloc: Global,
    arguments: &Value,
) -> Result<AskedQueryChanges<MailboxCondition, MailboxComparator>, MethodError>
    ensures { Agrees Memory changes_seen result (spec.mailbox_query_changes_asked (view arguments.now)) }
{
    query_changes_asked(alloc, arguments, Ok(false))
}
