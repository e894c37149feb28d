// What the arguments of queries ask.

use jmap_arguments::MethodError;
use mail_maps::Role;
use octets::{Bytes, Names};
use query_arguments::{
    AskedList, AskedPart, AskedQuery, AskedQueryChanges, EmailCondition, Filter, email_query_asked,
    email_query_changes_asked, mailbox_query_asked, mailbox_query_changes_asked,
};
use query_conditions::{MailboxCondition, Quantity, RecordCondition, TextField};
use query_lists::FilterOperator;
use query_orders::{EmailComparator, EmailSort, MailboxComparator, MailboxSort};
use serde_json::Value;
use std::alloc::{AllocError, Global};

/// What can be printed behind others.
trait Shown {
    fn put(&self, out: &mut String) -> Result<(), AllocError>;
}

/// Octets, which are ASCII in the rows.
fn put_octets(octets: &Bytes, out: &mut String) -> Result<(), AllocError> {
    for octet in octets.as_slice() {
        out.push(char::from(*octet))?;
    }
    Ok(())
}

fn put_number(number: Option<u64>, out: &mut String) -> Result<(), AllocError> {
    match number {
        None => out.push_str("-"),
        Some(number) => write!(out, "{number}"),
    }
}

fn put_text(name: &str, text: &Bytes, out: &mut String) -> Result<(), AllocError> {
    out.push_str(name)?;
    out.push(' ')?;
    put_octets(text, out)
}

/// Words and phrases, with `/` between two.
fn put_words(name: &str, words: &Names, out: &mut String) -> Result<(), AllocError> {
    out.push_str(name)?;
    out.push(' ')?;
    for (at, word) in words.as_slice().iter().enumerate() {
        if at != 0 {
            out.push('/')?;
        }
        put_octets(word, out)?;
    }
    Ok(())
}

fn field_name(field: TextField) -> &'static str {
    match field {
        TextField::From => "from",
        TextField::To => "to",
        TextField::Cc => "cc",
        TextField::Bcc => "bcc",
        TextField::Subject => "subject",
    }
}

impl Shown for RecordCondition {
    fn put(&self, out: &mut String) -> Result<(), AllocError> {
        match self {
            RecordCondition::InMailbox(mailbox) => {
                out.push_str("inMailbox ")?;
                put_number(*mailbox, out)
            }
            RecordCondition::InMailboxOtherThan(mailboxes) => {
                out.push_str("inMailboxOtherThan")?;
                for mailbox in mailboxes.iter() {
                    write!(out, " {mailbox}")?;
                }
                Ok(())
            }
            RecordCondition::Before(time) => write!(out, "before {time}"),
            RecordCondition::After(time) => write!(out, "after {time}"),
            RecordCondition::MinSize(size) => write!(out, "minSize {size}"),
            RecordCondition::MaxSize(size) => write!(out, "maxSize {size}"),
            RecordCondition::HasKeyword(keyword) => put_text("hasKeyword", keyword, out),
            RecordCondition::NotKeyword(keyword) => put_text("notKeyword", keyword, out),
            RecordCondition::InField { field, words } => put_words(field_name(*field), words, out),
        }
    }
}

fn quantity_name(quantity: Quantity) -> &'static str {
    match quantity {
        Quantity::All => "allInThreadHaveKeyword",
        Quantity::Some => "someInThreadHaveKeyword",
        Quantity::None => "noneInThreadHaveKeyword",
    }
}

impl Shown for EmailCondition {
    fn put(&self, out: &mut String) -> Result<(), AllocError> {
        match self {
            EmailCondition::Record(condition) => condition.put(out),
            EmailCondition::Thread(quantity, keyword) => put_text(
                quantity_name(*quantity),
                keyword,
                out,
            ),
            EmailCondition::Header(name, None) => put_text("header", name, out),
            EmailCondition::Header(name, Some(words)) => {
                put_text("header", name, out)?;
                put_words(" with", words, out)
            }
        }
    }
}

fn role_name(role: Option<Role>) -> &'static str {
    match role {
        None => "-",
        Some(Role::Inbox) => "inbox",
        Some(Role::All) => "all",
        Some(Role::Archive) => "archive",
        Some(Role::Drafts) => "drafts",
        Some(Role::Flagged) => "flagged",
        Some(Role::Junk) => "junk",
        Some(Role::Sent) => "sent",
        Some(Role::Trash) => "trash",
    }
}

impl Shown for MailboxCondition {
    fn put(&self, out: &mut String) -> Result<(), AllocError> {
        match self {
            MailboxCondition::IsTop => out.push_str("parentId null"),
            MailboxCondition::HasParent(parent) => {
                out.push_str("parentId ")?;
                put_number(*parent, out)
            }
            MailboxCondition::Name(word) => put_text("name", word, out),
            MailboxCondition::HasNoRole => out.push_str("role null"),
            MailboxCondition::HasRole(role) => write!(out, "role {}", role_name(*role)),
            MailboxCondition::HasAnyRole(any) => write!(out, "hasAnyRole {any}"),
            MailboxCondition::IsSubscribed(subscribed) => write!(out, "isSubscribed {subscribed}"),
        }
    }
}

/// One after the other, with this between them.
fn put_each<T: Shown>(items: &[T], between: &str, out: &mut String) -> Result<(), AllocError> {
    for (at, item) in items.iter().enumerate() {
        if at != 0 {
            out.push_str(between)?;
        }
        item.put(out)?;
    }
    Ok(())
}

fn operator_name(operator: FilterOperator) -> &'static str {
    match operator {
        FilterOperator::And => "AND(",
        FilterOperator::Or => "OR(",
        FilterOperator::Not => "NOT(",
    }
}

/// A filter: the two functions go down it together.
#[cycle(filters)]
fn put_filter<C: Shown>(filter: &Filter<C>, out: &mut String) -> Result<(), AllocError> {
    match filter {
        Filter::Conditions(conditions) => {
            out.push('[')?;
            put_each(conditions, ", ", out)?;
            out.push(']')
        }
        Filter::Joined(operator, filters) => {
            out.push_str(operator_name(*operator))?;
            put_filters(filters, out)?;
            out.push(')')
        }
    }
}

#[cycle(filters)]
fn put_filters<C: Shown>(filters: &[Filter<C>], out: &mut String) -> Result<(), AllocError> {
    for (at, filter) in filters.iter().enumerate() {
        if at != 0 {
            out.push_str("; ")?;
        }
        put_filter(filter, out)?;
    }
    Ok(())
}

fn direction(is_ascending: bool) -> &'static str {
    match is_ascending {
        true => " up",
        false => " down",
    }
}

impl Shown for EmailSort {
    fn put(&self, out: &mut String) -> Result<(), AllocError> {
        match self {
            EmailSort::ReceivedAt => out.push_str("receivedAt"),
            EmailSort::Size => out.push_str("size"),
            EmailSort::From => out.push_str("from"),
            EmailSort::To => out.push_str("to"),
            EmailSort::Subject => out.push_str("subject"),
            EmailSort::SentAt => out.push_str("sentAt"),
            EmailSort::HasKeyword(keyword) => put_text("hasKeyword", keyword, out),
            EmailSort::AllInThreadHaveKeyword(keyword) => put_text(
                "allInThreadHaveKeyword",
                keyword,
                out,
            ),
            EmailSort::SomeInThreadHaveKeyword(keyword) => put_text(
                "someInThreadHaveKeyword",
                keyword,
                out,
            ),
        }
    }
}

impl Shown for EmailComparator {
    fn put(&self, out: &mut String) -> Result<(), AllocError> {
        self.property.put(out)?;
        out.push_str(direction(self.is_ascending))
    }
}

impl Shown for MailboxComparator {
    fn put(&self, out: &mut String) -> Result<(), AllocError> {
        match self.property {
            MailboxSort::Name => out.push_str("name")?,
            MailboxSort::SortOrder => out.push_str("sortOrder")?,
        }
        out.push_str(direction(self.is_ascending))
    }
}

fn put_list<C: Shown, S: Shown>(
    list: &AskedList<C, S>,
    out: &mut String,
) -> Result<(), AllocError> {
    put_filter(&list.filter, out)?;
    out.push(' ')?;
    if list.sort.is_empty() {
        out.push_str("by number")
    } else {
        put_each(&list.sort, ", ", out)
    }
}

fn put_flag(name: &str, flag: bool, out: &mut String) -> Result<(), AllocError> {
    if flag {
        out.push_str(name)?;
    }
    Ok(())
}

fn put_part(part: &AskedPart, out: &mut String) -> Result<(), AllocError> {
    write!(out, ", from {}", part.position)?;
    if let Some(anchor) = &part.anchor {
        write!(out, ", anchor {} offset {}", anchor.as_str(), part.offset)?;
    }
    match part.limit {
        None => Ok(()),
        Some(limit) => write!(out, ", limit {limit}"),
    }
}

fn put_query<C: Shown, S: Shown>(
    query: &AskedQuery<C, S>,
    out: &mut String,
) -> Result<(), AllocError> {
    put_list(&query.list, out)?;
    put_part(&query.part, out)?;
    put_flag(", total", query.counts, out)?;
    put_flag(", collapsed", query.list.collapses, out)
}

fn put_changes<C: Shown, S: Shown>(
    query: &AskedQueryChanges<C, S>,
    out: &mut String,
) -> Result<(), AllocError> {
    put_list(&query.list, out)?;
    write!(out, ", since {}", query.since.as_str())?;
    if let Some(most) = query.most {
        write!(out, ", most {most}")?;
    }
    put_flag(", total", query.counts, out)?;
    put_flag(", collapsed", query.list.collapses, out)
}

fn put_refusal(error: MethodError, out: &mut String) -> Result<(), AllocError> {
    match error {
        MethodError::InvalidArguments => out.push_str("invalidArguments"),
        MethodError::AccountNotFound => out.push_str("accountNotFound"),
        MethodError::UnsupportedFilter => out.push_str("unsupportedFilter"),
        MethodError::UnsupportedSort => out.push_str("unsupportedSort"),
        _ => out.push_str("?"),
    }
}

/// Adds what the arguments of the method ask, or the refusal.
pub(crate) fn put_asked(
    alloc: Global,
    method: &str,
    text: &str,
    out: &mut String,
) -> Result<(), AllocError> {
    out.push(' ')?;
    let Ok(arguments) = Value::from_str(alloc, text) else {
        return out.push_str("no JSON");
    };
    match method {
        "Email/query" => match email_query_asked(alloc, &arguments) {
            Err(error) => put_refusal(error, out),
            Ok(query) => put_query(&query, out),
        },
        "Mailbox/query" => match mailbox_query_asked(alloc, &arguments) {
            Err(error) => put_refusal(error, out),
            Ok(query) => put_query(&query, out),
        },
        "Email/queryChanges" => match email_query_changes_asked(alloc, &arguments) {
            Err(error) => put_refusal(error, out),
            Ok(query) => put_changes(&query, out),
        },
        _ => match mailbox_query_changes_asked(alloc, &arguments) {
            Err(error) => put_refusal(error, out),
            Ok(query) => put_changes(&query, out),
        },
    }
}
