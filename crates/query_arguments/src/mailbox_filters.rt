// Conditions of Mailboxes as JSON.
ghost use Rattle.std.specs.Prelude.{◌≡◌, IfOk};
ghost use Rattle.serde_json.specs.Find.{as_bool, as_str};
ghost use Rattle.serde_json.specs.View.{view};
ghost use Rattle.query_arguments.specs.MailboxFilters as spec;
ghost use Rattle.query_arguments.specs.Readings as readings;

use crate::reading::Reading;
use crate::values::{mailbox_number, word_of};
use mail_maps::Role;
use query_conditions::MailboxCondition;
use serde_json::Value;
use std::alloc::{AllocError, Global};

/// The role of this name.
fn role_named(name: &str) -> Option<Role>
    ensures { result ≡ spec.role_named name.now }
{
    match name {
        "inbox" => Some(Role::Inbox),
        "all" => Some(Role::All),
        "archive" => Some(Role::Archive),
        "drafts" => Some(Role::Drafts),
        "flagged" => Some(Role::Flagged),
        "junk" => Some(Role::Junk),
        "sent" => Some(Role::Sent),
        "trash" => Some(Role::Trash),
        _ => None,
    }
}

fn parent(value: &Value) -> Reading<MailboxCondition>
    ensures { result ≡ spec.parent_condition (view value.now) }
{
    match value {
        Value::Null => Reading::Means(MailboxCondition::IsTop),
        Value::String(id) => {
            Reading::Means(MailboxCondition::HasParent(mailbox_number(id.as_str())))
        }
        _ => Reading::Wrong,
    }
}

fn role(value: &Value) -> Reading<MailboxCondition>
    ensures { result ≡ spec.role_condition (view value.now) }
{
    match value {
        Value::Null => Reading::Means(MailboxCondition::HasNoRole),
        Value::String(name) => Reading::Means(MailboxCondition::HasRole(role_named(name.as_str()))),
        _ => Reading::Wrong,
    }
}

fn name(alloc: Global, value: &Value) -> Result<Reading<MailboxCondition>, AllocError>
    ensures { IfOk result (λ r. r ≡ readings.means (λ word. MailboxCondition.Name word) (as_str (view value.now))) }
{
    match word_of(alloc, value)? {
        None => Ok(Reading::Wrong),
        Some(word) => Ok(Reading::Means(MailboxCondition::Name(word))),
    }
}

fn has_any_role(value: &Value) -> Reading<MailboxCondition>
    ensures { result ≡ readings.means (λ any. MailboxCondition.HasAnyRole any) (as_bool (view value.now)) }
{
    match value.as_bool() {
        None => Reading::Wrong,
        Some(any) => Reading::Means(MailboxCondition::HasAnyRole(any)),
    }
}

fn is_subscribed(value: &Value) -> Reading<MailboxCondition>
    ensures { result ≡ readings.means (λ subscribed. MailboxCondition.IsSubscribed subscribed) (as_bool (view value.now)) }
{
    match value.as_bool() {
        None => Reading::Wrong,
        Some(subscribed) => Reading::Means(MailboxCondition::IsSubscribed(subscribed)),
    }
}

/// The condition that a member of a FilterCondition is (RFC 8621 section 2.3).
pub(crate) fn mailbox_condition(
    alloc: Global,
    key: &str,
    value: &Value,
) -> Result<Reading<MailboxCondition>, AllocError>
    ensures { IfOk result (λ r. r ≡ spec.mailbox_condition_in key.now (view value.now)) }
{
    match key {
        "parentId" => Ok(parent(value)),
        "name" => name(alloc, value),
        "role" => Ok(role(value)),
        "hasAnyRole" => Ok(has_any_role(value)),
        "isSubscribed" => Ok(is_subscribed(value)),
        _ => Ok(Reading::Unsupported),
    }
}
