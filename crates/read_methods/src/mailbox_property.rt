// The properties of a Mailbox, and their names.
ghost use Rattle.std.specs.Prelude.{◌≡◌, IfOk, map};
ghost use Rattle.std.specs.List.{list_all};
ghost use Rattle.read_methods.specs.Mailboxes as spec;
ghost use Rattle.read_methods.specs.Mailboxes.{mailbox_properties, property_name};

use jmap_arguments::is_among;
use std::alloc::{AllocError, Global};

/// A property of a Mailbox (RFC 8621 section 2).
#[derive(Clone, Copy, Debug, PartialEq, Eq)]
pub enum MailboxProperty {
    /// `id`
    Id,
    /// `name`
    Name,
    /// `parentId`
    ParentId,
    /// `role`
    Role,
    /// `sortOrder`
    SortOrder,
    /// `totalEmails`
    TotalEmails,
    /// `unreadEmails`
    UnreadEmails,
    /// `totalThreads`
    TotalThreads,
    /// `unreadThreads`
    UnreadThreads,
    /// `myRights`
    MyRights,
    /// `isSubscribed`
    IsSubscribed,
}

/// All of them.
pub(crate) fn all_properties(alloc: Global) -> Result<Vec<MailboxProperty>, AllocError>
    ensures { IfOk result (λ v. v.items ≡ mailbox_properties) }
{
    Vec::from_slice(
        alloc,
        &[
            MailboxProperty::Id,
            MailboxProperty::Name,
            MailboxProperty::ParentId,
            MailboxProperty::Role,
            MailboxProperty::SortOrder,
            MailboxProperty::TotalEmails,
            MailboxProperty::UnreadEmails,
            MailboxProperty::TotalThreads,
            MailboxProperty::UnreadThreads,
            MailboxProperty::MyRights,
            MailboxProperty::IsSubscribed,
        ],
    )
}

/// Its name.
pub(crate) fn name_of(property: MailboxProperty) -> &'static str
    ensures { result.now ≡ property_name property }
{
    match property {
        MailboxProperty::Id => "id",
        MailboxProperty::Name => "name",
        MailboxProperty::ParentId => "parentId",
        MailboxProperty::Role => "role",
        MailboxProperty::SortOrder => "sortOrder",
        MailboxProperty::TotalEmails => "totalEmails",
        MailboxProperty::UnreadEmails => "unreadEmails",
        MailboxProperty::TotalThreads => "totalThreads",
        MailboxProperty::UnreadThreads => "unreadThreads",
        MailboxProperty::MyRights => "myRights",
        MailboxProperty::IsSubscribed => "isSubscribed",
    }
}

/// Whether the name is that of one of these.
fn is_name_in(properties: &[MailboxProperty], name: &str) -> bool
    ensures { result ≡ spec.is_name_in properties.now name.now }
{
    for property in properties {
        if name_of(*property) == name {
            return true;
        }
    }
    false
}

/// Whether each name is that of one of these.
pub(crate) fn are_names_in(properties: &[MailboxProperty], names: &Vec<&str>) -> bool
    ensures { result ≡ list_all (spec.is_name_in properties.now) (map (λ t. t.now) names.now.items) }
{
    for name in names {
        if !is_name_in(properties, *name) {
            return false;
        }
    }
    true
}

/// Those of these that are named.
pub(crate) fn those_named(
    alloc: Global,
    properties: &[MailboxProperty],
    names: &Vec<&str>,
) -> Result<Vec<MailboxProperty>, AllocError>
    ensures { IfOk result (λ v. v.items ≡ spec.those_named properties.now (map (λ t. t.now) names.now.items)) }
{
    let mut wanted = Vec::with_capacity(alloc, properties.len())?;
    for property in properties {
        if is_among(name_of(*property), names) {
            wanted.push(*property)?;
        }
    }
    Ok(wanted)
}
