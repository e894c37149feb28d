// A Mailbox as an object.
ghost use Rattle.std.specs.Prelude.{◌≡◌, ◌∷◌, [], IfOk, OnOk};
ghost use Rattle.serde_json.specs.View.{view, members_view};
ghost use Rattle.mail_maps.specs.Serve.{mailbox_of};
ghost use Rattle.read_methods.specs.Mailboxes as spec;
ghost use Rattle.read_methods.specs.Mailboxes.{parent_data, role_data, rights_data};

use crate::mailbox_property::{MailboxProperty, name_of};
use jmap_arguments::{MAILBOX_LETTER, id_value};
use mail_maps::{MailboxRow, Rights, Role};
use serde_json::{Map, Value, json, put};
use served_types::role_text;
use std::alloc::{AllocError, Global};

fn parent_value(alloc: Global, parent: Option<u64>) -> Result<Value, AllocError>
    ensures { IfOk result (λ value. view value ≡ parent_data parent) }
{
    match parent {
        None => Ok(Value::Null),
        Some(number) => id_value(alloc, MAILBOX_LETTER, number),
    }
}

fn role_value(alloc: Global, role: Option<Role>) -> Result<Value, AllocError>
    ensures { IfOk result (λ value. view value ≡ role_data role) }
{
    match role {
        None => Ok(Value::Null),
        Some(role) => Value::try_from_str(alloc, role_text(role)),
    }
}

fn rights_value(alloc: Global, rights: Rights) -> Result<Value, AllocError>
    ensures { IfOk result (λ value. view value ≡ rights_data rights) }
{
    json!(in alloc; {
        "mayAddItems": rights.may_add_items,
        "mayCreateChild": rights.may_create_child,
        "mayDelete": rights.may_delete,
        "mayReadItems": rights.may_read_items,
        "mayRemoveItems": rights.may_remove_items,
        "mayRename": rights.may_rename,
        "maySetKeywords": rights.may_set_keywords,
        "maySetSeen": rights.may_set_seen,
        "maySubmit": rights.may_submit,
    })
}

/// The value of a property.
fn property_value(
    alloc: Global,
    number: u64,
    mailbox: &MailboxRow,
    property: MailboxProperty,
) -> Result<Value, AllocError>
    ensures { IfOk result (λ value. view value ≡ spec.property_data (number, mailbox_of mailbox.now) property) }
{
    match property {
        MailboxProperty::Id => id_value(alloc, MAILBOX_LETTER, number),
        MailboxProperty::Name => Value::try_from_str(alloc, mailbox.name.as_str()),
        MailboxProperty::ParentId => parent_value(alloc, mailbox.parent),
        MailboxProperty::Role => role_value(alloc, mailbox.role),
        MailboxProperty::SortOrder => Ok(Value::from(0u64)),
        MailboxProperty::TotalEmails => Ok(Value::from(mailbox.total_emails)),
        MailboxProperty::UnreadEmails => Ok(Value::from(mailbox.unread_emails)),
        MailboxProperty::TotalThreads => Ok(Value::from(mailbox.total_threads)),
        MailboxProperty::UnreadThreads => Ok(Value::from(mailbox.unread_threads)),
        MailboxProperty::MyRights => rights_value(alloc, mailbox.rights),
        MailboxProperty::IsSubscribed => Ok(Value::from(mailbox.subscribed)),
    }
}

fn put_property(
    members: &mut Map<String, Value>,
    alloc: Global,
    number: u64,
    mailbox: &MailboxRow,
    property: MailboxProperty,
) -> Result<(), AllocError>
    ensures { OnOk result (members_view members.new.entries
        ≡ spec.with_properties (number, mailbox_of mailbox.now) (property ∷ []) (members_view members.old.entries)) }
{
    let value = property_value(alloc, number, mailbox, property)?;
    put(members, alloc, name_of(property), value)
}

/// The Mailbox of this number with the properties that are wanted, its id among them.
pub(crate) fn mailbox_value(
    alloc: Global,
    wanted: &[MailboxProperty],
    number: u64,
    mailbox: &MailboxRow,
) -> Result<Value, AllocError>
    ensures { IfOk result (λ value. view value ≡ spec.mailbox_data wanted.now (number, mailbox_of mailbox.now)) }
{
    let mut members = Map::new(alloc);
    put_property(&mut members, alloc, number, mailbox, MailboxProperty::Id)?;
    for property in wanted {
        put_property(&mut members, alloc, number, mailbox, *property)?;
    }
    Ok(Value::Object(members))
}
