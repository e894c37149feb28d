// A Mailbox as an object (RFC 8621 section 2).
ghost use Rattle.std.specs.Prelude.{◌≡◌, IfOk};
ghost use Rattle.serde_json.specs.View.{view};
ghost use Rattle.mail_maps.specs.Serve.{mailbox_of};
ghost use Rattle.read_methods.specs.Mailboxes.{mailbox_data, mailbox_properties, parent_data, rights_data, role_data};

use jmap_arguments::{MAILBOX_LETTER, id_value};
use mail_maps::{MailboxRow, Rights, Role};
use serde_json::{Value, json};
use served_types::role_text;
use std::alloc::{AllocError, Global};

fn parent_value(alloc: Global, parent: Option<u64>) -> Result<Value, AllocError>
    ensures { IfOk result (λ value. view value ≡ parent_data parent) }
{
    match parent {
        None => Ok(Value::Null),
        Some(number) => id_value(alloc, MAILBOX_LETTER, number),
    }
}

fn role_value(alloc: Global, role: Option<Role>) -> Result<Value, AllocError>
    ensures { IfOk result (λ value. view value ≡ role_data role) }
{
    match role {
        None => Ok(Value::Null),
        Some(role) => Value::try_from_str(alloc, role_text(role)),
    }
}

fn rights_value(alloc: Global, rights: Rights) -> Result<Value, AllocError>
    ensures { IfOk result (λ value. view value ≡ rights_data rights) }
{
    json!(in alloc; {
        "mayAddItems": rights.may_add_items,
        "mayCreateChild": rights.may_create_child,
        "mayDelete": rights.may_delete,
        "mayReadItems": rights.may_read_items,
        "mayRemoveItems": rights.may_remove_items,
        "mayRename": rights.may_rename,
        "maySetKeywords": rights.may_set_keywords,
        "maySetSeen": rights.may_set_seen,
        "maySubmit": rights.may_submit,
    })
}

/// The Mailbox of this number, as a Mailbox/get of all properties shows it.
pub fn whole_mailbox(alloc: Global, number: u64, mailbox: &MailboxRow) -> Result<Value, AllocError>
    ensures { IfOk result (λ value. view value ≡ mailbox_data mailbox_properties (number, mailbox_of mailbox.now)) }
{
    let id = id_value(alloc, MAILBOX_LETTER, number)?;
    let rights = rights_value(alloc, mailbox.rights)?;
    let parent = parent_value(alloc, mailbox.parent)?;
    let role = role_value(alloc, mailbox.role)?;
    json!(in alloc; {
        "id": id,
        "isSubscribed": mailbox.subscribed,
        "myRights": rights,
        "name": mailbox.name.as_str(),
        "parentId": parent,
        "role": role,
        "sortOrder": 0u64,
        "totalEmails": mailbox.total_emails,
        "totalThreads": mailbox.total_threads,
        "unreadEmails": mailbox.unread_emails,
        "unreadThreads": mailbox.unread_threads,
    })
}
