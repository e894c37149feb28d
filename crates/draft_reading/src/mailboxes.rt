// Addresses (RFC 8621 section 4.1.2.3).
ghost use Rattle.std.specs.Prelude.{◌≡◌, ◌↔◌, true, codes, map, option_map, option_and_then, IsTrue, IfOk, IfSome, IfNone};
ghost use Rattle.serde_json.specs.Find.{get, as_str};
ghost use Rattle.serde_json.specs.View.{view, items_view};
ghost use Rattle.mail_drafts.specs.Mailboxes.{is_email, ReadsAlone};
ghost use Rattle.draft_reading.specs.Mailboxes as spec;
ghost use Rattle.draft_reading.specs.Values.{tested};
ghost use Rattle.draft_reading.specs.reading.Addresses.{are_unnamed, IsMailbox, IsNoMailbox, AreMailboxes, AreNoMailboxes, AreNoAddresses};
ghost use Rattle.draft_reading.specs.reading.Views.{named_view};

use crate::named::Named;
use crate::texts::is_email;
use crate::values::{line_or_null, text_of};
use header_addresses::{Address, as_addresses};
use mail_drafts::Mailbox;
use octets::Text;
use serde_json::Value;
use std::alloc::{AllocError, Global};

/// The email at its key, where it ends nowhere in a list.
fn email_in(value: &Value) -> Option<&str>
    ensures value { option_map (λ t. t.now) result ≡ tested is_email (option_and_then as_str (get (codes "email") (view value.now))) }
    ensures email { IfSome result (λ t. is_email t.now ≡ true) }
{
    let text = value.get("email").and_then(Value::as_str)?;
    if is_email(text) { Some(text) } else { None }
}

/// What an address says, where its name is one line and its email ends nowhere in a list.
#[tactic(auto, unfolding(crate::specs::Mailboxes::named_in))]
fn named_in(value: &Value) -> Option<Named<'_>>
    ensures { option_map named_view result ≡ spec.named_in (view value.now) }
{
    let name = line_or_null(value, "name")?;
    let email = email_in(value)?;
    Some(Named { name, email })
}

fn is_unnamed(addresses: &[Address], email: &str) -> bool
    ensures { result ≡ are_unnamed addresses.now email.now }
{
    match addresses {
        [] => false,
        [address] => address.name.is_none() && address.email.as_slice() == email.as_bytes(),
        [_, _, ..] => false,
    }
}

/// Whether the email, alone in a field, reads as itself.
fn reads_alone(alloc: Global, email: &str) -> Result<bool, AllocError>
    ensures { IfOk result (λ b. IsTrue b ↔ ReadsAlone email.now) }
{
    match as_addresses(alloc, email.as_bytes())? {
        None => Ok(false),
        Some(addresses) => Ok(is_unnamed(addresses.as_slice(), email)),
    }
}

/// The mailbox of a name and an email that reads as itself.
fn mailbox_of(alloc: Global, named: &Named<'_>) -> Result<Mailbox, AllocError>
    requires { ReadsAlone named.now.email.now }
    ensures { IfOk result (λ m. spec.said m ≡ named_view named.now) }
{
    let name = text_of(alloc, named.name)?;
    let email = Text::copy_of(alloc, named.email)?;
    Ok(Mailbox { name, email })
}

/// The mailbox that a value says.
fn mailbox_in(alloc: Global, value: &Value) -> Result<Option<Mailbox>, AllocError>
    ensures some { IfOk result (λ o. IfSome o (λ m. IsMailbox (view value.now) (spec.said m))) }
    ensures none { IfOk result (λ o. IfNone o (IsNoMailbox (view value.now))) }
{
    let Some(named) = named_in(value) else {
        return Ok(None);
    };
    if reads_alone(alloc, named.email)? {
        Ok(Some(mailbox_of(alloc, &named)?))
    } else {
        Ok(None)
    }
}

/// The mailboxes that items say.
fn each_mailbox(alloc: Global, items: &Vec<Value>) -> Result<Option<Vec<Mailbox>>, AllocError>
    ensures some { IfOk result (λ o. IfSome o (λ v. AreMailboxes (items_view items.now.items) (map spec.said v.items))) }
    ensures none { IfOk result (λ o. IfNone o (AreNoMailboxes (items_view items.now.items))) }
{
    let mut mailboxes = Vec::new(alloc);
    for item in items {
        match mailbox_in(alloc, item)? {
            None => return Ok(None),
            Some(mailbox) => mailboxes.push(mailbox)?,
        }
    }
    Ok(Some(mailboxes))
}

/// The mailboxes of a list of addresses that can stand in a field.
pub(crate) fn mailboxes_in(alloc: Global, value: &Value) -> Result<Option<Vec<Mailbox>>, AllocError>
    ensures some { IfOk result (λ o. IfSome o (λ v. spec.AreAddresses (view value.now) (map spec.said v.items))) }
    ensures none { IfOk result (λ o. IfNone o (AreNoAddresses (view value.now))) }
{
    let Some(items) = value.as_array() else {
        return Ok(None);
    };
    each_mailbox(alloc, items)
}
