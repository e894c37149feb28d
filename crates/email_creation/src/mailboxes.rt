// The Mailbox of an Email that is to be created (RFC 8621 section 4.1.1).
ghost use Rattle.std.specs.Prelude.{◌≡◌, codes};
ghost use Rattle.std.specs.List.{list_all};
ghost use Rattle.std.specs.Option.{option_copied};
ghost use Rattle.serde_json.specs.View.{view, members_view};
ghost use Rattle.set_given.specs.Given.{Given as GivenFacts};
ghost use Rattle.set_given.specs.reading.Givens.{IsGiven};
ghost use Rattle.set_patches.specs.Patches.{member_keys};
ghost use Rattle.email_checks.specs.Asked.{keys_of, names_folder};
ghost use Rattle.email_creation.specs.Asked as spec;
ghost use Rattle.email_creation.specs.reading.Named.{asked_data, first_named, names_no_other};

use crate::members::member;
use serde_json::{Map, Value};
use set_given::{Given, folder_named};
use told_folder::Folder;

/// What texts name.
#[derive(Clone, Copy)]
pub enum MailboxAsked<'g> {
    /// One Mailbox.
    One(&'g Folder),
    /// None, or one that isn't there.
    Nowhere,
    /// Several Mailboxes.
    Several,
}

/// Whether each key names a Mailbox.
fn name_folders(given: &Given<'_, '_>, members: &Map<String, Value>) -> bool
    ensures { (g : GivenFacts) → IsGiven given.now g → result ≡ list_all (names_folder g) (member_keys (members_view members.now.entries)) }
{
    for (key, _value) in members.iter() {
        if folder_named(given, key.as_str()).is_none() {
            return false;
        }
    }
    true
}

/// What the first key names.
#[tactic(auto, using(crate::proofs::NamedLemmas::first_key, crate::proofs::NamedLemmas::no_key))]
fn first_named<'g>(given: &Given<'g, '_>, members: &Map<String, Value>) -> Option<&'g Folder>
    ensures { (g : GivenFacts) → IsGiven given.now g → option_copied result ≡ first_named g (member_keys (members_view members.now.entries)) }
{
    let (key, _value) = members.first_key_value()?;
    folder_named(given, key.as_str())
}

/// Whether the text names the Mailbox of this number, or none.
fn names_no_other(given: &Given<'_, '_>, number: u64, text: &str) -> bool
    ensures { (g : GivenFacts) → IsGiven given.now g → result ≡ names_no_other g number text.now }
{
    match folder_named(given, text) {
        None => true,
        Some(folder) => folder.number == number,
    }
}

/// Whether no key names another Mailbox than that of this number.
fn name_no_other(given: &Given<'_, '_>, number: u64, members: &Map<String, Value>) -> bool
    ensures { (g : GivenFacts) → IsGiven given.now g → result ≡ list_all (names_no_other g number) (member_keys (members_view members.now.entries)) }
{
    for (key, _value) in members.iter() {
        if !names_no_other(given, number, key.as_str()) {
            return false;
        }
    }
    true
}

/// The one Mailbox that the keys name.
#[tactic(auto, using(crate::proofs::NamedLemmas::named_nowhere, crate::proofs::NamedLemmas::named_none))]
fn mailbox_named<'g>(given: &Given<'g, '_>, members: &Map<String, Value>) -> MailboxAsked<'g>
    ensures { (g : GivenFacts) → IsGiven given.now g → asked_data result ≡ spec.mailbox_named g (member_keys (members_view members.now.entries)) }
{
    if !name_folders(given, members) {
        return MailboxAsked::Nowhere;
    }
    match first_named(given, members) {
        None => MailboxAsked::Nowhere,
        Some(folder) => {
            if name_no_other(given, folder.number, members) {
                MailboxAsked::One(folder)
            } else {
                MailboxAsked::Several
            }
        }
    }
}

/// The same of an object; another value has no keys.
fn mailbox_in<'g>(given: &Given<'g, '_>, value: &Value) -> MailboxAsked<'g>
    ensures { (g : GivenFacts) → IsGiven given.now g → asked_data result ≡ spec.mailbox_named g (keys_of (view value.now)) }
{
    match value.as_object() {
        None => MailboxAsked::Nowhere,
        Some(members) => mailbox_named(given, members),
    }
}

/// The Mailbox that the properties ask.
pub fn mailbox_asked<'g>(given: &Given<'g, '_>, properties: &Map<String, Value>) -> MailboxAsked<'g>
    ensures { (g : GivenFacts) → IsGiven given.now g → asked_data result ≡ spec.mailbox_asked g (members_view properties.now.entries) }
{
    match member(properties, "mailboxIds") {
        None => MailboxAsked::Nowhere,
        Some(value) => mailbox_in(given, value),
    }
}
