// What the items of a call are checked over, and what ids and creation ids name there.
ghost use Rattle.std.specs.Prelude.{◌≡◌, ◌<◌, ◌^◌, ◌==◌, ◌||◌, ℕ, true, option_map};
ghost use Rattle.std.specs.List.{list_any};
ghost use Rattle.std.specs.Option.{option_copied};
ghost use Rattle.mail_maps.specs.Visible.{shown};
ghost use Rattle.mail_rows.specs.reading.RowPass as passes;
ghost use Rattle.set_given.specs.Given as spec;
ghost use Rattle.set_given.specs.reading.Givens.{IsGiven, email_numbered, folder_numbered, found_data, has_number};

use crate::made::MadeFolders;
use jmap_arguments::{EMAIL_LETTER, MAILBOX_LETTER, read_id};
use jmap_core::CreatedIds;
use mail_maps::visible::is_served;
use mail_state::{MailState, MailType};
use set_order::{creation_in, id_named};
use std::collections::BTreeSet;
use told_mail::{Folder, Message, Mirror};

/// What the items of a call are checked over.
#[derive(Clone, Copy)]
pub struct Given<'g, 'k> {
    /// The mail as it is served, as the call began.
    pub state: &'g MailState,
    /// The mail that is told now.
    pub mirror: &'g Mirror,
    /// The name of the selected folder.
    pub selected: Option<&'g [u8]>,
    /// Whether the store tells special-use attributes (RFC 6154 section 2).
    pub special_use: bool,
    /// The ids that the request created before the call.
    pub created: &'g CreatedIds,
    /// The creation ids of the call itself.
    pub making: &'g BTreeSet<&'k str>,
    /// The folders that the call made so far.
    pub made: &'g MadeFolders<'k>,
}

/// Whether the folder of the number was served as the call began.
fn was_served(given: &Given<'_, '_>, number: u64) -> bool
    ensures { (g : spec.Given) → IsGiven given.now g → result ≡ spec.was_numbered g number }
{
    given.state.has(MailType::Mailbox, number)
}

/// Does nothing, and shows that each number that has an id has at most 64 bits.
fn numbers_are_small(given: &Given<'_, '_>)
    ensures { (g : spec.Given) → IsGiven given.now g → (n : ℕ) → has_number g n ≡ true → n < 2 ^ 64 }
{
    let _count = given.state.count(MailType::Mailbox);
    given.made.numbers_are_small();
}

/// The folder of the id: one that was served as the call began, or one that it made.
fn folder_by_id<'g>(given: &Given<'g, '_>, id: &str) -> Option<&'g Folder>
    ensures { (g : spec.Given) → IsGiven given.now g → option_copied result ≡ spec.folder_by_id g id.now }
{
    numbers_are_small(given);
    match read_id(MAILBOX_LETTER, id) {
        None => None,
        Some(number) => folder_numbered(given, number),
    }
}

/// The folder of the number, where it has an id.
fn folder_numbered<'g>(given: &Given<'g, '_>, number: u64) -> Option<&'g Folder>
    ensures { (g : spec.Given) → IsGiven given.now g → option_copied result ≡ folder_numbered g number }
{
    if was_served(given, number) || given.made.has(number) {
        given.mirror.folder(number)
    } else {
        None
    }
}

/// The folder that was made for the creation id.
fn folder_made<'g>(given: &Given<'g, '_>, creation: &str) -> Option<&'g Folder>
    ensures { (g : spec.Given) → IsGiven given.now g → option_copied result ≡ spec.folder_made_as g creation.now }
{
    match given.made.by_key(creation) {
        None => None,
        Some(number) => given.mirror.folder(number),
    }
}

/// The folder that was made for the creation id.
fn folder_created<'g>(given: &Given<'g, '_>, creation: &str) -> Option<&'g Folder>
    ensures { (g : spec.Given) → IsGiven given.now g → option_copied result ≡ spec.folder_created g creation.now }
{
    if given.making.contains(creation) {
        return folder_made(given, creation);
    }
    match given.created.get(creation) {
        None => None,
        Some(id) => folder_by_id(given, id),
    }
}

/// The folder that a text names, by its id or by `#` and a creation id.
pub fn folder_named<'g>(given: &Given<'g, '_>, text: &str) -> Option<&'g Folder>
    ensures { (g : spec.Given) → IsGiven given.now g → option_copied result ≡ spec.folder_named g text.now }
{
    match creation_in(text) {
        None => folder_by_id(given, text),
        Some(creation) => folder_created(given, creation),
    }
}

/// The same for a destroy: one that the call made isn't kept before its commit.
pub fn folder_to_destroy<'g>(given: &Given<'g, '_>, text: &str) -> Option<&'g Folder>
    ensures { (g : spec.Given) → IsGiven given.now g → option_copied result ≡ spec.folder_to_destroy g text.now }
{
    match folder_named(given, text) {
        None => None,
        Some(folder) => {
            if was_served(given, folder.number) {
                Some(folder)
            } else {
                None
            }
        }
    }
}

/// An Email, and where its message is shown now.
#[derive(Clone, Copy)]
pub struct EmailFound<'g> {
    /// Its number.
    pub email: u64,
    /// That of its message.
    pub mark: u64,
    /// The number of its folder.
    pub folder: u64,
    /// Its message.
    pub message: &'g Message,
}

/// The message with the number of its folder, where it is served.
fn if_served(folder: u64, message: &Message) -> Option<(u64, &Message)>
    ensures { option_map (λ p. record { folder = p.0; message = p.1.now }) result ≡ passes.if_served folder message.now }
{
    if is_served(message) {
        Some((folder, message))
    } else {
        None
    }
}

/// The message of a UID, where it is served.
fn served_at(mirror: &Mirror, folder: u64, uid: u32) -> Option<(u64, &Message)>
    ensures { option_map (λ p. record { folder = p.0; message = p.1.now }) result ≡ passes.served_at mirror.now.mail.folders folder uid }
{
    match mirror.message(folder, uid) {
        Some(message) => if_served(folder, message),
        None => None,
    }
}

/// The message of the mark, where it is served.
fn message_of(mirror: &Mirror, mark: u64) -> Option<(u64, &Message)>
    ensures { option_map (λ p. record { folder = p.0; message = p.1.now }) result ≡ shown mirror.now.mail.folders mark }
{
    mirror.each_is_mail();
    match mirror.place_of(mark) {
        Some((folder, uid)) => served_at(mirror, folder, uid),
        None => None,
    }
}

/// The Email of the number, where the message of the mark is shown.
fn email_shown<'g>(given: &Given<'g, '_>, email: u64, mark: u64) -> Option<EmailFound<'g>>
    ensures { (g : spec.Given) → IsGiven given.now g → option_map found_data result ≡ spec.shown_at g email mark }
{
    match message_of(given.mirror, mark) {
        None => None,
        Some((folder, message)) => Some(EmailFound {
            email,
            mark,
            folder,
            message,
        }),
    }
}

/// The Email of the number, where its message is shown still.
fn email_numbered<'g>(given: &Given<'g, '_>, number: u64) -> Option<EmailFound<'g>>
    ensures { (g : spec.Given) → IsGiven given.now g → option_map found_data result ≡ email_numbered g number }
{
    match given.state.email(number) {
        None => None,
        Some(row) => email_shown(given, number, row.mark),
    }
}

/// The Email of the id.
fn email_by_id<'g>(given: &Given<'g, '_>, id: &str) -> Option<EmailFound<'g>>
    ensures { (g : spec.Given) → IsGiven given.now g → option_map found_data result ≡ spec.email_by_id g id.now }
{
    let _count = given.state.count(MailType::Email);
    match read_id(EMAIL_LETTER, id) {
        None => None,
        Some(number) => email_numbered(given, number),
    }
}

/// The Email that a text names: one that was served as the call began, and is shown still.
pub fn email_named<'g>(given: &Given<'g, '_>, text: &str) -> Option<EmailFound<'g>>
    ensures { (g : spec.Given) → IsGiven given.now g → option_map found_data result ≡ spec.email_named g text.now }
{
    match id_named(given.making, given.created, text) {
        None => None,
        Some(id) => email_by_id(given, id),
    }
}
