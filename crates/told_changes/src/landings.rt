// Where an exchange says that its message went (RFC 9051 sections 6.3.12 and 6.4.8).
ghost use Rattle.std.specs.Option.{option_copied};
ghost use Rattle.std.specs.Prelude.{◌≡◌};
ghost use Rattle.told_changes.specs.Landings as landings;
ghost use Rattle.told_changes.specs.Landings.{target_of};

use crate::Landing;
use crate::codes::{appended_uid, moved_uid};
use imap_types::{Command, Status};
use told_folder::telling::MAX_MARK;
use told_mail::{Exchange, Folder, Mirror};

/// The folder that the command puts a message into.
fn target<'a>(mirror: &'a Mirror, command: &Command) -> Option<&'a Folder>
    ensures { option_copied result ≡ target_of mirror.now.mail command.now }
{
    match command {
        Command::Move { name, .. } => mirror.named(name.as_slice()),
        Command::Append { name, .. } => mirror.named(name.as_slice()),
        _ => None,
    }
}

/// The UID that the message got in a folder of this validity.
fn landed_uid(next_mark: u64, validity: u32, exchange: &Exchange) -> Option<u32>
    ensures { result ≡ landings.landed_uid next_mark validity exchange.now.command exchange.now.responses exchange.now.code }
{
    match &exchange.command {
        Command::Move { uid, .. } => moved_uid(
            validity,
            *uid,
            exchange.responses.as_slice(),
            &exchange.code,
        ),
        Command::Append { .. } => {
            if next_mark <= MAX_MARK {
                appended_uid(validity, &exchange.code)
            } else {
                None
            }
        }
        _ => None,
    }
}

/// Where the exchange's usable code says that its message went.
fn landing_of(mirror: &Mirror, exchange: &Exchange) -> Option<Landing>
    ensures { result ≡ landings.landing mirror.now.mail exchange.now }
{
    let Some(folder) = target(mirror, &exchange.command) else {
        return None;
    };
    let Some(uid) = landed_uid(mirror.next_mark(), folder.validity, exchange) else {
        return None;
    };
    Some(Landing {
        folder: folder.number,
        uid,
    })
}

/// Whether the UID is below the one before which all of the folder is known.
fn is_below_next(uid: u32, folder: Option<&Folder>) -> bool
    ensures { result ≡ landings.is_below_next uid (option_copied folder.entry) }
{
    match folder {
        Some(folder) => u64::from(uid) < folder.next,
        None => false,
    }
}

/// Whether the mail knows the UID as another message's, or as no new one's.
fn is_contradicted(mirror: &Mirror, command: &Command, landing: Landing) -> bool
    ensures { result ≡ landings.is_contradicted mirror.now.mail (target_of mirror.now.mail command.now) landing }
{
    is_below_next(landing.uid, target(mirror, command))
        || mirror.message(landing.folder, landing.uid).is_some()
}

/// Where the exchange's usable code says that its message went, though the mail knows it otherwise. An exchange without OK
/// says nothing.
pub fn contradiction(mirror: &Mirror, exchange: &Exchange) -> Option<Landing>
    ensures { result ≡ landings.contradiction mirror.now.mail exchange.now }
{
    match exchange.status {
        Status::Ok => match landing_of(mirror, exchange) {
            Some(landing) if is_contradicted(mirror, &exchange.command, landing) => Some(landing),
            _ => None,
        },
        _ => None,
    }
}

/// Where the exchange's message went, as it is told. An exchange without OK tells nothing, as does one that the mail
/// contradicts.
pub fn told_landing(mirror: &Mirror, exchange: &Exchange) -> Option<Landing>
    ensures { result ≡ landings.told_landing mirror.now.mail exchange.now }
{
    match exchange.status {
        Status::Ok => match landing_of(mirror, exchange) {
            Some(landing) if !is_contradicted(mirror, &exchange.command, landing) => Some(landing),
            _ => None,
        },
        _ => None,
    }
}
