// What changing commands tell of flags and folders, after their responses.
ghost use Rattle.std.specs.Prelude.{◌≡◌, OnOk, false};
ghost use Rattle.std.specs.List.{list_any};
ghost use Rattle.told_mail.specs.Mail.{named, message_in};
ghost use Rattle.told_mail.specs.Renames.{with_renamed};
ghost use Rattle.told_changes.specs.Changes as changes;
ghost use Rattle.told_changes.specs.Changes.{changed_by, named_by, with_stored_in, with_subscribed, without_named};
ghost use Rattle.told_changes.specs.Told.{is_changing};
ghost use Rattle.told_changes.specs.reading.Steps.{Steps};

use crate::codes::is_the;
use imap_types::{Command, Response};
use kept_names::{flags_after, subscribed};
use octets::{Bytes, Names};
use std::alloc::{AllocError, Global};
use told_mail::{Exchange, Mirror};

/// Whether the response tells the flags of the message of the UID.
fn tells_flags(uid: u32, response: &Response) -> bool
    ensures { result ≡ changes.tells_flags uid response.now }
{
    match response {
        Response::Fetch { items, .. } => is_the(uid, items.uid) && items.flags.is_some(),
        _ => false,
    }
}

/// Whether some response does.
fn some_tells_flags(uid: u32, responses: &[Response]) -> bool
    ensures { result ≡ list_any (changes.tells_flags uid) responses.now }
{
    responses.iter().any(|response| tells_flags(uid, response))
}

/// Sets or takes flags of a message of the folder.
fn store_in(
    alloc: Global,
    mirror: &mut Mirror,
    folder: u64,
    uid: u32,
    add: bool,
    flags: &Names,
) -> Result<(), AllocError>
    ensures ok { OnOk result (mirror.new.mail ≡ changes.with_stored mirror.old.mail folder add flags.now (message_in mirror.old.mail.folders folder uid)) }
    ensures steps { Steps mirror.old mirror.new }
{
    mirror.each_is_mail();
    let Some(message) = mirror.message(folder, uid) else {
        return Ok(());
    };
    let flags = flags_after(alloc, add, flags.as_slice(), message.flags.as_slice())?;
    mirror.set_flags(folder, uid, flags);
    Ok(())
}

/// Sets or takes flags of a message of the selected folder.
fn store(
    alloc: Global,
    mirror: &mut Mirror,
    selected: &Option<Bytes>,
    uid: u32,
    add: bool,
    flags: &Names,
) -> Result<(), AllocError>
    ensures ok { OnOk result (mirror.new.mail ≡ with_stored_in mirror.old.mail (named_by mirror.old.mail selected.now) uid add flags.now) }
    ensures steps { Steps mirror.old mirror.new }
{
    mirror.each_is_mail();
    let Some(name) = selected else {
        return Ok(());
    };
    let Some(folder) = mirror.named(name.as_slice()) else {
        return Ok(());
    };
    let number = folder.number;
    store_in(alloc, mirror, number, uid, add, flags)
}

/// Ends the folder of a name.
fn delete(mirror: &mut Mirror, name: &[u8])
    ensures mail { mirror.new.mail ≡ without_named mirror.old.mail (named mirror.old.mail.folders name.now) }
    ensures steps { Steps mirror.old mirror.new }
{
    mirror.each_is_mail();
    let Some(folder) = mirror.named(name) else {
        return;
    };
    let number = folder.number;
    mirror.cut_folder(number);
}

/// Subscribes or unsubscribes the folder of a name.
fn subscribe(alloc: Global, mirror: &mut Mirror, name: &[u8], on: bool) -> Result<(), AllocError>
    ensures ok { OnOk result (mirror.new.mail ≡ with_subscribed mirror.old.mail on (named mirror.old.mail.folders name.now)) }
    ensures steps { Steps mirror.old mirror.new }
{
    mirror.each_is_mail();
    let Some(folder) = mirror.named(name) else {
        return Ok(());
    };
    let number = folder.number;
    let attributes = subscribed(alloc, on, folder.attributes.as_slice())?;
    mirror.set_attributes(number, attributes);
    Ok(())
}

/// Renames folders.
fn rename(mirror: &mut Mirror, from: &[u8], to: &[u8]) -> Result<(), AllocError>
    ensures ok { OnOk result (mirror.new.mail ≡ with_renamed mirror.old.mail from.now to.now) }
    ensures steps { Steps mirror.old mirror.new }
{
    mirror.each_is_mail();
    mirror.rename(from, to)?;
    Ok(())
}

/// What the OK of a command says of flags and folders.
pub fn tell_changed(
    alloc: Global,
    mirror: &mut Mirror,
    exchange: &Exchange,
) -> Result<(), AllocError>
    ensures ok { OnOk result (mirror.new.mail ≡ changed_by mirror.old.mail exchange.now.command exchange.now.responses exchange.now.selected) }
    ensures steps { Steps mirror.old mirror.new }
    ensures reading { is_changing exchange.now.command ≡ false → mirror.new ≡ mirror.old }
{
    mirror.each_is_mail();
    match &exchange.command {
        Command::Store { uid, add, flags } => {
            if some_tells_flags(*uid, exchange.responses.as_slice()) {
                Ok(())
            } else {
                store(alloc, mirror, &exchange.selected, *uid, *add, flags)
            }
        }
        Command::Rename { from, to } => rename(mirror, from.as_slice(), to.as_slice()),
        Command::Delete { name } => {
            delete(mirror, name.as_slice());
            Ok(())
        }
        Command::Subscribe { name, on } => subscribe(alloc, mirror, name.as_slice(), *on),
        _ => Ok(()),
    }
}
