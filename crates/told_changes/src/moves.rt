// Messages that a command put into a folder.
ghost use Rattle.std.specs.Prelude.{◌≡◌, None, Some, OnOk};
ghost use Rattle.told_mail.specs.Mail.{held_in, message_in};
ghost use Rattle.told_changes.specs.Changes as changes;
ghost use Rattle.told_changes.specs.Changes.{named_by, with_moved, with_moved_from};
ghost use Rattle.told_changes.specs.Landings as landings;
ghost use Rattle.told_changes.specs.Told.{landed_by};
ghost use Rattle.told_changes.specs.reading.Steps.{IsFree, Steps};

use crate::Landing;
use crate::appends::append_message;
use crate::landings::told_landing;
use imap_types::Command;
use octets::Bytes;
use std::alloc::{AllocError, Global};
use told_mail::{Exchange, Mirror};

/// Gives the message another place, with its mark.
fn move_message(
    mirror: &mut Mirror,
    from: u64,
    uid: u32,
    landing: Landing,
) -> Result<(), AllocError>
    requires { IsFree mirror.old.mail landing }
    ensures ok { OnOk result (mirror.new.mail ≡ with_moved mirror.old.mail from uid landing (message_in mirror.old.mail.folders from uid)) }
    ensures steps { Steps mirror.old mirror.new }
{
    mirror.each_is_mail();
    let Some(message) = mirror.message(from, uid) else {
        return Ok(());
    };
    let mark = message.mark;
    let Some(message) = mirror.cut_message(mark) else {
        unreachable!()
    };
    let mut message = message;
    message.uid = landing.uid;
    mirror.put_message(landing.folder, message)?;
    Ok(())
}

/// Gives a message of the selected folder another place, with its mark.
fn move_selected(
    mirror: &mut Mirror,
    selected: &Option<Bytes>,
    uid: u32,
    landing: Landing,
) -> Result<(), AllocError>
    requires { IsFree mirror.old.mail landing }
    ensures ok { OnOk result (mirror.new.mail ≡ with_moved_from mirror.old.mail (named_by mirror.old.mail selected.now) uid landing) }
    ensures steps { Steps mirror.old mirror.new }
{
    mirror.each_is_mail();
    let Some(name) = selected else {
        return Ok(());
    };
    let Some(folder) = mirror.named(name.as_slice()) else {
        return Ok(());
    };
    let number = folder.number;
    move_message(mirror, number, uid, landing)
}

/// Puts the message of a command where it went.
fn land(
    alloc: Global,
    mirror: &mut Mirror,
    exchange: &Exchange,
    landing: Landing,
) -> Result<(), AllocError>
    requires { landings.told_landing mirror.old.mail exchange.now ≡ Some landing }
    ensures ok { OnOk result (mirror.new.mail ≡ changes.landed mirror.old.mail exchange.now.command exchange.now.selected landing) }
    ensures steps { Steps mirror.old mirror.new }
{
    mirror.each_is_mail();
    match &exchange.command {
        Command::Move { uid, .. } => move_selected(mirror, &exchange.selected, *uid, landing),
        Command::Append {
            flags,
            date,
            message,
            ..
        } => append_message(alloc, mirror, landing, flags, *date, message),
        _ => Ok(()),
    }
}

/// Puts the message of a command where it went, where the command's code says so.
pub fn tell_landed(
    alloc: Global,
    mirror: &mut Mirror,
    exchange: &Exchange,
) -> Result<(), AllocError>
    ensures ok { OnOk result (mirror.new.mail ≡ landed_by mirror.old.mail exchange.now (landings.told_landing mirror.old.mail exchange.now)) }
    ensures none { landings.told_landing mirror.old.mail exchange.now ≡ None → mirror.new ≡ mirror.old }
    ensures steps { Steps mirror.old mirror.new }
{
    mirror.each_is_mail();
    match told_landing(mirror, exchange) {
        Some(landing) => land(alloc, mirror, exchange, landing),
        None => Ok(()),
    }
}
