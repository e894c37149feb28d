// What a completed exchange tells, also of a command that changes mail.
ghost use Rattle.std.specs.Prelude.{◌≡◌, None, Some, Err, IfErr, OnOk, false};
ghost use Rattle.imap_types.specs.declared.response.Status.TheVariants as status;
ghost use Rattle.told_folder.specs.declared.exchange.ToldError.TheVariants.{Contradicts, Memory};
ghost use Rattle.told_mail.specs.Exchanges.{TellsKnown};
ghost use Rattle.told_mail.specs.Mail.{IsNextMail};
ghost use Rattle.told_mail.specs.Told.{Counts};
ghost use Rattle.told_changes.specs.Landings as landings;
ghost use Rattle.told_changes.specs.Told as changes;
ghost use Rattle.told_changes.specs.Told.{told};
ghost use Rattle.told_changes.specs.declared.landing.Landing.{Landing};
ghost use Rattle.told_changes.specs.reading.Steps.{Steps};

use crate::changes::tell_changed;
use crate::landings::contradiction;
use crate::moves::tell_landed;
use imap_types::{Command, Status};
use std::alloc::Global;
use told_mail::{Exchange, Mirror, ToldError};

/// Whether the command changes mail.
pub fn is_changing(command: &Command) -> bool
    ensures { result ≡ changes.is_changing command.now }
{
    match command {
        Command::Store { .. }
        | Command::Move { .. }
        | Command::Expunge { .. }
        | Command::Append { .. }
        | Command::Create { .. }
        | Command::Delete { .. }
        | Command::Rename { .. }
        | Command::Subscribe { .. } => true,
        _ => false,
    }
}

/// Where a message went, then the responses, then what the OK says of flags and folders.
fn tell_ok(alloc: Global, mirror: &mut Mirror, exchange: &Exchange) -> Result<(), ToldError>
    requires status { exchange.now.status ≡ status.Ok }
    requires agrees { landings.contradiction mirror.old.mail exchange.now ≡ None }
    ensures ok { OnOk result (mirror.new.mail ≡ told mirror.old.mail exchange.now) }
    ensures err { IfErr result (λ e. e ≡ Memory) }
    ensures known { changes.is_changing exchange.now.command ≡ false → TellsKnown mirror.old.mail exchange.now → OnOk result (mirror.new.changes ≡ mirror.old.changes) }
    ensures steps { Steps mirror.old mirror.new }
{
    tell_landed(alloc, mirror, exchange)?;
    mirror.tell(exchange)?;
    tell_changed(alloc, mirror, exchange)?;
    Ok(())
}

fn tell_as(alloc: Global, mirror: &mut Mirror, exchange: &Exchange) -> Result<(), ToldError>
    requires agrees { landings.contradiction mirror.old.mail exchange.now ≡ None }
    ensures ok { OnOk result (mirror.new.mail ≡ told mirror.old.mail exchange.now) }
    ensures err { IfErr result (λ e. e ≡ Memory) }
    ensures known { changes.is_changing exchange.now.command ≡ false → TellsKnown mirror.old.mail exchange.now → OnOk result (mirror.new.changes ≡ mirror.old.changes) }
    ensures steps { Steps mirror.old mirror.new }
{
    mirror.each_is_mail();
    match exchange.status {
        Status::Ok => tell_ok(alloc, mirror, exchange),
        _ => Ok(()),
    }
}

/// Tells what a completed exchange says of the mail. Where its usable code contradicts the mail, nothing is told. The mail can
/// follow what it was, also where memory ran out: then the mirror is to be dropped.
pub fn tell(alloc: Global, mirror: &mut Mirror, exchange: &Exchange) -> Result<(), ToldError>
    ensures ok { OnOk result (mirror.new.mail ≡ told mirror.old.mail exchange.now) }
    ensures contradicts { (l : Landing) → landings.contradiction mirror.old.mail exchange.now ≡ Some l → (result ≡ Err (Contradicts l.folder l.uid)) × (mirror.new ≡ mirror.old) }
    ensures memory { landings.contradiction mirror.old.mail exchange.now ≡ None → IfErr result (λ e. e ≡ Memory) }
    ensures known { changes.is_changing exchange.now.command ≡ false → TellsKnown mirror.old.mail exchange.now → OnOk result (mirror.new.changes ≡ mirror.old.changes) }
    ensures counts { Counts mirror.old mirror.new }
    ensures next { IsNextMail mirror.old.mail mirror.new.mail }
{
    mirror.each_is_mail();
    if let Some(landing) = contradiction(mirror, exchange) {
        return Err(ToldError::Contradicts {
            folder: landing.folder,
            uid: landing.uid,
        });
    }
    let before = mirror.changes();
    let told = tell_as(alloc, mirror, exchange);
    mirror.count_as_one(before);
    told?;
    Ok(())
}
