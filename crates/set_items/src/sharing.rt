// Commands that are sent from where they are kept.
ghost use Rattle.std.specs.Prelude.{◌≡◌, IfOk, false};
ghost use Rattle.told_changes.specs.Told as changes;

use imap_types::Command;
use std::alloc::{AllocError, Global};

/// A command that reads.
fn share_reading(command: &Command) -> Result<Command, AllocError>
    ensures { IfOk result (λ c. changes.is_changing command.now ≡ false → c ≡ command.now) }
{
    Ok(match command {
        Command::Login { user, password } => Command::Login {
            user: user.share()?,
            password: password.share()?,
        },
        Command::Select { name, known } => Command::Select {
            name: name.share()?,
            known: *known,
        },
        Command::List { special_use } => Command::List {
            special_use: *special_use,
        },
        Command::FetchSlice { from, to, modseq } => Command::FetchSlice {
            from: *from,
            to: *to,
            modseq: *modseq,
        },
        Command::FetchNew { from, modseq } => Command::FetchNew {
            from: *from,
            modseq: *modseq,
        },
        Command::FetchBody { uid } => Command::FetchBody { uid: *uid },
        Command::Enable => Command::Enable,
        Command::Unselect => Command::Unselect,
        Command::FetchFlags => Command::FetchFlags,
        _ => Command::Capability,
    })
}

/// The command, which shares its octets with this one.
pub fn share_command(alloc: Global, command: &Command) -> Result<Command, AllocError>
    ensures { IfOk result (λ c. c ≡ command.now) }
{
    Ok(match command {
        Command::Store { uid, add, flags } => Command::Store {
            uid: *uid,
            add: *add,
            flags: flags.share(alloc)?,
        },
        Command::Move { uid, name } => Command::Move {
            uid: *uid,
            name: name.share()?,
        },
        Command::Expunge { uid } => Command::Expunge { uid: *uid },
        Command::Create { name } => Command::Create {
            name: name.share()?,
        },
        Command::Delete { name } => Command::Delete {
            name: name.share()?,
        },
        Command::Rename { from, to } => Command::Rename {
            from: from.share()?,
            to: to.share()?,
        },
        Command::Subscribe { name, on } => Command::Subscribe {
            name: name.share()?,
            on: *on,
        },
        Command::Append {
            name,
            flags,
            date,
            message,
        } => Command::Append {
            name: name.share()?,
            flags: flags.share(alloc)?,
            date: *date,
            message: message.share()?,
        },
        _ => share_reading(command)?,
    })
}
