// An exchange told to its folder.
ghost use Rattle.std.specs.Prelude.{◌≡◌};
ghost use Rattle.told_folder.specs.ToldBy as told;
ghost use Rattle.told_folder.specs.ToldBy.{selected_first};
ghost use Rattle.told_folder.specs.Keyed.{Ascends};
ghost use Rattle.told_folder.specs.Folders.{uid_of};
ghost use Rattle.told_folder.specs.FolderTelling.{held_of, Steps, Tells};

use crate::Folder;
use crate::fetched::tell_end;
use crate::select::tell_select;
use crate::telling::{FolderTelling, tell_responses};
use imap_types::{Command, Response};
use std::alloc::{AllocError, Global};

/// Whether a message of a UID that isn't held is new.
fn is_adding(command: &Command) -> bool
    ensures { result ≡ told.adds command.now }
{
    match command {
        Command::FetchSlice { .. } | Command::FetchNew { .. } => true,
        _ => false,
    }
}

/// What comes before the responses.
fn tell_start(
    alloc: Global,
    work: &mut FolderTelling,
    folder: &mut Folder,
    command: &Command,
    responses: &[Response],
)
    requires { Ascends uid_of work.old.messages }
    ensures { Steps work.old work.new folder.old folder.new (selected_first command.now responses.now (held_of work.old folder.old)) }
{
    match command {
        Command::Select { .. } => tell_select(alloc, work, folder, responses),
        _ => {}
    }
}

/// These responses of a command.
pub fn tell_exchange(
    alloc: Global,
    work: &mut FolderTelling,
    folder: &mut Folder,
    command: &Command,
    responses: &[Response],
) -> Result<(), AllocError>
    requires { Ascends uid_of work.old.messages }
    ensures { Tells work.old work.new folder.old folder.new command.now responses.now result }
{
    tell_start(alloc, work, folder, command, responses);
    tell_responses(alloc, work, is_adding(command), responses)?;
    tell_end(alloc, work, folder, command, responses)
}
