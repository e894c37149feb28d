// What the end of a fetch tells: how far UIDs are known, and which messages are gone.
ghost use Rattle.std.specs.Prelude.{◌≡◌, ◌≤◌, ◌+◌, ◌^◌, ℕ, OnOk, IfOk, max, not};
ghost use Rattle.std.specs.BTreeSet.{contains};
ghost use Rattle.std.specs.Ordering.{nat_cmp};
ghost use Rattle.told_folder.specs.ToldBy as told;
ghost use Rattle.told_folder.specs.ToldBy.{ended_command, is_told, past_told};
ghost use Rattle.told_folder.specs.Keyed.{Ascends};
ghost use Rattle.told_folder.specs.Folders.{uid_of};
ghost use Rattle.told_folder.specs.FolderTelling.{held_of, Steps, StepsOk};

use crate::Folder;
use crate::messages::Messages;
use crate::puts::one_more;
use crate::telling::{FolderTelling, tell_gone};
use crate::uids::Uids;
use imap_types::{Command, Response};
use std::alloc::{AllocError, Global};
use std::collections::BTreeSet;

/// The UID that a FETCH tells.
fn uid_told(response: &Response) -> Option<u32>
    ensures { result ≡ told.uid_told response.now }
{
    match response {
        Response::Fetch { items, .. } => items.uid,
        _ => None,
    }
}

/// One past the UID, where it is held; else 0.
fn past(messages: &Messages, uid: Option<u32>) -> u64
    ensures { result ≡ told.past messages.now uid }
{
    let Some(uid) = uid else {
        return 0;
    };
    if messages.holds(uid) {
        u64::from(uid) + 1
    } else {
        0
    }
}

/// The greater of this number and one past the greatest UID that is told and held.
fn next_told(messages: &Messages, responses: &[Response], next: u64) -> u64
    ensures { result ≡ max next (past_told messages.now responses.now) }
{
    let mut last = next;
    for response in responses {
        last = last.max(past(messages, uid_told(response)));
    }
    last
}

/// Every UID but those that are told.
#[derive(Drop)]
struct Untold {
    told: BTreeSet<u32>,
}

impl Uids for Untold {
    ghost has = { λ u uid. not (contains nat_cmp u.told uid) };

    fn contains(&self, uid: u32) -> bool {
        !self.told.contains(&uid)
    }
}

fn untold_by(alloc: Global, responses: &[Response]) -> Result<Untold, AllocError>
    ensures { IfOk result (λ u. (uid : ℕ) → contains nat_cmp u.told uid ≡ is_told responses.now uid) }
{
    let mut told = BTreeSet::new(alloc);
    for response in responses {
        if let Some(uid) = uid_told(response) {
            told.insert(uid)?;
        }
    }
    Ok(Untold { told })
}

fn set_next(work: &mut FolderTelling, folder: &mut Folder, next: u64)
    requires { folder.old.next ≤ next }
    ensures { Steps work.old work.new folder.old folder.new (told.with_next next (held_of work.old folder.old)) }
{
    if folder.next < next {
        folder.next = next;
        work.changes = one_more(work.changes);
    }
}

/// What follows the responses of a command.
pub fn tell_end(
    alloc: Global,
    work: &mut FolderTelling,
    folder: &mut Folder,
    command: &Command,
    responses: &[Response],
) -> Result<(), AllocError>
    requires { Ascends uid_of work.old.messages }
    ensures { StepsOk work.old work.new folder.old folder.new (ended_command command.now responses.now folder.old work.old.messages) result }
{
    match command {
        Command::FetchNew { .. } => {
            let next = next_told(&work.messages, responses, folder.next);
            set_next(work, folder, next);
            Ok(())
        }
        Command::FetchSlice { to, .. } => {
            let next = folder.next.max(u64::from(*to) + 1);
            set_next(work, folder, next);
            Ok(())
        }
        Command::FetchFlags => {
            tell_gone(alloc, work, &untold_by(alloc, responses)?);
            Ok(())
        }
        _ => Ok(()),
    }
}
