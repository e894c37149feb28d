// The steps of an update of an Email, and the rights that it takes (RFC 8621 sections 2 and 4.6).
ghost use Rattle.std.specs.Prelude.{◌≡◌, ◌≢◌, ◌↔◌, ◌++◌, [], IfOk, IsTrue, OnOk, not, option_map};
ghost use Rattle.std.specs.List.{list_any};
ghost use Rattle.std.specs.Option.{option_copied};
ghost use Rattle.email_checks.specs.Steps as spec;
ghost use Rattle.email_checks.specs.reading.Updates.{update_data};

use imap_types::Command;
use mail_maps::rights::rights_of;
use octets::{Listed, Names};
use set_jobs::{Done, Job, Step};
use std::alloc::{AllocError, Global};
use told_mail::Folder;

/// An update that passes the first checks.
#[derive(Drop)]
pub(crate) struct EmailUpdate<'g> {
    /// The number of the Email.
    pub(crate) email: u64,
    /// The number and the UID of its message.
    pub(crate) mark: u64,
    pub(crate) uid: u32,
    /// The folder that it is in.
    pub(crate) folder: &'g Folder,
    /// The flags that are to be set, and to be taken.
    pub(crate) sets: Names,
    pub(crate) takes: Names,
    /// The whole set of keywords that is asked, where these were patched.
    pub(crate) asked: Option<Names>,
    /// Where it is to be.
    pub(crate) target: Option<&'g Folder>,
}

// ---- rights

fn is_seen_flag(flag: &[u8]) -> bool
    ensures { result ≡ spec.is_seen_flag flag.now }
{
    flag == b"\\seen".as_slice()
}

fn has_seen_flag(flags: &Names) -> bool
    ensures { result ≡ list_any spec.is_seen_flag flags.now }
{
    flags
        .as_slice()
        .iter()
        .any(|flag| is_seen_flag(flag.as_slice()))
}

fn has_other_flag(flags: &Names) -> bool
    ensures { result ≡ list_any (λ k. not (spec.is_seen_flag k)) flags.now }
{
    flags
        .as_slice()
        .iter()
        .any(|flag| !is_seen_flag(flag.as_slice()))
}

fn lacks_flag_right(folder: &Folder, flags: &Names) -> bool
    ensures { result ≡ spec.lacks_flag_right folder.now flags.now }
{
    let rights = rights_of(folder);
    (has_seen_flag(flags) && !rights.may_set_seen)
        || (has_other_flag(flags) && !rights.may_set_keywords)
}

/// Whether a message can be moved into the folder: a validity was told of it, so that the UID there can be known.
pub fn can_be_moved_into(folder: &Folder) -> bool
    ensures { result ≡ spec.can_be_moved_into folder.now }
{
    rights_of(folder).may_add_items && folder.validity != 0
}

fn lacks_move_right(folder: &Folder, target: Option<&Folder>) -> bool
    ensures { result ≡ spec.lacks_move_right folder.now (option_copied target.entry) }
{
    match target {
        None => false,
        Some(target) => {
            target.number != folder.number
                && (!rights_of(folder).may_remove_items || !can_be_moved_into(target))
        }
    }
}

/// Whether a right for what would be changed is false.
pub(crate) fn is_forbidden(update: &EmailUpdate<'_>) -> bool
    ensures { result ≡ spec.is_forbidden (update_data update.now) }
{
    lacks_flag_right(update.folder, &update.sets)
        || lacks_flag_right(update.folder, &update.takes)
        || lacks_move_right(update.folder, update.target)
}

// ---- steps

fn is_selected(selected: Option<&[u8]>, name: &[u8]) -> bool
    ensures { result ≡ spec.is_selected (option_copied selected.entry) name.now }
{
    match selected {
        Some(selected) => selected == name,
        None => false,
    }
}

/// The folder is selected first, where it isn't.
pub(crate) fn put_select(
    selected: Option<&[u8]>,
    steps: &mut Listed<Step>,
    folder: &Folder,
    mark: u64,
) -> Result<(), AllocError>
    ensures { OnOk result (steps.new ≡ steps.old ++ spec.selects (option_copied selected.entry) folder.now mark) }
{
    if is_selected(selected, folder.name.as_slice()) {
        return Ok(());
    }
    steps.push(Step::Select {
        folder: folder.number,
        mark,
    })
}

fn put_store(steps: &mut Listed<Step>, uid: u32, add: bool, flags: Names) -> Result<(), AllocError>
    ensures { OnOk result (steps.new ≡ steps.old ++ spec.stores uid add flags) }
{
    if flags.is_empty() {
        return Ok(());
    }
    steps.push(Step::Change(Command::Store { uid, add, flags }))
}

fn put_move(
    steps: &mut Listed<Step>,
    uid: u32,
    folder: &Folder,
    target: Option<&Folder>,
) -> Result<(), AllocError>
    ensures { OnOk result (steps.new ≡ steps.old ++ spec.moves uid folder.now (option_copied target.entry)) }
{
    match target {
        None => Ok(()),
        Some(target) => {
            if target.number == folder.number {
                return Ok(());
            }
            let name = target.name.share()?;
            steps.push(Step::Change(Command::Move { uid, name }))
        }
    }
}

fn is_moved(update: &EmailUpdate<'_>) -> bool
    ensures { IsTrue result ↔ (spec.moves update.now.uid update.now.folder.now (option_map (λ f. f.now) update.now.target) ≢ []) }
{
    match update.target {
        Some(target) => target.number != update.folder.number,
        None => false,
    }
}

/// What the update is to do.
pub(crate) fn update_job(
    alloc: Global,
    selected: Option<&[u8]>,
    update: EmailUpdate<'_>,
) -> Result<Job, AllocError>
    ensures { IfOk result (λ job. job ≡ spec.update_job (option_copied selected.entry) (update_data update.entry)) }
{
    let mut steps = Listed::from_vec(Vec::new(alloc));
    if !update.sets.is_empty() || !update.takes.is_empty() || is_moved(&update) {
        put_select(selected, &mut steps, update.folder, update.mark)?;
    }
    let EmailUpdate {
        email,
        mark: _,
        uid,
        folder,
        sets,
        takes,
        asked,
        target,
    } = update;
    put_store(&mut steps, uid, true, sets)?;
    put_store(&mut steps, uid, false, takes)?;
    put_move(&mut steps, uid, folder, target)?;
    Ok(Job {
        steps,
        done: Done::Changed {
            number: email,
            asked,
        },
    })
}
