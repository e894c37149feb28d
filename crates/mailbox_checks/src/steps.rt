// What is sent for the items of Mailbox/set (RFC 9051 sections 6.3.4 to 6.3.9 and 6.4.2).
ghost use Rattle.std.specs.Prelude.{◌≡◌, ◌++◌, IfOk, OnOk};
ghost use Rattle.std.specs.Option.{option_copied};
ghost use Rattle.mailbox_checks.specs.Steps as spec;

use imap_types::Command;
use octets::{Bytes, Listed};
use set_jobs::Step;
use std::alloc::{AllocError, Global};

/// Where a folder is selected it is left first.
fn unselects(alloc: Global, selected: Option<&[u8]>) -> Result<Listed<Step>, AllocError>
    ensures { IfOk result (λ steps. steps ≡ spec.unselects (option_copied selected.entry)) }
{
    let mut steps = Listed::from_vec(Vec::new(alloc));
    if selected.is_some() {
        steps.push(Step::Unselect)?;
    }
    Ok(steps)
}

/// The subscription is changed where another one is asked.
pub(crate) fn put_subscribe(
    steps: &mut Listed<Step>,
    name: Bytes,
    was: bool,
    asked: bool,
) -> Result<(), AllocError>
    ensures { OnOk result (steps.new ≡ steps.old ++ spec.subscribes name was asked) }
{
    if was == asked {
        return Ok(());
    }
    steps.push(Step::Change(Command::Subscribe { name, on: asked }))
}

/// The subscription of a folder that was renamed is said anew: no store need carry it along with the name (RFC 9051 section 6.3.6).
pub(crate) fn put_subscribe_anew(
    steps: &mut Listed<Step>,
    name: Bytes,
    was: bool,
    asked: bool,
) -> Result<(), AllocError>
    ensures { OnOk result (steps.new ≡ steps.old ++ spec.subscribes_anew name was asked) }
{
    if !was && !asked {
        return Ok(());
    }
    steps.push(Step::Change(Command::Subscribe { name, on: asked }))
}

/// A CREATE of this name, after which the folder is subscribed where that is asked, listed and selected.
pub(crate) fn creates(
    alloc: Global,
    name: Bytes,
    subscribed: bool,
    special_use: bool,
) -> Result<Listed<Step>, AllocError>
    ensures { IfOk result (λ steps. steps ≡ spec.creates name subscribed special_use) }
{
    let (made, subscribing, listed) = (name.share()?, name.share()?, name.share()?);
    let mut steps = Listed::from_vec(Vec::new(alloc));
    steps.push(Step::Change(Command::Create { name: made }))?;
    put_subscribe(&mut steps, subscribing, false, subscribed)?;
    steps.push(Step::List {
        name: listed,
        special_use,
    })?;
    steps.push(Step::SelectMade { name })?;
    Ok(steps)
}

/// A RENAME.
pub(crate) fn renames(
    alloc: Global,
    selected: Option<&[u8]>,
    from: Bytes,
    to: Bytes,
) -> Result<Listed<Step>, AllocError>
    ensures { IfOk result (λ steps. steps ≡ spec.renames (option_copied selected.entry) from to) }
{
    let mut steps = unselects(alloc, selected)?;
    steps.push(Step::Change(Command::Rename { from, to }))?;
    Ok(steps)
}

/// A DELETE.
pub(crate) fn deletes(
    alloc: Global,
    selected: Option<&[u8]>,
    name: Bytes,
) -> Result<Listed<Step>, AllocError>
    ensures { IfOk result (λ steps. steps ≡ spec.deletes (option_copied selected.entry) name) }
{
    let mut steps = unselects(alloc, selected)?;
    steps.push(Step::Change(Command::Delete { name }))?;
    Ok(steps)
}
