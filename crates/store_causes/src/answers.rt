// The cause of what a store answered, or didn't answer.
ghost use Rattle.std.specs.Prelude.{◌≡◌, IfOk};
ghost use Rattle.imap_client.specs.LinkLife.{selected_after as selected_told};
ghost use Rattle.store_causes.specs.Causes as causes;

use crate::cause::{Asked, Breach, StoreCause};
use imap_client::{LinkEnd, is_ok, tells};
use imap_types::{Command, Status};
use octets::Bytes;
use std::alloc::{AllocError, Global};
use told_mail::Exchange;

// The same name, whose octets are shared and not copied.
fn shared(name: &Option<Bytes>) -> Result<Option<Bytes>, AllocError>
    ensures { IfOk result (λ same. same ≡ name.now) }
{
    match name {
        Some(name) => Ok(Some(name.share()?)),
        None => Ok(None),
    }
}

/// The folder that is selected after the exchange, where this one was before.
pub fn selected_after(before: &Option<Bytes>, x: &Exchange) -> Result<Option<Bytes>, AllocError>
    ensures { IfOk result (λ name. name ≡ selected_told before.now x.now) }
{
    match &x.command {
        Command::Select { name, .. } => match x.status {
            Status::Ok => Ok(Some(name.share()?)),
            _ => Ok(None),
        },
        Command::Unselect => Ok(None),
        _ => shared(before),
    }
}

/// Whether the user is let in after the exchange.
pub fn let_in_after(before: bool, x: &Exchange) -> bool
    ensures { result ≡ causes.let_in_after before x.now }
{
    match x.command {
        Command::Login { .. } => is_ok(x.status),
        _ => before,
    }
}

// The name of the selected folder; empty where none is selected.
fn name_or_empty(alloc: Global, selected: &Option<Bytes>) -> Result<Bytes, AllocError>
    ensures { IfOk result (λ name. name ≡ causes.name_or_empty selected.now) }
{
    match selected {
        Some(name) => Ok(name.share()?),
        None => Ok(Bytes::copy_of(alloc, b"")?),
    }
}

/// What the command asks, while this folder is selected.
pub fn asked_by(
    alloc: Global,
    command: &Command,
    selected: &Option<Bytes>,
) -> Result<Asked, AllocError>
    ensures { IfOk result (λ asked. asked ≡ causes.asked_by command.now selected.now) }
{
    match command {
        Command::Capability => Ok(Asked::Capabilities),
        Command::Login { .. } => Ok(Asked::Login),
        Command::Enable => Ok(Asked::Enabling),
        Command::List { .. } => Ok(Asked::Listing),
        Command::Select { name, .. } => Ok(Asked::Selecting(name.share()?)),
        _ => Ok(Asked::Fetching(name_or_empty(alloc, selected)?)),
    }
}

// What the capabilities lack.
fn lacking(let_in: bool, x: &Exchange) -> StoreCause
    ensures { result ≡ causes.lacking let_in x.now }
{
    if let_in {
        StoreCause::Lacking {
            rev2: tells(x, b"IMAP4rev2"),
            qresync: tells(x, b"QRESYNC"),
        }
    } else {
        StoreCause::LoginDisabled
    }
}

// The cause of an OK after which no more is asked.
fn cause_of_ok(alloc: Global, let_in: bool, x: &Exchange) -> Result<StoreCause, AllocError>
    ensures { IfOk result (λ cause. cause ≡ causes.cause_of_ok let_in x.now.command x.now) }
{
    match &x.command {
        Command::Capability => Ok(lacking(let_in, x)),
        Command::Enable => Ok(StoreCause::NotEnabled),
        Command::Select { name, .. } => Ok(StoreCause::NoValidity(name.share()?)),
        _ => Ok(StoreCause::Refused(asked_by(alloc, &x.command, &x.selected)?)),
    }
}

/// The cause, should no more be asked after the exchange, before which the user was let in or not.
pub fn cause_after(alloc: Global, let_in: bool, x: &Exchange) -> Result<StoreCause, AllocError>
    ensures { IfOk result (λ cause. cause ≡ causes.cause_after let_in x.now) }
{
    if is_ok(x.status) {
        cause_of_ok(alloc, let_in, x)
    } else {
        Ok(StoreCause::Refused(asked_by(alloc, &x.command, &x.selected)?))
    }
}

/// Why a command isn't answered; none where this is no such end.
pub fn breach_of(end: LinkEnd) -> Option<Breach>
    ensures { result ≡ causes.breach_of end }
{
    match end {
        LinkEnd::Lost => Some(Breach::Silent),
        LinkEnd::Bye => Some(Breach::Bye),
        LinkEnd::Bad { at } => Some(Breach::Unreadable { at }),
        LinkEnd::Stray => Some(Breach::Stray),
        LinkEnd::TooMuch => Some(Breach::TooMuch),
        _ => None,
    }
}

/// The cause where this is asked and the life ends so; none where this is no end of an unanswered command.
pub fn unanswered(asked: Asked, end: LinkEnd) -> Option<StoreCause>
    ensures { result ≡ causes.unanswered asked end }
{
    match breach_of(end) {
        Some(breach) => Some(StoreCause::Unanswered { asked, breach }),
        None => None,
    }
}
