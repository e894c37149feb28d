// The report on a check.
ghost use Rattle.std.specs.Prelude.{◌≡◌, ◌++◌, OnOk, IfOk};
ghost use Rattle.check_report.specs.Lines as lines;

use crate::causes::{put_again, put_beginning, put_cause};
use crate::finding::Finding;
use crate::folders::{put_folders, put_round};
use crate::pieces::put;
use crate::shown::shown;
use std::alloc::{AllocError, Global};
use store_causes::{Asked, StoreCause};

/// Where a client connected.
pub const HAS_BOTH: &str = "it has IMAP4rev2 and QRESYNC\n";
/// Where there is no cause.
pub const USABLE: &str = "the store can be used\n";
/// Where there is one though a first round was done.
pub const FIRST_ALONE: &str = "a first request would be answered, and the next would not: ";

// Whether this is asked in a round.
fn is_of_round(asked: &Asked) -> bool
    ensures { result ≡ lines.is_of_round asked.now }
{
    match asked {
        Asked::Listing => true,
        Asked::Selecting(_) => true,
        Asked::Fetching(_) => true,
        _ => false,
    }
}

// Whether a client connected, where the cause is this.
fn is_connected(cause: &Option<StoreCause>) -> bool
    ensures { result ≡ lines.is_connected cause.now }
{
    match cause {
        None => true,
        Some(StoreCause::Unanswered { asked, .. }) => is_of_round(asked),
        Some(StoreCause::Refused(asked)) => is_of_round(asked),
        Some(StoreCause::NoValidity(_)) => true,
        Some(_) => false,
    }
}

fn put_login(out: &mut Vec<u8>, preauth: bool, let_in: bool, user: &[u8]) -> Result<(), AllocError>
    ensures { OnOk result (out.new.items ≡ out.old.items ++ lines.login_lines preauth let_in user.now) }
{
    if preauth {
        return put(
            out,
            b"it asks no login: it lets in whoever reaches it (PREAUTH)\n",
        );
    }
    if let_in {
        put(out, b"it lets ")?;
        put(out, user)?;
        put(out, b" in\n")?;
        return Ok(());
    }
    Ok(())
}

fn put_greeting(
    out: &mut Vec<u8>,
    store: &[u8],
    user: &[u8],
    found: &Finding,
) -> Result<(), AllocError>
    ensures { OnOk result (out.new.items ≡ out.old.items ++ lines.greeting_lines store.now user.now found.now.preauth found.now.let_in) }
{
    match found.preauth {
        Some(preauth) => {
            put(out, store)?;
            put(out, b" greets\n")?;
            put_login(out, preauth, found.let_in, user)?;
            Ok(())
        }
        None => Ok(()),
    }
}

fn special_use_line(special_use: bool) -> &'static [u8]
    ensures { result.now ≡ lines.special_use_line special_use }
{
    if special_use {
        b"it tells special uses (RFC 6154): folders have the roles that it tells\n"
    } else {
        b"it does not tell special uses (RFC 6154): but for INBOX a folder has a role only where LIST tells it unasked\n"
    }
}

fn put_connected(alloc: Global, out: &mut Vec<u8>, found: &Finding) -> Result<(), AllocError>
    ensures { OnOk result (out.new.items ≡ out.old.items ++ lines.connected_lines found.now.special_use found.now.folders.items) }
{
    put(out, HAS_BOTH.as_bytes())?;
    put(out, special_use_line(found.special_use))?;
    put_folders(alloc, out, found.folders.as_slice())?;
    Ok(())
}

// What is told of the mail, where a client connected.
fn put_read(alloc: Global, out: &mut Vec<u8>, found: &Finding) -> Result<(), AllocError>
    ensures { OnOk result (out.new.items ≡ out.old.items ++ lines.read_lines found.now.special_use found.now.folders.items found.now.cause) }
{
    if is_connected(&found.cause) {
        put_connected(alloc, out, found)
    } else {
        Ok(())
    }
}

fn put_stop(
    alloc: Global,
    out: &mut Vec<u8>,
    store: &[u8],
    user: &[u8],
    found: &Finding,
    cause: &StoreCause,
) -> Result<(), AllocError>
    ensures { OnOk result (out.new.items ≡ out.old.items ++ lines.end_piece store.now user.now found.now.folders.items found.now.again cause.now) }
{
    if !found.again {
        return put_cause(alloc, out, store, user, cause);
    }
    put_round(alloc, out, found.folders.as_slice())?;
    put(out, FIRST_ALONE.as_bytes())?;
    put_again(alloc, out, store, user, cause)?;
    Ok(())
}

fn put_end(
    alloc: Global,
    out: &mut Vec<u8>,
    store: &[u8],
    user: &[u8],
    found: &Finding,
) -> Result<(), AllocError>
    ensures { OnOk result (out.new.items ≡ out.old.items ++ lines.last_lines store.now user.now found.now.folders.items found.now.cause found.now.again found.now.beginning) }
{
    match &found.cause {
        None => {
            put_round(alloc, out, found.folders.as_slice())?;
            put(out, USABLE.as_bytes())?;
            Ok(())
        }
        Some(cause) => {
            put_stop(alloc, out, store, user, found, cause)?;
            put_beginning(alloc, out, &found.beginning)?;
            put(out, b"\n")?;
            Ok(())
        }
    }
}

/// What is told of a store, which is named so, and of its user.
pub fn report(
    alloc: Global,
    store: &[u8],
    user: &[u8],
    found: &Finding,
) -> Result<Vec<u8>, AllocError>
    ensures { IfOk result (λ text. text.items ≡ lines.report_of store.now user.now found.now.preauth found.now.let_in found.now.special_use found.now.folders.items found.now.cause found.now.again found.now.beginning) }
{
    let store = shown(alloc, store)?;
    let user = shown(alloc, user)?;
    let mut out = Vec::new(alloc);
    put_greeting(&mut out, store.as_slice(), user.as_slice(), found)?;
    put_read(alloc, &mut out, found)?;
    put_end(alloc, &mut out, store.as_slice(), user.as_slice(), found)?;
    Ok(out)
}
