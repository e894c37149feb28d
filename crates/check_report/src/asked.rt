// What was asked, in the standard's words.
ghost use Rattle.std.specs.Prelude.{◌≡◌, ◌++◌, OnOk};
ghost use Rattle.check_report.specs.CauseLines as lines;

use crate::pieces::put;
use crate::shown::shown;
use std::alloc::{AllocError, Global};
use store_causes::Asked;

fn put_named(alloc: Global, out: &mut Vec<u8>, words: &[u8], name: &[u8]) -> Result<(), AllocError>
    ensures { OnOk result (out.new.items ≡ out.old.items ++ lines.named words.now name.now) }
{
    let name = shown(alloc, name)?;
    put(out, words)?;
    put(out, name.as_slice())?;
    Ok(())
}

/// The command, with its folder; LOGIN has no words.
pub fn put_asked(alloc: Global, out: &mut Vec<u8>, asked: &Asked) -> Result<(), AllocError>
    ensures { OnOk result (out.new.items ≡ out.old.items ++ lines.asked_piece asked.now) }
{
    match asked {
        Asked::Greeting => put(out, b"the connection"),
        Asked::Capabilities => put(out, b"CAPABILITY"),
        Asked::Login => put(out, b"LOGIN"),
        Asked::Enabling => put(out, b"ENABLE"),
        Asked::Listing => put(out, b"LIST"),
        Asked::Selecting(name) => put_named(alloc, out, b"SELECT ", name.as_slice()),
        Asked::Fetching(name) => put_named(alloc, out, b"FETCH in ", name.as_slice()),
    }
}
