// Names that a LIST tells and that no folder has.
ghost use Rattle.std.specs.Prelude.{◌≡◌, ◌++◌, IfOk, OnOk, not, filter, is_some};
ghost use Rattle.told_mail.specs.Lists as lists;
ghost use Rattle.told_mail.specs.reading.Lines as reading;
ghost use Rattle.told_mail.specs.reading.Names.{names_in, place_in, AreApart};

use octets::Bytes;
use std::alloc::{AllocError, Global};
use std::collections::BTreeMap;

/// Whether it is the name of INBOX, as folders have it.
pub fn is_inbox(name: &[u8]) -> bool
    ensures { result ≡ lists.is_inbox name.now }
{
    name == b"INBOX".as_slice()
}

/// Whether the name is INBOX, or whether it isn't.
fn is_of(inbox: bool, name: &[u8]) -> bool
    ensures { result ≡ reading.is_of inbox name.now }
{
    if inbox {
        is_inbox(name)
    } else {
        !is_inbox(name)
    }
}

/// Whether the name has no number, and is INBOX or isn't.
fn is_picked(numbers: &BTreeMap<Vec<u8>, u64>, inbox: bool, name: &[u8]) -> bool
    ensures { result ≡ reading.is_picked numbers.now inbox name.now }
{
    is_of(inbox, name) && !numbers.contains_key(name)
}

/// Adds the names that have no number, and of these INBOX alone or all but INBOX.
fn add_names(
    alloc: Global,
    names: &mut Vec<Bytes>,
    lines: &BTreeMap<Vec<u8>, usize>,
    numbers: &BTreeMap<Vec<u8>, u64>,
    inbox: bool,
) -> Result<(), AllocError>
    ensures names { OnOk result (names.new.items ≡ names.old.items ++ filter (reading.is_picked numbers.now inbox) (names_in lines.now)) }
    ensures apart { OnOk result (AreApart (names_in lines.now)) }
{
    for name in lines.keys() {
        if is_picked(numbers, inbox, name.as_slice()) {
            names.push(Bytes::copy_of(alloc, name.as_slice())?)?;
        }
    }
    Ok(())
}

/// The names that are told and have no number, INBOX first, then by octets.
pub fn new_names(
    alloc: Global,
    numbers: &BTreeMap<Vec<u8>, u64>,
    lines: &BTreeMap<Vec<u8>, usize>,
) -> Result<Vec<Bytes>, AllocError>
    ensures names { IfOk result (λ names. names.items ≡ lists.inbox_first (filter (λ name. not (is_some (place_in numbers.now name))) (names_in lines.now))) }
    ensures apart { IfOk result (λ names. AreApart names.items) }
{
    let mut names = Vec::new(alloc);
    add_names(alloc, &mut names, lines, numbers, true)?;
    add_names(alloc, &mut names, lines, numbers, false)?;
    Ok(names)
}
