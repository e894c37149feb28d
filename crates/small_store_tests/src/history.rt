// A history of INBOX, and clients that come back to it (RFC 7162 section 3.2.5).
use crate::copies::Copy;
use crate::owner::deliver;
use small_store::StoreMachine;
use std::alloc::{AllocError, Global};
use store_sessions::take_turn;
use test_rows::first_number;
use told_dialogues::exchange_of;

/// How many messages the store has.
fn count_messages(store: &StoreMachine) -> usize {
    let mut count: usize = 0;
    for folder in store.folders() {
        count = count.saturating_add(folder.messages().len());
    }
    count
}

/// Makes the change of this number; the messages that are changed stand at places that are spread over all.
fn change(store: &mut StoreMachine, number: usize) -> Result<bool, AllocError> {
    let place = number.saturating_mul(7);
    let at = place.checked_rem(count_messages(store)).unwrap_or(0);
    match number % 7 {
        0 | 2 => deliver(store, b"INBOX", b"a"),
        4 => deliver(store, b"Archive", b"b"),
        1 | 5 => store.toggle_seen(at),
        3 => store.shift(at),
        _ => store.expunge(at),
    }
}

/// What INBOX holds.
fn inbox(alloc: Global, store: &StoreMachine) -> Result<Option<Copy>, AllocError> {
    match store.folders().first() {
        Some(folder) => Ok(Some(Copy::new(alloc, folder)?)),
        None => Ok(None),
    }
}

/// Makes so many changes, and adds a copy of INBOX after each that was made.
fn make_changes(
    alloc: Global,
    store: &mut StoreMachine,
    count: usize,
    copies: &mut Vec<Copy>,
) -> Result<(), AllocError> {
    for number in 0..count {
        if change(store, number)?
            && let Some(copy) = inbox(alloc, store)?
        {
            copies.push(copy)?;
        }
    }
    Ok(())
}

/// Brings the copy up to date by what a SELECT since its mod-sequence tells.
fn bring_up(alloc: Global, store: &mut StoreMachine, copy: &mut Copy) -> Result<(), AllocError> {
    let text = format!(in alloc; "a SELECT \"INBOX\" (QRESYNC (1 {}))\r\n", copy.modseq)?;
    store.is_tellable();
    let turn = take_turn(alloc, store, text.as_bytes())?;
    if let Some(told) = exchange_of(alloc, "select INBOX", b"INBOX", turn.octets())? {
        for response in told.responses.as_slice() {
            copy.take(response)?;
        }
    }
    Ok(())
}

/// How many of the copies are INBOX as it is.
fn count_fresh(copies: &[Copy], fresh: &Copy) -> usize {
    copies.iter().filter(|copy| copy.is_as(fresh)).count()
}

/// Adds how many changes of so many were made, how many copies from after each were INBOX as it is at the end, and how many are when
/// they were brought up to date.
pub(crate) fn put_history(
    alloc: Global,
    store: &mut StoreMachine,
    text: &str,
    out: &mut String,
) -> Result<(), AllocError> {
    let (count, _) = first_number(text);
    let mut copies = Vec::new(alloc);
    make_changes(
        alloc,
        store,
        usize::try_from(count).unwrap_or(0),
        &mut copies,
    )?;
    let Some(fresh) = inbox(alloc, store)? else {
        return out.push_str("no INBOX\n");
    };
    let before = count_fresh(&copies, &fresh);
    for copy in copies.iter_mut() {
        bring_up(alloc, store, copy)?;
    }
    let after = count_fresh(&copies, &fresh);
    let made = copies.len();
    writeln!(
        out,
        "{made} changes; {before} copies are INBOX, {after} when brought up to date"
    )
}
