//! Which Emails remain, by one pass that reads them.
ghost use Rattle.std.specs.Prelude.{◌≡◌, ℕ, ◌++◌, ◌==◌, ◌||◌, not, IfOk, OnOk, Some};
ghost use Rattle.std.specs.BTreeMap.{get};
ghost use Rattle.std.specs.Ordering.{nat_cmp};
ghost use Rattle.mail_rows.specs.Remaining as remaining;
ghost use Rattle.mail_rows.specs.reading.RowPass as passes;

use crate::shown::shown;
use change_list::{Entry, Kind};
use mail_maps::EmailRow;
use mail_maps::keywords::keywords_of;
use mail_maps::same_keywords::are_keywords_of;
use octets::Names;
use std::alloc::{AllocError, Global};
use std::collections::BTreeMap;
use told_folder::Message;
use told_mail::Mirror;

/// An Email that goes.
#[derive(Clone, Copy, Debug)]
pub struct RemovedEmail {
    /// Its number.
    pub number: u64,
    /// The mark of its message.
    pub mark: u64,
}

/// What the row of a number takes from its message.
#[derive(Drop)]
pub struct Update {
    /// The row's number.
    pub number: u64,
    /// The number of the message's folder.
    pub folder: u64,
    /// Its UID there.
    pub uid: u32,
    /// The keywords of its flags.
    pub keywords: Names,
}

/// What one pass over the rows finds, by ascending number.
#[derive(Drop)]
pub struct Found {
    /// The Emails that go.
    pub gone: Vec<RemovedEmail>,
    /// The touches of those that are changed.
    pub changed: Vec<Entry>,
    /// The updates of rows that aren't as their messages are.
    pub updates: Vec<Update>,
}

/// What becomes of the rows.
#[derive(Drop)]
pub struct RemainingRows {
    /// The rows that remain, as their messages are now.
    pub rows: BTreeMap<u64, EmailRow>,
    /// The Emails that go, by ascending number.
    pub gone: Vec<RemovedEmail>,
    /// The touches of those that are changed, by ascending number.
    pub changed: Vec<Entry>,
}

/// Whether what is served of the row changes: its folder or its keywords. A UID isn't served.
fn is_moved(row: &EmailRow, folder: u64, has_same: bool) -> bool
    ensures { result ≡ (not (row.now.folder == folder) || not has_same) }
{
    row.folder != folder || !has_same
}

/// Whether the row itself changes.
fn is_other(is_moved: bool, uid: u32, now: u32) -> bool
    ensures { result ≡ (is_moved || not (uid == now)) }
{
    is_moved || uid != now
}

/// Notes a change where there is one.
fn note_change(changed: &mut Vec<Entry>, number: u64, is_moved: bool) -> Result<(), AllocError>
    ensures { OnOk result (changed.new.items ≡ changed.old.items ++ passes.change_where is_moved number) }
{
    if is_moved {
        changed.push(Entry {
            id: number,
            kind: Kind::Changed,
            counts_only: false,
        })?;
    }
    Ok(())
}

/// Notes an update where there is one.
fn note_update(
    alloc: Global,
    updates: &mut Vec<Update>,
    number: u64,
    is_other: bool,
    folder: u64,
    message: &Message,
) -> Result<(), AllocError>
    ensures { OnOk result (updates.new.items
        ≡ updates.old.items ++ passes.update_where is_other number (record { folder = folder; message = message.now })) }
{
    if is_other {
        let keywords = keywords_of(alloc, &message.flags)?;
        updates.push(Update {
            number,
            folder,
            uid: message.uid,
            keywords,
        })?;
    }
    Ok(())
}

/// Notes what becomes of a row whose message is shown.
fn note_shown(
    alloc: Global,
    found: &mut Found,
    number: u64,
    row: &EmailRow,
    folder: u64,
    message: &Message,
) -> Result<(), AllocError>
    ensures { OnOk result (passes.pass_of found.new
        ≡ passes.gather_where (Some (record { folder = folder; message = message.now })) (passes.pass_of found.old) (number, row.now)) }
{
    let has_same = are_keywords_of(alloc, &row.keywords, &message.flags)?;
    let moved = is_moved(row, folder, has_same);
    note_change(&mut found.changed, number, moved)?;
    let other = is_other(moved, row.uid, message.uid);
    note_update(alloc, &mut found.updates, number, other, folder, message)?;
    Ok(())
}

/// Notes what becomes of a row.
fn note_row(
    alloc: Global,
    mirror: &Mirror,
    found: &mut Found,
    number: u64,
    row: &EmailRow,
) -> Result<(), AllocError>
    ensures { OnOk result (passes.pass_of found.new ≡ passes.gather_one mirror.now.mail.folders (passes.pass_of found.old) (number, row.now)) }
{
    match shown(mirror, row.mark) {
        Some((folder, message)) => note_shown(alloc, found, number, row, folder, message),
        None => {
            found.gone.push(RemovedEmail {
                number,
                mark: row.mark,
            })?;
            Ok(())
        }
    }
}

/// One pass over the rows. It takes memory for what goes or changes, and for rows with many flags.
fn found_in(
    alloc: Global,
    mirror: &Mirror,
    rows: &BTreeMap<u64, EmailRow>,
) -> Result<Found, AllocError>
    ensures gone { IfOk result (λ f. f.gone.items ≡ passes.gone_in mirror.now.mail.folders rows.now.entries) }
    ensures changed { IfOk result (λ f. f.changed.items ≡ passes.changes_in mirror.now.mail.folders rows.now.entries) }
    ensures updates { IfOk result (λ f. f.updates.items ≡ passes.updates_in mirror.now.mail.folders rows.now.entries) }
{
    let mut found = Found {
        gone: Vec::new(alloc),
        changed: Vec::new(alloc),
        updates: Vec::new(alloc),
    };
    for (number, row) in rows {
        note_row(alloc, mirror, &mut found, *number, row)?;
    }
    Ok(found)
}

/// Takes the rows of these out. It takes no memory.
fn forget_rows(rows: &mut BTreeMap<u64, EmailRow>, gone: &[RemovedEmail])
    ensures { (q : ℕ) → get nat_cmp rows.new q ≡ passes.row_left gone.now q (get nat_cmp rows.old q) }
{
    for email in gone {
        rows.remove(&email.number);
    }
}

/// Updates the row of a number. It takes no memory.
fn update_row(rows: &mut BTreeMap<u64, EmailRow>, update: Update)
    ensures { (q : ℕ) → get nat_cmp rows.new q ≡ passes.row_if update q (get nat_cmp rows.old q) }
{
    let Update {
        number,
        folder,
        uid,
        keywords,
    } = update;
    if let Some(row) = rows.get_mut(&number) {
        row.folder = folder;
        row.uid = uid;
        row.keywords = keywords;
    }
}

/// Updates these rows. It takes no memory.
fn update_rows(rows: &mut BTreeMap<u64, EmailRow>, updates: Vec<Update>)
    ensures { (q : ℕ) → get nat_cmp rows.new q ≡ passes.row_updated updates.items q (get nat_cmp rows.old q) }
{
    for update in updates {
        update_row(rows, update);
    }
}

/// The rows whose marks are shown, as their messages are now. No header is read, and none copied: beside the pass it
/// costs a look-up for each row that goes or changes.
pub fn remaining_rows_of(
    alloc: Global,
    mirror: &Mirror,
    mut rows: BTreeMap<u64, EmailRow>,
) -> Result<RemainingRows, AllocError>
    ensures rows { IfOk result (λ s. s.rows.entries ≡ remaining.remaining mirror.now.mail.folders rows.entries) }
    ensures gone { IfOk result (λ s. s.gone.items ≡ passes.gone_in mirror.now.mail.folders rows.entries) }
    ensures changed { IfOk result (λ s. s.changed.items ≡ passes.changes_in mirror.now.mail.folders rows.entries) }
{
    let Found {
        gone,
        changed,
        updates,
    } = found_in(alloc, mirror, &rows)?;
    // (the lengths say that keys ascend, before and after)
    let _before = rows.len();
    forget_rows(&mut rows, gone.as_slice());
    update_rows(&mut rows, updates);
    let _after = rows.len();
    Ok(RemainingRows {
        rows,
        gone,
        changed,
    })
}
