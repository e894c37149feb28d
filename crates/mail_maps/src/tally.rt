// Counting the Emails and Threads of each folder, in one pass.
ghost use Rattle.std.specs.Prelude.{◌≡◌, ◌+◌, ◌^◌, ◌<◌, ◌&&◌, ◌||◌, ℕ, IfOk, OnOk, nat_eq, cond, count_by, Some};
ghost use Rattle.std.specs.BTreeMap.{get};
ghost use Rattle.std.specs.BTreeSet.{contains};
ghost use Rattle.std.specs.List.{list_any};
ghost use Rattle.std.specs.Option.{option_map};
ghost use Rattle.std.specs.Ordering.{nat_cmp};
ghost use Rattle.mail_maps.specs.Keywords.{is_unread};
ghost use Rattle.mail_maps.specs.Mailboxes.{counts_in, counts_at};
ghost use Rattle.mail_maps.specs.Rows.{in_thread, unread};
ghost use Rattle.mail_maps.specs.reading.Tallies.{tallied_at, none_tallied, tally_one, tally_after, counts_told};

use crate::EmailRow;
use crate::keywords::is_unread;
use std::alloc::{AllocError, Global};
use std::collections::{BTreeMap, BTreeSet};
use std::marker::Model;

/// The counts of a folder so far.
#[derive(Drop)]
struct Tally {
    total: u64,
    unread: u64,
    threads: BTreeSet<u64>,
}

impl Model for Tally {
    ghost use Rattle.std.specs.Prelude.{◌≤◌};
    ghost use Rattle.mail_maps.specs.reading.Tallies.{Tallied};

    ghost Value = { Tallied };

    ghost view = { λ a. record { total = a.total; unread = a.unread; threads = a.threads.keys } };

    ghost invariant = { λ a. a.unread ≤ a.total };
}

/// What one pass over the Emails finds.
#[derive(Drop)]
struct Tallies {
    /// Each folder that has Emails.
    folders: BTreeMap<u64, Tally>,
    /// The Threads that have an unread Email.
    unread: BTreeSet<u64>,
}

/// The four counts of a Mailbox.
#[derive(Clone, Copy)]
pub struct FolderCounts {
    /// The Emails in it.
    pub total_emails: u64,
    /// Those of them that have neither `$seen` nor `$draft`.
    pub unread_emails: u64,
    /// Threads with an Email in it.
    pub total_threads: u64,
    /// Those of these Threads that have an unread Email, in whatever Mailbox.
    pub unread_threads: u64,
}

/// How many of the Threads have an unread Email.
fn count_unread(threads: &BTreeSet<u64>, unread: &BTreeSet<u64>) -> usize
    ensures { result ≡ count_by (contains nat_cmp unread.now) threads.now.keys }
{
    threads
        .iter()
        .filter(|thread| unread.contains(*thread))
        .count()
}

impl Tally {
    fn new(alloc: Global) -> Tally
        ensures { result ≡ none_tallied }
    {
        Tally {
            total: 0,
            unread: 0,
            threads: BTreeSet::new(alloc),
        }
    }

    /// One Email more.
    fn count(&mut self, row: &EmailRow) -> Result<(), AllocError>
        requires { self.old.total + 1 < 2 ^ 64 }
        ensures { OnOk result (self.new ≡ tally_one self.old row.now) }
    {
        self.threads.insert(row.thread)?;
        self.total += 1;
        if is_unread(&row.keywords) {
            self.unread += 1;
        }
        Ok(())
    }

    /// The counts, where these are the Threads that have an unread Email.
    fn counts(&self, unread: &BTreeSet<u64>) -> FolderCounts
        ensures { result ≡ counts_told unread.now self.now }
    {
        let unread_threads = count_unread(&self.threads, unread);
        FolderCounts {
            total_emails: self.total,
            unread_emails: self.unread,
            total_threads: self.threads.len() as u64,
            unread_threads: unread_threads as u64,
        }
    }
}

fn note_unread(threads: &mut BTreeSet<u64>, row: &EmailRow) -> Result<(), AllocError>
    ensures { OnOk result ((t : ℕ) → contains nat_cmp threads.new t
        ≡ (contains nat_cmp threads.old t || (nat_eq row.now.thread t && is_unread row.now.keywords))) }
{
    if is_unread(&row.keywords) {
        threads.insert(row.thread)?;
    }
    Ok(())
}

/// The first Email of a folder.
fn count_first(
    alloc: Global,
    tallies: &mut BTreeMap<u64, Tally>,
    row: &EmailRow,
) -> Result<(), AllocError>
    ensures { OnOk result ((f : ℕ) → get nat_cmp tallies.new f
        ≡ cond (nat_eq row.now.folder f) (Some (tally_one none_tallied row.now)) (get nat_cmp tallies.old f)) }
{
    let mut tally = Tally::new(alloc);
    tally.count(row)?;
    tallies.insert(row.folder, tally)?;
    Ok(())
}

/// One Email more in its folder.
fn count_row(
    alloc: Global,
    tallies: &mut BTreeMap<u64, Tally>,
    row: &EmailRow,
) -> Result<(), AllocError>
    requires { (tallied_at (get nat_cmp tallies.old row.now.folder)).total + 1 < 2 ^ 64 }
    ensures { OnOk result ((f : ℕ) → let was = tallied_at (get nat_cmp tallies.old f) in
        tallied_at (get nat_cmp tallies.new f) ≡ cond (nat_eq row.now.folder f) (tally_one was row.now) was) }
{
    match tallies.get_mut(&row.folder) {
        Some(tally) => {
            tally.count(row)?;
            Ok(())
        }
        None => count_first(alloc, tallies, row),
    }
}

/// One pass over the Emails.
fn tally_emails(alloc: Global, emails: &BTreeMap<u64, EmailRow>) -> Result<Tallies, AllocError>
    ensures folders { IfOk result (λ all. (f : ℕ) → tallied_at (get nat_cmp all.folders f) ≡ tally_after f none_tallied emails.now.entries) }
    ensures unread { IfOk result (λ all. (t : ℕ) → contains nat_cmp all.unread t ≡ list_any (λ d. in_thread t d && unread d) emails.now.entries) }
{
    let mut folders = BTreeMap::new(alloc);
    let mut unread = BTreeSet::new(alloc);
    // (the length says that its keys ascend)
    let _count = emails.len();
    for (_number, row) in emails {
        count_row(alloc, &mut folders, row)?;
        note_unread(&mut unread, row)?;
    }
    Ok(Tallies { folders, unread })
}

/// The counts of these folders, where those are the Threads that have an unread Email.
fn told_counts(
    alloc: Global,
    folders: &BTreeMap<u64, Tally>,
    unread: &BTreeSet<u64>,
) -> Result<BTreeMap<u64, FolderCounts>, AllocError>
    ensures { IfOk result (λ counts. (f : ℕ) → get nat_cmp counts f ≡ option_map (counts_told unread.now) (get nat_cmp folders.now f)) }
{
    let mut counts = BTreeMap::new(alloc);
    // (the length says that its keys ascend)
    let _count = folders.len();
    for (folder, tally) in folders {
        counts.insert(*folder, tally.counts(unread))?;
    }
    Ok(counts)
}

/// The counts of each folder that has Emails. One pass over the Emails puts the Thread of each into its folder's set, and that
/// of an unread one into another set, in which each Thread of a folder is then looked up.
pub fn count_emails(
    alloc: Global,
    emails: &BTreeMap<u64, EmailRow>,
) -> Result<BTreeMap<u64, FolderCounts>, AllocError>
    ensures { IfOk result (λ counts. (f : ℕ) → counts_at (get nat_cmp counts f) ≡ counts_in emails.now.entries f) }
{
    let all = tally_emails(alloc, emails)?;
    let counts = told_counts(alloc, &all.folders, &all.unread)?;
    Ok(counts)
}

/// The counts of a folder, which are 0 where it has no Emails.
pub fn counts_of(counts: &BTreeMap<u64, FolderCounts>, folder: u64) -> FolderCounts
    ensures { result ≡ counts_at (get nat_cmp counts.now folder) }
{
    match counts.get(&folder) {
        Some(counts) => *counts,
        None => FolderCounts {
            total_emails: 0,
            unread_emails: 0,
            total_threads: 0,
            unread_threads: 0,
        },
    }
}
