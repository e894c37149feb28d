// Threads: which Emails each has.
ghost use Rattle.std.specs.Prelude.{◌≡◌, ℕ, [], ◌∷◌, IfOk, OnOk, map, cond, nat_eq, Some, None};
ghost use Rattle.std.specs.Option.{option_map};
ghost use Rattle.std.specs.BTreeMap.{get};
ghost use Rattle.std.specs.BTreeSet.{contains, insert_key};
ghost use Rattle.std.specs.Ordering.{nat_cmp};
ghost use Rattle.mail_maps.specs.Threads.{thread_at, pair_cmp};
ghost use Rattle.mail_maps.specs.reading.Groups.{keys_listed, keys_at, grouped, pairs_among};

use crate::EmailRow;
use std::alloc::{AllocError, Global};
use std::collections::{BTreeMap, BTreeSet};
use std::marker::Model;

/// The numbers of the Emails of a Thread, by when they were received, then number (RFC 8621 section 3).
#[derive(Debug, Drop)]
pub struct Thread {
    emails: Vec<u64>,
}

impl Model for Thread {
    ghost use Rattle.std.specs.Prelude.{List, ℕ};

    ghost Value = { List ℕ };

    ghost view = { λ a. a.emails.items };
}

impl Thread {
    /// The numbers of its Emails, by the time at which they were received and then by number.
    pub fn emails(&self) -> &[u64]
        ensures { result.now ≡ self.now }
    {
        self.emails.as_slice()
    }

    fn of_group(alloc: Global, group: &BTreeSet<(i64, u64)>) -> Result<Thread, AllocError>
        ensures { IfOk result (λ t. t ≡ map (λ p. p.1) group.now.keys) }
    {
        let emails = seconds(alloc, group)?;
        Ok(Thread { emails })
    }
}

fn seconds(alloc: Global, group: &BTreeSet<(i64, u64)>) -> Result<Vec<u64>, AllocError>
    ensures { IfOk result (λ v. v.items ≡ map (λ p. p.1) group.now.keys) }
{
    let mut numbers = Vec::new(alloc);
    for pair in group {
        numbers.push(pair.1)?;
    }
    Ok(numbers)
}

fn take_group(
    alloc: Global,
    groups: &mut BTreeMap<u64, BTreeSet<(i64, u64)>>,
    thread: u64,
) -> BTreeSet<(i64, u64)>
    ensures keys { result.keys ≡ keys_listed (get nat_cmp groups.old thread) }
    ensures others { (t : ℕ) → get nat_cmp groups.new t ≡ cond (nat_eq thread t) None (get nat_cmp groups.old t) }
{
    match groups.remove(&thread) {
        Some(group) => group,
        None => BTreeSet::new(alloc),
    }
}

fn put_pair(
    alloc: Global,
    groups: &mut BTreeMap<u64, BTreeSet<(i64, u64)>>,
    thread: u64,
    pair: (i64, u64),
) -> Result<(), AllocError>
    ensures groups { OnOk result ((t : ℕ) → keys_at (get nat_cmp groups.new t)
        ≡ cond (nat_eq thread t) (Some (insert_key pair_cmp (keys_listed (get nat_cmp groups.old thread)) pair)) (keys_at (get nat_cmp groups.old t))) }
{
    let mut group = take_group(alloc, groups, thread);
    group.insert(pair)?;
    groups.insert(thread, group)?;
    Ok(())
}

/// Puts an Email into the group of its Thread, where that is one of these.
fn put_among(
    alloc: Global,
    groups: &mut BTreeMap<u64, BTreeSet<(i64, u64)>>,
    among: &BTreeSet<u64>,
    number: u64,
    row: &EmailRow,
) -> Result<(), AllocError>
    ensures { OnOk result ((t : ℕ) → keys_at (get nat_cmp groups.new t)
        ≡ grouped (keys_at (get nat_cmp groups.old t)) (pairs_among among.now ((number, row.now) ∷ []) t)) }
{
    if among.contains(&row.thread) {
        put_pair(alloc, groups, row.thread, (row.received, number))?;
    }
    Ok(())
}

/// The Emails of these Threads, by their Threads.
fn group_among(
    alloc: Global,
    emails: &BTreeMap<u64, EmailRow>,
    among: &BTreeSet<u64>,
) -> Result<BTreeMap<u64, BTreeSet<(i64, u64)>>, AllocError>
    ensures { IfOk result (λ groups. (t : ℕ) → keys_at (get nat_cmp groups t) ≡ grouped None (pairs_among among.now emails.now.entries t)) }
{
    let mut groups = BTreeMap::new(alloc);
    for (number, row) in emails {
        put_among(alloc, &mut groups, among, *number, row)?;
    }
    Ok(groups)
}

/// A Thread for each group.
fn threads_in(
    alloc: Global,
    groups: &BTreeMap<u64, BTreeSet<(i64, u64)>>,
) -> Result<BTreeMap<u64, Thread>, AllocError>
    ensures { IfOk result (λ threads. (t : ℕ) → get nat_cmp threads t ≡ option_map (map (λ p. p.1)) (keys_at (get nat_cmp groups.now t))) }
{
    let mut threads = BTreeMap::new(alloc);
    // (the length says that its keys ascend)
    let _count = groups.len();
    for (number, group) in groups {
        let thread = Thread::of_group(alloc, group)?;
        threads.insert(*number, thread)?;
    }
    Ok(threads)
}

/// Those of these Threads that have Emails. It costs one pass over the rows, and memory for these Threads alone.
pub fn threads_among(
    alloc: Global,
    emails: &BTreeMap<u64, EmailRow>,
    among: &BTreeSet<u64>,
) -> Result<BTreeMap<u64, Thread>, AllocError>
    ensures { IfOk result (λ threads. (t : ℕ) → get nat_cmp threads t
        ≡ cond (contains nat_cmp among.now t) (thread_at emails.now.entries t) None) }
{
    let groups = group_among(alloc, emails, among)?;
    let threads = threads_in(alloc, &groups)?;
    Ok(threads)
}
