// Threads as Emails come and go.
ghost use Rattle.std.specs.Prelude.{◌≡◌, ◌||◌, not, ℕ, IfOk, OnOk};
ghost use Rattle.std.specs.BTreeSet.{contains};
ghost use Rattle.std.specs.List.{list_any};
ghost use Rattle.std.specs.Ordering.{nat_cmp};
ghost use Rattle.change_list.specs.Touches.{finds, leaves};
ghost use Rattle.mail_state.specs.reading.ThreadSteps.{StepsThreads, OthersStay, adds_to, has_lost, is_touched, removes};

use change_list::{Entry, Kind};
use mail_maps::{EmailRow, Thread, threads_among};
use served_maps::among::{steps_among, updated};
use std::alloc::{AllocError, Global};
use std::collections::{BTreeMap, BTreeSet};

fn is_removal(touch: &Entry) -> bool
    ensures { result ≡ not (leaves touch.now.kind) }
{
    touch.kind == Kind::Removed
}

fn is_addition(touch: &Entry) -> bool
    ensures { result ≡ not (finds touch.now.kind) }
{
    touch.kind == Kind::Added
}

fn note_removal(gone: &mut BTreeSet<u64>, touch: &Entry) -> Result<(), AllocError>
    ensures { OnOk result ((n : ℕ) → contains nat_cmp gone.new n ≡ (contains nat_cmp gone.old n || removes n touch.now)) }
{
    if is_removal(touch) {
        gone.insert(touch.id)?;
    }
    Ok(())
}

/// The Emails that go by these touches.
fn removals(alloc: Global, touches: &[Entry]) -> Result<BTreeSet<u64>, AllocError>
    ensures { IfOk result (λ gone. (n : ℕ) → contains nat_cmp gone n ≡ list_any (removes n) touches.now) }
{
    let mut gone = BTreeSet::new(alloc);
    for touch in touches {
        note_removal(&mut gone, touch)?;
    }
    Ok(gone)
}

fn note_addition(
    among: &mut BTreeSet<u64>,
    emails: &BTreeMap<u64, EmailRow>,
    touch: &Entry,
) -> Result<(), AllocError>
    ensures { OnOk result ((t : ℕ) → contains nat_cmp among.new t ≡ (contains nat_cmp among.old t || adds_to emails.now.entries t touch.now)) }
{
    if is_addition(touch) {
        match emails.get(&touch.id) {
            Some(row) => {
                among.insert(row.thread)?;
            }
            None => {}
        }
    }
    Ok(())
}

/// The Threads into which Emails come by these touches.
fn additions(
    alloc: Global,
    emails: &BTreeMap<u64, EmailRow>,
    touches: &[Entry],
) -> Result<BTreeSet<u64>, AllocError>
    ensures { IfOk result (λ among. (t : ℕ) → contains nat_cmp among t ≡ list_any (adds_to emails.now.entries t) touches.now) }
{
    let mut among = BTreeSet::new(alloc);
    for touch in touches {
        note_addition(&mut among, emails, touch)?;
    }
    Ok(among)
}

fn has_any(thread: &[u64], gone: &BTreeSet<u64>) -> bool
    ensures { result ≡ list_any (λ n. contains nat_cmp gone.now n) thread.now }
{
    thread.iter().any(|email| gone.contains(email))
}

fn note_loss(
    among: &mut BTreeSet<u64>,
    number: u64,
    thread: &Thread,
    gone: &BTreeSet<u64>,
) -> Result<(), AllocError>
    ensures { OnOk result ((t : ℕ) → contains nat_cmp among.new t ≡ (contains nat_cmp among.old t || has_lost gone.now t (number, thread.now))) }
{
    if has_any(thread.emails(), gone) {
        among.insert(number)?;
    }
    Ok(())
}

/// Adds the Threads that these Emails leave. It costs a pass over the Threads where there are such Emails.
fn note_losses(
    among: &mut BTreeSet<u64>,
    threads: &BTreeMap<u64, Thread>,
    gone: &BTreeSet<u64>,
) -> Result<(), AllocError>
    ensures { OnOk result ((t : ℕ) → contains nat_cmp among.new t ≡ (contains nat_cmp among.old t || list_any (has_lost gone.now t) threads.now.entries)) }
{
    if gone.is_empty() {
        return Ok(());
    }
    for (number, thread) in threads {
        note_loss(among, *number, thread, gone)?;
    }
    Ok(())
}

/// The Threads in which an Email comes or goes.
fn touched_threads(
    alloc: Global,
    threads: &BTreeMap<u64, Thread>,
    emails: &BTreeMap<u64, EmailRow>,
    touches: &[Entry],
) -> Result<BTreeSet<u64>, AllocError>
    ensures { IfOk result (λ among. (t : ℕ) → contains nat_cmp among t ≡ is_touched threads.now.entries emails.now.entries touches.now t) }
{
    let gone = removals(alloc, touches)?;
    let mut among = additions(alloc, emails, touches)?;
    note_losses(&mut among, threads, &gone)?;
    Ok(among)
}

/// The Threads of the Emails, with the touches that lead to them. Threads in which an Email comes or goes are gathered anew, in
/// one pass over the rows, and no others.
pub fn follow_threads(
    alloc: Global,
    old: BTreeMap<u64, Thread>,
    emails: &BTreeMap<u64, EmailRow>,
    touches: &[Entry],
) -> Result<(BTreeMap<u64, Thread>, Vec<Entry>), AllocError>
    ensures { IfOk result (λ r. OthersStay old.entries emails.now.entries touches.now → StepsThreads old.entries emails.now.entries r.0.entries r.1.items) }
{
    // (the length says that its keys ascend)
    let _before = old.len();
    let among = touched_threads(alloc, &old, emails, touches)?;
    if among.is_empty() {
        return Ok((old, Vec::new(alloc)));
    }
    let fresh = threads_among(alloc, emails, &among)?;
    let steps = steps_among(alloc, &old, &fresh, &among)?;
    let threads = updated(old, &among, fresh)?;
    // (the length says that its keys ascend)
    let _count = threads.len();
    Ok((threads, steps))
}
