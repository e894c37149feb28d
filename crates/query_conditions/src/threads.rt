// What the Emails of Threads have.
ghost use Rattle.std.specs.Prelude.{◌↔◌, ◌≡◌, ◌==◌, ◌&&◌, ◌||◌, ℕ, List, IfOk, IsTrue, OnOk, map, not};
ghost use Rattle.std.specs.BTreeSet.{contains};
ghost use Rattle.std.specs.List.{list_any};
ghost use Rattle.std.specs.Ordering.{nat_cmp};
ghost use Rattle.mail_maps.specs.Serve.{Email, email_of};
ghost use Rattle.query_conditions.specs.ThreadKeywords as threads;
ghost use Rattle.query_conditions.specs.ThreadKeywords.{AreThreadsOf, ThreadMatches};
ghost use Rattle.query_conditions.specs.Entries.{email_at, emails_at};

use crate::email_condition::Quantity;
use crate::entry::EmailEntry;
use mail_maps::keywords::has_name;
use std::alloc::{AllocError, Global};
use std::collections::BTreeSet;

/// The Threads in which an Email has a keyword, and those in which an Email lacks it.
#[derive(Debug, Drop)]
pub struct KeywordThreads {
    having: BTreeSet<u64>,
    lacking: BTreeSet<u64>,
}

/// Puts a Thread into a set, where it belongs there.
fn note(set: &mut BTreeSet<u64>, thread: u64, belongs: bool) -> Result<(), AllocError>
    ensures { OnOk result ((t : ℕ) → contains nat_cmp set.new t ≡ (contains nat_cmp set.old t || ((thread == t) && belongs))) }
{
    if belongs {
        set.insert(thread)?;
    }
    Ok(())
}

/// The Threads in which an Email has the keyword.
fn threads_having(
    alloc: Global,
    emails: &[EmailEntry<'_>],
    keyword: &[u8],
) -> Result<BTreeSet<u64>, AllocError>
    ensures { IfOk result (λ set. (t : ℕ) → contains nat_cmp set t ≡ list_any (λ e. threads.has_in_thread keyword.now t (email_at e)) emails.now) }
{
    let mut set = BTreeSet::new(alloc);
    for email in emails {
        note(
            &mut set,
            email.row.thread,
            has_name(keyword, &email.row.keywords),
        )?;
    }
    Ok(set)
}

/// The Threads in which an Email lacks the keyword.
fn threads_lacking(
    alloc: Global,
    emails: &[EmailEntry<'_>],
    keyword: &[u8],
) -> Result<BTreeSet<u64>, AllocError>
    ensures { IfOk result (λ set. (t : ℕ) → contains nat_cmp set t ≡ list_any (λ e. threads.lacks_in_thread keyword.now t (email_at e)) emails.now) }
{
    let mut set = BTreeSet::new(alloc);
    for email in emails {
        note(
            &mut set,
            email.row.thread,
            !has_name(keyword, &email.row.keywords),
        )?;
    }
    Ok(set)
}

/// Which Threads of these Emails have the keyword in an Email, and which lack it in one: found once a query, so that a condition
/// takes one look-up an Email, however many Emails a Thread has.
pub fn keyword_threads(
    alloc: Global,
    emails: &[EmailEntry<'_>],
    keyword: &[u8],
) -> Result<KeywordThreads, AllocError>
    ensures { IfOk result (λ t. AreThreadsOf t (emails_at emails.now) keyword.now) }
{
    let having = threads_having(alloc, emails, keyword)?;
    let lacking = threads_lacking(alloc, emails, keyword)?;
    Ok(KeywordThreads { having, lacking })
}

/// Whether so many Emails of a Thread have the keyword (RFC 8621 section 4.4.1). It takes no memory.
pub fn thread_matches(threads: &KeywordThreads, quantity: Quantity, thread: u64) -> bool
    ensures { (emails : List (ℕ × Email)) (keyword : List ℕ) → AreThreadsOf threads.now emails keyword
        → IsTrue result ↔ ThreadMatches emails quantity keyword thread }
{
    match quantity {
        Quantity::All => !threads.lacking.contains(&thread),
        Quantity::Some => threads.having.contains(&thread),
        Quantity::None => !threads.having.contains(&thread),
    }
}
