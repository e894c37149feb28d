// Mailboxes of which only the counts change.
ghost use Rattle.std.specs.Prelude.{◌≡◌, ℕ, IfOk};
ghost use Rattle.std.specs.BTreeMap.{get};
ghost use Rattle.std.specs.Ordering.{nat_cmp};
ghost use Rattle.change_list.specs.Advance.{advance_entries};
ghost use Rattle.served_maps.specs.Past.{tests_of};
ghost use Rattle.mail_maps.specs.Mailboxes.{counts_in};
ghost use Rattle.mail_maps.specs.Serve as serve;
ghost use Rattle.mail_maps.specs.Serve.{mailbox_of, mailbox_tests};
ghost use Rattle.mail_state.specs.reading.Recounts as recounts;
ghost use Rattle.mail_state.specs.reading.Recounts.{all_recounted, counted, row_recounted, rows_recounted};

use change_list::{Entry, Kind};
use mail_maps::{EmailRow, FolderCounts, MailboxRow, count_emails, counts_of};
use std::alloc::{AllocError, Global};
use std::collections::BTreeMap;

fn has_counts(row: &MailboxRow, counts: FolderCounts) -> bool
    ensures { result ≡ serve.same_counts (serve.counts_of row.now) counts }
{
    row.total_emails == counts.total_emails
        && row.unread_emails == counts.unread_emails
        && row.total_threads == counts.total_threads
        && row.unread_threads == counts.unread_threads
}

/// The touches of the Mailboxes that have other counts than these.
fn touches_of(
    alloc: Global,
    mailboxes: &BTreeMap<u64, MailboxRow>,
    counts: &BTreeMap<u64, FolderCounts>,
) -> Result<Vec<Entry>, AllocError>
    ensures { IfOk result (λ v. v.items ≡ recounts.recounts (counted counts.now) mailboxes.now.entries) }
{
    mailboxes
        .iter()
        .filter(|(number, row)| !has_counts(row, counts_of(counts, **number)))
        .map(|(number, _)| Entry {
            id: *number,
            kind: Kind::Changed,
            counts_only: true,
        })
        .collect(alloc)
}

/// Sets the counts of the Mailbox of a number, where there is one. It takes no memory.
fn set_counts(mailboxes: &mut BTreeMap<u64, MailboxRow>, number: u64, counts: FolderCounts)
    ensures { (q : ℕ) → get nat_cmp mailboxes.new q ≡ row_recounted counts number q (get nat_cmp mailboxes.old q) }
{
    if let Some(row) = mailboxes.get_mut(&number) {
        row.total_emails = counts.total_emails;
        row.unread_emails = counts.unread_emails;
        row.total_threads = counts.total_threads;
        row.unread_threads = counts.unread_threads;
    }
}

/// Sets the counts of the Mailboxes that are touched. It takes no memory.
fn set_touched(
    mailboxes: &mut BTreeMap<u64, MailboxRow>,
    touches: &[Entry],
    counts: &BTreeMap<u64, FolderCounts>,
)
    ensures { (q : ℕ) → get nat_cmp mailboxes.new q ≡ rows_recounted (counted counts.now) touches.now q (get nat_cmp mailboxes.old q) }
{
    for touch in touches {
        set_counts(mailboxes, touch.id, counts_of(counts, touch.id));
    }
}

/// The Mailboxes with the counts of other Emails, and the touches that lead to them. The Emails are counted in one pass, and
/// each Mailbox stays in its place: no name is decoded, and no parent or role is sought.
pub fn recount(
    alloc: Global,
    old: BTreeMap<u64, MailboxRow>,
    emails: &BTreeMap<u64, EmailRow>,
) -> Result<(BTreeMap<u64, MailboxRow>, Vec<Entry>), AllocError>
    ensures mailboxes { IfOk result (λ r. r.0.entries ≡ all_recounted (counts_in emails.now.entries) old.entries) }
    ensures touches { IfOk result (λ r. r.1.items ≡ advance_entries (tests_of mailbox_of mailbox_tests) old.entries r.0.entries) }
{
    let counts = count_emails(alloc, emails)?;
    let touches = touches_of(alloc, &old, &counts)?;
    let mut mailboxes = old;
    // (the lengths say that keys ascend, before and after)
    let _before = mailboxes.len();
    set_touched(&mut mailboxes, touches.as_slice(), &counts);
    let _after = mailboxes.len();
    Ok((mailboxes, touches))
}
