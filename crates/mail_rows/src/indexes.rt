//! The indexes beside the rows, as Emails go.
ghost use Rattle.std.specs.Prelude.{◌≡◌, ℕ};
ghost use Rattle.std.specs.BTreeMap.{get};
ghost use Rattle.std.specs.Ordering.{nat_cmp};
ghost use Rattle.mail_rows.specs.reading.Indexes as indexes;

use crate::remaining::RemovedEmail;
use std::collections::BTreeMap;
use thread_rule::ThreadBook;

/// Takes the marks of these out of the index. It takes no memory.
pub fn forget_marks(marks: &mut BTreeMap<u64, u64>, gone: &[RemovedEmail])
    ensures { (q : ℕ) → get nat_cmp marks.new q ≡ indexes.number_left gone.now q (get nat_cmp marks.old q) }
{
    for email in gone {
        marks.remove(&email.mark);
    }
}

/// Takes these out of the book. It takes no memory.
pub fn forget_members(book: &mut ThreadBook, gone: &[RemovedEmail])
    ensures { book.new ≡ indexes.members_left gone.now book.old }
{
    for email in gone {
        book.forget(email.number);
    }
}
