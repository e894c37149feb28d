//! Emails by number, with what finds them by mark and by what they name.
ghost use Rattle.std.specs.Prelude.{◌≡◌, ◌≢◌, ℕ, ◌+◌, ◌^◌, ◌<◌, ◌≤◌, [], length, IfOk, MatchOption, Some};
ghost use Rattle.std.specs.Option.{option_copied};
ghost use Rattle.std.specs.List.Sorted.{IsStrictlySortedBy};
ghost use Rattle.std.specs.Map.{keys_of};
ghost use Rattle.std.specs.Ordering.{nat_cmp};
ghost use Rattle.change_list.specs.Advance.{row_at};
ghost use Rattle.mail_rows.specs.NumberedRows.{none_numbered, AreBelow};
ghost use Rattle.mail_rows.specs.Joining as joining;
ghost use Rattle.mail_rows.specs.Taking as taking;
ghost use Rattle.mail_rows.specs.Taking.{TakesMail};
ghost use Rattle.mail_rows.specs.RowTouches.{email_touches};
ghost use Rattle.mail_rows.specs.LookUps.{IsOfMark, NoneHasMark};
ghost use Rattle.mail_rows.specs.reading.Indexes as indexes;
ghost use Rattle.mail_rows.specs.reading.RowPass as passes;
ghost use Rattle.mail_maps.specs.declared.row.EmailRow.{EmailRow};

use crate::arrivals::{Arrival, arrivals_in};
use crate::indexes::{forget_marks, forget_members};
use crate::remaining::{RemainingRows, RemovedEmail, remaining_rows_of};
use crate::touches::touches_of;
use change_list::Entry;
use mail_maps::keywords::keywords_of;
use mail_maps::{EmailRow, Envelope, read_envelope};
use std::alloc::{AllocError, Global};
use std::collections::BTreeMap;
use std::marker::Model;
use thread_rule::{Named, ThreadBook};
use told_mail::Mirror;

/// The Emails that are there, and the number that the next one gets.
#[derive(Drop)]
pub struct Emails {
    rows: BTreeMap<u64, EmailRow>,
    /// The number of each mark.
    marks: BTreeMap<u64, u64>,
    book: ThreadBook,
    next: u64,
}

impl Model for Emails {
    ghost use Rattle.mail_rows.specs.NumberedRows.{NumberedRows};
    ghost use Rattle.mail_rows.specs.reading.Indexes.{AreIndexes};

    ghost Value = { NumberedRows };

    ghost view = { λ a. record { rows = a.rows.entries; next = a.next } };

    ghost invariant = { λ a. AreIndexes a.rows.entries a.next a.marks a.book };
}

/// The Emails that remain, with what became of the others.
#[derive(Drop)]
struct Remaining {
    emails: Emails,
    gone: Vec<RemovedEmail>,
    changed: Vec<Entry>,
}

/// What the envelope of an Email of this number says to Threads.
fn named_by(email: u64, envelope: &Envelope) -> Result<Named, AllocError>
    ensures { IfOk result (λ n. n ≡ record { email = email; ids = envelope.now.ids; base = envelope.now.base }) }
{
    let ids = envelope.ids.share()?;
    let base = envelope.base.share()?;
    Ok(Named { email, ids, base })
}

/// The row of a new Email.
fn row_of(
    alloc: Global,
    number: u64,
    thread: u64,
    arrival: Arrival,
    envelope: Envelope,
) -> Result<EmailRow, AllocError>
    ensures { IfOk result (λ row. row ≡ taking.row_for number thread arrival envelope) }
{
    let Arrival { folder, message } = arrival;
    let keywords = keywords_of(alloc, &message.flags)?;
    Ok(EmailRow {
        number,
        mark: message.mark,
        folder,
        uid: message.uid,
        keywords,
        received: message.date,
        size: message.size,
        thread,
        header: message.header,
        envelope,
    })
}

impl Emails {
    /// No Emails. It takes no memory. The secret is that of `ThreadBook::new`.
    pub fn new(alloc: Global, secret: u64) -> Emails
        ensures { result ≡ none_numbered }
    {
        Emails {
            rows: BTreeMap::new(alloc),
            marks: BTreeMap::new(alloc),
            book: ThreadBook::new(alloc, secret),
            next: 1,
        }
    }

    /// The rows by number.
    pub fn rows(&self) -> &BTreeMap<u64, EmailRow>
        ensures { result.now.entries ≡ self.now.rows }
    {
        &self.rows
    }

    /// The number that the next new Email gets.
    pub fn next(&self) -> u64
        ensures { result ≡ self.now.next }
    {
        self.next
    }

    /// Does nothing, and shows that the rows are in order, and below the next number.
    pub fn are_in_order(&self)
        ensures sorted { IsStrictlySortedBy nat_cmp (keys_of self.now.rows) }
        ensures below { AreBelow self.now.next self.now.rows }
    {
        // (their length says that keys ascend; the type says the rest)
        let _count = self.rows.len();
    }

    /// The Email of a number.
    pub fn email(&self, number: u64) -> Option<&EmailRow>
        ensures { option_copied result ≡ row_at self.now.rows number }
    {
        self.rows.get(&number)
    }

    /// The Email of a mark.
    pub fn email_by_mark(&self, mark: u64) -> Option<&EmailRow>
        ensures { MatchOption result (NoneHasMark self.now.rows mark) (λ row. IsOfMark self.now.rows mark row.now) }
    {
        self.are_in_order();
        match self.marks.get(&mark) {
            Some(number) => self.rows.get(number),
            None => None,
        }
    }

    /// The visible messages that have no row, by folder number and then UID.
    fn arrivals(&self, alloc: Global, mirror: &Mirror) -> Result<Vec<Arrival>, AllocError>
        ensures { IfOk result (λ v. v.items ≡ taking.newcomers mirror.now.mail.folders self.now.rows) }
    {
        let arrivals = arrivals_in(alloc, mirror.folders(), &self.marks)?;
        Ok(arrivals)
    }

    /// The Emails that remain, with the touches of those that go or are changed.
    fn remain(self, alloc: Global, mirror: &Mirror) -> Result<Remaining, AllocError>
        ensures emails { IfOk result (λ r. r.emails ≡ taking.left self mirror.now.mail.folders) }
        ensures gone { IfOk result (λ r. r.gone.items ≡ passes.gone_in mirror.now.mail.folders self.rows) }
        ensures changed { IfOk result (λ r. r.changed.items ≡ passes.changes_in mirror.now.mail.folders self.rows) }
    {
        self.are_in_order();
        let Emails {
            rows,
            mut marks,
            mut book,
            next,
        } = self;
        let RemainingRows {
            rows,
            gone,
            changed,
        } = remaining_rows_of(alloc, mirror, rows)?;
        forget_marks(&mut marks, gone.as_slice());
        forget_members(&mut book, gone.as_slice());
        let emails = Emails {
            rows,
            marks,
            book,
            next,
        };
        Ok(Remaining {
            emails,
            gone,
            changed,
        })
    }

    /// With a new Email of the next number. Its header is read once.
    fn with_arrival(self, alloc: Global, arrival: Arrival) -> Result<Emails, AllocError>
        requires { self.next + 1 < 2 ^ 64 }
        ensures { IfOk result (λ e. indexes.AddsRow self arrival e) }
    {
        self.are_in_order();
        let Emails {
            mut rows,
            mut marks,
            mut book,
            next,
        } = self;
        let envelope = read_envelope(alloc, arrival.message.header.as_slice())?;
        let named = named_by(next, &envelope)?;
        let thread = book.join(named)?;
        let row = row_of(alloc, next, thread, arrival, envelope)?;
        marks.insert(row.mark, next)?;
        rows.insert(next, row)?;
        Ok(Emails {
            rows,
            marks,
            book,
            next: next + 1,
        })
    }

    /// With new Emails, in order.
    fn with_arrivals(self, alloc: Global, arrivals: Vec<Arrival>) -> Result<Emails, AllocError>
        requires { self.next + length arrivals.items < 2 ^ 64 }
        ensures { IfOk result (λ e. indexes.AddsRows self arrivals.items e) }
    {
        let mut emails = self;
        for arrival in arrivals {
            emails = emails.with_arrival(alloc, arrival)?;
        }
        Ok(emails)
    }

    /// The Emails as the mail has them, with the touches that lead to them.
    pub fn follow(self, alloc: Global, mirror: &Mirror) -> Result<(Emails, Vec<Entry>), AllocError>
        requires { self.next ≤ 2 ^ 53 }
        ensures takes { IfOk result (λ r. TakesMail self mirror.now.mail.folders r.0) }
        ensures touches { IfOk result (λ r. r.1.items ≡ email_touches self.rows r.0.rows) }
        ensures counted { IfOk result (λ r. r.0.next ≤ self.next + length r.1.items) }
    {
        self.are_in_order();
        let first = self.next();
        let Remaining {
            emails,
            gone,
            changed,
        } = self.remain(alloc, mirror)?;
        let arrivals = emails.arrivals(alloc, mirror)?;
        let emails = emails.with_arrivals(alloc, arrivals)?;
        let next = emails.next();
        let touches = touches_of(alloc, gone.as_slice(), changed.as_slice(), first, next)?;
        Ok((emails, touches))
    }
}
