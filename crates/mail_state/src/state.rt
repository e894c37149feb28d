// The state: the rows that are served, and the last touches of each type.
ghost use Rattle.std.specs.Prelude.{◌≡◌, ◌≢◌, ◌==◌, ◌<◌, ◌^◌, ℕ, All, IfOk, MatchOption, Some, length};
ghost use Rattle.std.specs.List.{list_any};
ghost use Rattle.std.specs.List.Sorted.{IsStrictlySortedBy};
ghost use Rattle.std.specs.Map.{keys_of};
ghost use Rattle.std.specs.Option.{option_copied};
ghost use Rattle.std.specs.Ordering.{nat_cmp};
ghost use Rattle.change_list.specs.Advance.{row_at};
ghost use Rattle.mail_rows.specs.LookUps.{IsOfMark, NoneHasMark};
ghost use Rattle.told_mail.specs.Mail.{IsNextMail};
ghost use Rattle.mail_state.specs.History.{MailHistory};
ghost use Rattle.mail_state.specs.State.{IsStateOf, first_state};
ghost use Rattle.mail_state.specs.Following.{FollowsMail, IfSpent, RefusesSpent, SpendsPlace, StepsTo};
ghost use Rattle.mail_state.specs.LookUps.{numbers_in, touches_kept};

use crate::lists::TypeLists;
use crate::rows::TypeRows;
use crate::{Advance, StateError};
use change_list::ChangeList;
use mail_maps::{EmailRow, MailboxRow};
use std::alloc::{AllocError, Global};
use std::collections::BTreeMap;
use std::marker::Model;
use told_mail::Mirror;

/// A type that is served.
#[derive(Clone, Copy, Debug, PartialEq, Eq)]
pub enum MailType {
    /// Mailboxes, which are folders.
    Mailbox,
    /// Emails, which are visible messages.
    Email,
    /// Threads, which are conversations of Emails.
    Thread,
}

fn has_key<R>(rows: &BTreeMap<u64, R>, number: u64) -> bool
    ensures { result ≡ list_any (λ n. n == number) (keys_of rows.now.entries) }
{
    rows.contains_key(&number)
}

/// Does nothing, and shows that each key has at most 64 bits, since the last one has.
fn keys_are_small<R>(rows: &BTreeMap<u64, R>)
    ensures { All (λ n. n < 2 ^ 64) (keys_of rows.now.entries) }
{
    match rows.last_key_value() {
        Some((number, _)) => {
            // (its type says how many bits it has)
            let _last = *number;
        }
        None => {}
    }
}

fn count_keys<R>(rows: &BTreeMap<u64, R>) -> usize
    ensures count { result ≡ length (keys_of rows.now.entries) }
    ensures ascending { IsStrictlySortedBy nat_cmp (keys_of rows.now.entries) }
    ensures small { All (λ n. n < 2 ^ 64) (keys_of rows.now.entries) }
{
    keys_are_small(rows);
    rows.len()
}

/// The rows that are served, and what changed in them.
#[derive(Drop)]
pub struct MailState {
    alloc: Global,
    epoch: u64,
    rows: TypeRows,
    lists: TypeLists,
}

impl Model for MailState {
    ghost use Rattle.std.specs.Prelude.{◌+◌, ◌≤◌};
    ghost use Rattle.mail_state.specs.State.{ServedState};

    ghost Value = { ServedState };

    ghost view = { λ a. record { epoch = a.epoch; rows = a.rows; lists = a.lists } };

    ghost invariant = { λ a. a.rows.numbered.next ≤ a.lists.email.place + 1 };
}

impl MailState {
    /// A state without mail. The epoch is the secret of `ThreadBook::new` as well: clients know it, and who writes the mail doesn't.
    pub fn new(alloc: Global, epoch: u64) -> Result<MailState, AllocError>
        ensures { IfOk result (λ s. s ≡ first_state epoch) }
    {
        let lists = TypeLists::new(alloc)?;
        Ok(MailState {
            alloc,
            epoch,
            rows: TypeRows::new(alloc, epoch),
            lists,
        })
    }

    /// Goes on to the mail that a store told since. The headers of new messages alone are read. No list is touched where one
    /// has no room, and a refusal ends the value.
    pub fn apply(self, mirror: &Mirror) -> Result<(MailState, Advance), StateError>
        ensures steps { IfOk result (λ r. StepsTo self mirror.now.mail r.0) }
        ensures follows { IfOk result (λ r. (h : MailHistory) → IsStateOf h self → IsNextMail h.mail mirror.now.mail → FollowsMail h mirror.now.mail r.0 r.1) }
        ensures spent { RefusesSpent self mirror.now.mail result }
        ensures spends { (h : MailHistory) → IsStateOf h self → IsNextMail h.mail mirror.now.mail → IfSpent result (SpendsPlace h mirror.now.mail) }
    {
        let MailState {
            alloc,
            epoch,
            rows,
            lists,
        } = self;
        // (the place is the length of a history, and small)
        let _place = lists.email.place();
        let (rows, touches) = rows.follow(alloc, mirror)?;
        let lists = lists.noting(&touches)?;
        let moved = touches.moved();
        let state = MailState {
            alloc,
            epoch,
            rows,
            lists,
        };
        Ok((state, moved))
    }

    /// The epoch that the state was made with.
    pub fn epoch(&self) -> u64
        ensures { result ≡ self.now.epoch }
    {
        self.epoch
    }

    /// The Emails by number.
    pub fn emails(&self) -> &BTreeMap<u64, EmailRow>
        ensures { result.now.entries ≡ self.now.rows.numbered.rows }
    {
        self.rows.emails.rows()
    }

    /// The Email of a number.
    pub fn email(&self, number: u64) -> Option<&EmailRow>
        ensures { option_copied result ≡ row_at self.now.rows.numbered.rows number }
    {
        self.rows.emails.email(number)
    }

    /// The Email of a mark.
    pub fn email_by_mark(&self, mark: u64) -> Option<&EmailRow>
        ensures { MatchOption result (NoneHasMark self.now.rows.numbered.rows mark) (λ row. IsOfMark self.now.rows.numbered.rows mark row.now) }
    {
        self.rows.emails.email_by_mark(mark)
    }

    /// The Mailboxes by number.
    pub fn mailboxes(&self) -> &BTreeMap<u64, MailboxRow>
        ensures { result.now.entries ≡ self.now.rows.mailboxes }
    {
        &self.rows.mailboxes
    }

    /// The Mailbox of a number, which is its folder's.
    pub fn mailbox(&self, number: u64) -> Option<&MailboxRow>
        ensures { option_copied result ≡ row_at self.now.rows.mailboxes number }
    {
        self.rows.mailboxes.get(&number)
    }

    /// The numbers of the Emails of a Thread, by when they were received, then number.
    pub fn thread(&self, number: u64) -> Option<&[u64]>
        ensures { option_copied result ≡ row_at self.now.rows.threads number }
    {
        match self.rows.threads.get(&number) {
            Some(thread) => Some(thread.emails()),
            None => None,
        }
    }

    /// The numbers of a type, ascending.
    pub fn numbers(&self, kind: MailType) -> Result<Vec<u64>, AllocError>
        ensures numbers { IfOk result (λ v. v.items ≡ numbers_in self.now kind) }
        ensures ascending { IfOk result (λ v. IsStrictlySortedBy nat_cmp v.items) }
    {
        self.rows.emails.are_in_order();
        // (lengths say that keys ascend)
        let _mailboxes = self.rows.mailboxes.len();
        let _threads = self.rows.threads.len();
        match kind {
            MailType::Mailbox => self.rows.mailboxes.keys().copied().collect(self.alloc),
            MailType::Email => self.rows.emails.rows().keys().copied().collect(self.alloc),
            MailType::Thread => self.rows.threads.keys().copied().collect(self.alloc),
        }
    }

    /// Whether a type has the number.
    pub fn has(&self, kind: MailType, number: u64) -> bool
        ensures { result ≡ list_any (λ n. n == number) (numbers_in self.now kind) }
    {
        match kind {
            MailType::Mailbox => has_key(&self.rows.mailboxes, number),
            MailType::Email => has_key(self.rows.emails.rows(), number),
            MailType::Thread => has_key(&self.rows.threads, number),
        }
    }

    /// How many numbers a type has. They ascend, and each has at most 64 bits.
    pub fn count(&self, kind: MailType) -> usize
        ensures count { result ≡ length (numbers_in self.now kind) }
        ensures ascending { IsStrictlySortedBy nat_cmp (numbers_in self.now kind) }
        ensures small { All (λ n. n < 2 ^ 64) (numbers_in self.now kind) }
    {
        match kind {
            MailType::Mailbox => count_keys(&self.rows.mailboxes),
            MailType::Email => count_keys(self.rows.emails.rows()),
            MailType::Thread => count_keys(&self.rows.threads),
        }
    }

    /// The last touches of a type.
    pub fn list(&self, kind: MailType) -> &ChangeList
        ensures { result.now ≡ touches_kept self.now kind }
    {
        match kind {
            MailType::Mailbox => &self.lists.mailbox,
            MailType::Email => &self.lists.email,
            MailType::Thread => &self.lists.thread,
        }
    }
}
