// The rows of the three types.
ghost use Rattle.std.specs.Prelude.{◌≡◌, ◌≤◌, ◌^◌, IfOk};
ghost use Rattle.mail_state.specs.State.{no_rows};
ghost use Rattle.mail_state.specs.reading.Noting.{StepsRows};

use crate::mailboxes::follow_mailboxes;
use crate::threads::follow_threads;
use crate::touches::StepTouches;
use mail_maps::{MailboxRow, Thread};
use mail_rows::Emails;
use std::alloc::{AllocError, Global};
use std::collections::BTreeMap;
use std::marker::Model;
use told_folder::Folder;
use told_mail::Mirror;

/// The rows of the three types, by number.
#[derive(Drop)]
pub struct TypeRows {
    /// Each Email, with its UID.
    pub emails: Emails,
    /// Each folder as a Mailbox, with its full name.
    pub mailboxes: BTreeMap<u64, MailboxRow>,
    /// Each Thread, with the numbers of its Emails.
    pub threads: BTreeMap<u64, Thread>,
    /// The folders that the Mailboxes were made of, without what no Mailbox shows of them.
    pub folders: Vec<Folder>,
}

impl Model for TypeRows {
    ghost use Rattle.std.specs.Prelude.{◌≡◌};
    ghost use Rattle.mail_maps.specs.Threads.{threads_of};
    ghost use Rattle.mail_state.specs.State.{ServedRows};
    ghost use Rattle.mail_state.specs.reading.Boxes.{boxes_by};

    ghost Value = { ServedRows };

    ghost view = { λ a. record { numbered = a.emails; mailboxes = a.mailboxes.entries; threads = a.threads.entries } };

    ghost invariant = { λ a. (a.threads.entries ≡ threads_of a.emails.rows) × (a.mailboxes.entries ≡ boxes_by a.folders.items a.emails.rows) };
}

impl TypeRows {
    /// No rows. It takes no memory. The secret is that of `ThreadBook::new`.
    pub fn new(alloc: Global, secret: u64) -> TypeRows
        ensures { result ≡ no_rows }
    {
        TypeRows {
            emails: Emails::new(alloc, secret),
            mailboxes: BTreeMap::new(alloc),
            threads: BTreeMap::new(alloc),
            folders: Vec::new(alloc),
        }
    }

    /// The rows of other mail, with the touches that lead to them. A header is read where its message is new, a Thread is
    /// gathered where an Email comes into it or leaves it, Mailboxes are made where a folder is another, and counted where an Email is.
    pub fn follow(
        self,
        alloc: Global,
        mirror: &Mirror,
    ) -> Result<(TypeRows, StepTouches), AllocError>
        requires { self.numbered.next ≤ 2 ^ 53 }
        ensures { IfOk result (λ r. StepsRows self mirror.now.mail r.0 r.1) }
    {
        let TypeRows {
            emails: old_emails,
            mailboxes: old_mailboxes,
            threads: old_threads,
            folders: old_folders,
        } = self;
        old_emails.are_in_order();
        let (emails, email) = old_emails.follow(alloc, mirror)?;
        let now = emails.rows();
        let (mailboxes, mailbox, folders) = follow_mailboxes(
            alloc,
            old_folders,
            old_mailboxes,
            mirror,
            now,
            email.as_slice(),
        )?;
        let (threads, thread) = follow_threads(alloc, old_threads, now, email.as_slice())?;
        let rows = TypeRows {
            emails,
            mailboxes,
            threads,
            folders,
        };
        let touches = StepTouches {
            mailbox,
            email,
            thread,
        };
        Ok((rows, touches))
    }
}
