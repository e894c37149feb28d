// What is known of a life beside what its plan knows.
ghost use Rattle.std.specs.Prelude.{◌≡◌, IfOk, OnErr, OnOk, false};
ghost use Rattle.store_causes.specs.Causes.{loses_link};
ghost use Rattle.store_causes.specs.reading.Noting as noting;

use crate::answers::{asked_by, cause_after, let_in_after, selected_after, unanswered};
use crate::cause::StoreCause;
use imap_client::{Due, LinkEnd};
use octets::Bytes;
use std::alloc::{AllocError, Global};
use told_mail::Exchange;

/// What is known of a life, from which the cause comes where not all of a plan is done.
#[derive(Drop)]
pub struct Notes {
    /// Whether the user is let in: by PREAUTH, or by a LOGIN that was answered OK.
    pub let_in: bool,
    /// The selected folder.
    pub selected: Option<Bytes>,
    /// The cause, should no more be asked; none before the first exchange.
    pub cause: Option<StoreCause>,
}

impl Notes {
    /// Nothing is asked yet, and the greeting was PREAUTH or not.
    pub fn new(preauth: bool) -> Notes
        ensures { result ≡ noting.unasked preauth }
    {
        Notes {
            let_in: preauth,
            selected: None,
            cause: None,
        }
    }

    /// An exchange is completed.
    pub fn note(&mut self, alloc: Global, x: &Exchange) -> Result<(), AllocError>
        ensures noted { OnOk result (self.new ≡ noting.noted self.old x.now) }
        ensures kept { OnErr result (self.new ≡ self.old) }
    {
        let cause = cause_after(alloc, self.let_in, x)?;
        let selected = selected_after(&self.selected, x)?;
        self.let_in = let_in_after(self.let_in, x);
        self.selected = selected;
        self.cause = Some(cause);
        Ok(())
    }

    /// The cause where this is due and the life ended so. It is taken out of the notes.
    pub fn take_cause(
        &mut self,
        alloc: Global,
        due: &Due,
        end: LinkEnd,
    ) -> Result<Option<StoreCause>, AllocError>
        ensures cause { IfOk result (λ cause. cause ≡ noting.cause_at self.old due.now end) }
        ensures let_in { self.new.let_in ≡ self.old.let_in }
        ensures lost { loses_link self.old.cause ≡ false → loses_link self.new.cause ≡ false }
    {
        match due {
            Due::Send(command) => {
                let asked = asked_by(alloc, command, &self.selected)?;
                Ok(unanswered(asked, end))
            }
            _ => Ok(self.cause.take()),
        }
    }
}
