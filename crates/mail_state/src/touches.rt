// The touches of a step, of each type.
ghost use Rattle.std.specs.Prelude.{◌≡◌, ◌==◌, not, length};
ghost use Rattle.mail_state.specs.reading.Noting.{moved_by};

use change_list::Entry;
use std::marker::Model;

/// The types whose place rose.
#[derive(Clone, Copy, Debug, PartialEq, Eq)]
pub struct Advance {
    /// Whether that of Mailboxes did.
    pub mailbox: bool,
    /// Whether that of Emails did.
    pub email: bool,
    /// Whether that of Threads did.
    pub thread: bool,
}

/// The touches of each type, in order.
#[derive(Drop)]
pub struct StepTouches {
    /// Of Mailboxes.
    pub mailbox: Vec<Entry>,
    /// Of Emails.
    pub email: Vec<Entry>,
    /// Of Threads.
    pub thread: Vec<Entry>,
}

impl Model for StepTouches {
    ghost use Rattle.mail_state.specs.Following.{Touches};

    ghost Value = { Touches };

    ghost view = { λ t. record { mailbox = t.mailbox.items; email = t.email.items; thread = t.thread.items } };
}

impl StepTouches {
    /// The types that have touches.
    pub fn moved(&self) -> Advance
        ensures { result ≡ moved_by self.now }
    {
        Advance {
            mailbox: !self.mailbox.is_empty(),
            email: !self.email.is_empty(),
            thread: !self.thread.is_empty(),
        }
    }
}
