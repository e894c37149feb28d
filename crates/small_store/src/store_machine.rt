// The store as its users have it: whatever is done to it, its mail can be told.
ghost use Rattle.std.specs.Prelude.{◌≡◌, ◌⊎◌, ◌<◌, ◌^◌, length, IfOk, IsTrue, OnErr};
ghost use Rattle.honest_store.specs.Honest.{Honest};
ghost use Rattle.honest_store.specs.Others.{NoStep};
ghost use Rattle.honest_store.specs.Sessions.{StoreAnswer};
ghost use Rattle.honest_store.specs.WellFormed.{nearest_date};
ghost use Rattle.small_answers.specs.Answers as answers;
ghost use Rattle.small_answers.specs.Answers.{AnswersCommand};
ghost use Rattle.small_answers.specs.Changes.{first_session};
ghost use Rattle.small_answers.specs.OwnersCalls as calls;
ghost use Rattle.small_answers.specs.SmallMail.{IsOwnersStep};
ghost use Rattle.small_responses.specs.AnswerTexts.{text_of_answer};
ghost use Rattle.small_responses.specs.Tellable.{IsTellableCommand, IsTellableMail};

use crate::answer::Answer;
use crate::machine::StoredMachine;
use imap_types::Command;
use small_mail::StoredFolder;
use std::alloc::{AllocError, Global};
use std::marker::Model;
use store_sessions::CommandStore;

/// A store in memory, of one user, and one session over it.
#[derive(Drop)]
pub struct StoreMachine {
    machine: StoredMachine,
}

impl Model for StoreMachine {
    ghost use Rattle.honest_store.specs.Sessions.{StoreSession};
    ghost use Rattle.small_responses.specs.Tellable.{IsTellableMail};

    ghost Value = { StoreSession };

    ghost view = { λ s. s.machine };

    ghost invariant = { λ s. IsTellableMail s.machine.mail };
}

impl StoreMachine {
    /// INBOX and Archive, both empty, with the UIDVALIDITIES 1 and 2, and no folder selected.
    pub fn new(alloc: Global) -> Result<StoreMachine, AllocError>
        ensures { IfOk result (λ s. s ≡ first_session) }
    {
        let machine = StoredMachine::new(alloc)?;
        Ok(StoreMachine { machine })
    }

    /// Its mail is one that can be told in octets. The function is a theorem: its contract states it.
    pub fn is_tellable(&self)
        ensures { IsTellableMail self.now.mail }
    {
        let _ = &self.machine;
    }

    /// Its folders.
    pub fn folders(&self) -> &[StoredFolder]
        ensures { result.now ≡ self.now.mail.folders }
    {
        self.machine.mail.folders()
    }

    /// What the command is answered. Where memory is wanting nothing changes.
    pub fn respond(&mut self, command: &Command) -> Result<Answer, AllocError>
        requires { IsTellableCommand command.now }
        ensures ok { IfOk result (λ a. AnswersCommand self.old command.now a self.new) }
        ensures honest { IfOk result (λ a. Honest NoStep self.old command.now a self.new) }
        ensures err { OnErr result (self.new ≡ self.old) }
    {
        self.machine.respond(command)
    }

    /// Delivers a message to the folder. False where no such folder is there, or a number would pass its end. The date is in
    /// seconds since 1970-01-01T00:00:00Z, within the years 0 to 9999.
    pub fn deliver(&mut self, folder: &[u8], message: &[u8], date: i64) -> Result<bool, AllocError>
        requires date { nearest_date date ≡ date }
        requires fits { length message.now < 2 ^ 63 }
        ensures ok { IfOk result (λ done. calls.CallGives self.old.mail (calls.delivered self.old.mail folder.now message.now date) done self.new.mail) }
        ensures step { IfOk result (λ done. IsTrue done → IsOwnersStep self.old.mail self.new.mail) }
        ensures selected { self.new.selected ≡ self.old.selected }
        ensures err { OnErr result (self.new ≡ self.old) }
    {
        self.machine.deliver(folder, message, date)
    }

    /// Sets `\Seen` of the message at the place among all, from 0 on, or takes it. False where none is there, or a number would
    /// pass its end.
    pub fn toggle_seen(&mut self, at: usize) -> Result<bool, AllocError>
        ensures ok { IfOk result (λ done. calls.CallGives self.old.mail (calls.seen_toggled self.old.mail (calls.message_at_place self.old.mail at)) done self.new.mail) }
        ensures step { IfOk result (λ done. IsTrue done → IsOwnersStep self.old.mail self.new.mail) }
        ensures selected { self.new.selected ≡ self.old.selected }
        ensures err { OnErr result (self.new ≡ self.old) }
    {
        self.machine.toggle_seen(at)
    }

    /// Moves the message at the place to the other of INBOX and Archive. False as in `toggle_seen`, and where that folder isn't
    /// there.
    pub fn shift(&mut self, at: usize) -> Result<bool, AllocError>
        ensures ok { IfOk result (λ done. calls.CallGives self.old.mail (calls.shifted self.old.mail (calls.message_at_place self.old.mail at)) done self.new.mail) }
        ensures step { IfOk result (λ done. IsTrue done → IsOwnersStep self.old.mail self.new.mail) }
        ensures selected { self.new.selected ≡ self.old.selected }
        ensures err { OnErr result (self.new ≡ self.old) }
    {
        self.machine.shift(at)
    }

    /// Ends the message at the place. False as in `toggle_seen`.
    pub fn expunge(&mut self, at: usize) -> Result<bool, AllocError>
        ensures ok { IfOk result (λ done. calls.CallGives self.old.mail (calls.message_expunged self.old.mail (calls.message_at_place self.old.mail at)) done self.new.mail) }
        ensures step { IfOk result (λ done. IsTrue done → IsOwnersStep self.old.mail self.new.mail) }
        ensures selected { self.new.selected ≡ self.old.selected }
        ensures err { OnErr result (self.new ≡ self.old) }
    {
        self.machine.expunge(at)
    }
}

impl CommandStore for StoreMachine {
    ghost session = { λ s. s };

    fn begin_session(&mut self) {
        self.machine.begin_session();
    }

    fn answer(&mut self, tag: &[u8], command: &Command) -> Result<Vec<u8>, AllocError>
        requires mail { IsTellableMail self.old.mail }
        requires command { IsTellableCommand command.now }
        ensures ok { IfOk result (λ octets. (a : StoreAnswer) × AnswersCommand self.old command.now a self.new × (octets.items ≡ text_of_answer tag.now a)) }
        ensures honest { IfOk result (λ octets. (a : StoreAnswer) × Honest NoStep self.old command.now a self.new × (octets.items ≡ text_of_answer tag.now a)) }
        ensures err { OnErr result ((self.new ≡ self.old) ⊎ ((a : StoreAnswer) × AnswersCommand self.old command.now a self.new)) }
        ensures mail { IsTellableMail self.new.mail }
    {
        self.machine.answer(tag, command)
    }
}
