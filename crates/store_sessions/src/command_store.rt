// A store, as a session sees it.
ghost use Rattle.std.specs.Prelude.{◌≡◌, ◌⊎◌, None, IfOk, OnErr};
ghost use Rattle.honest_store.specs.Sessions.{StoreAnswer, StoreSession};
ghost use Rattle.small_answers.specs.Answers.{AnswersCommand, unselected};
ghost use Rattle.small_responses.specs.AnswerTexts.{text_of_answer};
ghost use Rattle.small_responses.specs.Tellable.{IsTellableCommand, IsTellableMail};

use imap_types::Command;
use std::alloc::AllocError;

/// A store that answers commands, in one session after another.
pub trait CommandStore {
    /// Its mail, and the folder that the session has selected.
    ghost session: { Self → StoreSession };

    /// A session begins: no folder is selected.
    fn begin_session(&mut self)
        ensures { Self.session self.new ≡ unselected (Self.session self.old) };

    /// The octets of the answer to the command, under its tag. Where memory is wanting the answer is lost, and the command has
    /// done all that it does or nothing.
    fn answer(&mut self, tag: &[u8], command: &Command) -> Result<Vec<u8>, AllocError>
        requires mail { IsTellableMail (Self.session self.old).mail }
        requires command { IsTellableCommand command.now }
        ensures ok { IfOk result (λ octets. (a : StoreAnswer)
            × AnswersCommand (Self.session self.old) command.now a (Self.session self.new) × (octets.items ≡ text_of_answer tag.now a)) }
        ensures err { OnErr result ((Self.session self.new ≡ Self.session self.old)
            ⊎ ((a : StoreAnswer) × AnswersCommand (Self.session self.old) command.now a (Self.session self.new))) }
        ensures mail { IsTellableMail (Self.session self.new).mail };
}
