//! What the definition of the small store's answers promises, as clauses of functions that do nothing.
ghost use Rattle.std.specs.Prelude.{◌≡◌, ℕ, ◌^◌, ◌<◌, ℤ, true, List, length};
ghost use Rattle.imap_types.specs.declared.command.Command.{Command};
ghost use Rattle.honest_store.specs.StoreMail.{StoreMail};
ghost use Rattle.honest_store.specs.WellFormed.{nearest_date};
ghost use Rattle.honest_store.specs.Others.{NoStep};
ghost use Rattle.honest_store.specs.Sessions.{StoreAnswer, StoreSession};
ghost use Rattle.honest_store.specs.Honest.{Honest};
ghost use Rattle.small_answers.specs.Changes.{first_mail};
ghost use Rattle.small_answers.specs.Answers.{AnswersCommand};
ghost use Rattle.small_answers.specs.SmallMail.{HasStorableParts, IsOwnersStep, IsSmallMail};
ghost use Rattle.small_answers.specs.OwnersCalls.{CallGives, delivered, message_at_place, message_expunged, seen_toggled, shifted};

/// What the small store answers is what an honest store may answer where nobody else does anything, and its mail stays its own.
pub fn small_answers_are_honest()
    ensures answers { (before after : StoreSession) (c : Command) (a : StoreAnswer)
        → IsSmallMail before.mail → HasStorableParts c → AnswersCommand before c a after → Honest NoStep before c a after × IsSmallMail after.mail }
    ensures first { IsSmallMail first_mail }
{}

/// The answer and what follows it are determined by the mail, the folder that is selected and the command.
pub fn one_store_answer()
    ensures { (before after other_after : StoreSession) (c : Command) (a b : StoreAnswer)
        → AnswersCommand before c a after → AnswersCommand before c b other_after → (a ≡ b) × (after ≡ other_after) }
{}

/// What the owner's calls do is what others may do to an honest store's mail, and leaves the small store's mail.
pub fn owners_calls_are_steps()
    ensures deliver { (before after : StoreMail) (name octets : List ℕ) (date : ℤ) → IsSmallMail before → nearest_date date ≡ date → length octets < 2 ^ 63
        → CallGives before (delivered before name octets date) true after → IsOwnersStep before after }
    ensures toggle_seen { (before after : StoreMail) (at : ℕ) → IsSmallMail before
        → CallGives before (seen_toggled before (message_at_place before at)) true after → IsOwnersStep before after }
    ensures shift { (before after : StoreMail) (at : ℕ) → IsSmallMail before
        → CallGives before (shifted before (message_at_place before at)) true after → IsOwnersStep before after }
    ensures expunge { (before after : StoreMail) (at : ℕ) → IsSmallMail before
        → CallGives before (message_expunged before (message_at_place before at)) true after → IsOwnersStep before after }
{}
