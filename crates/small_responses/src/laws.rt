//! What the small store answers may be sent, as clauses of functions that do nothing.
ghost use Rattle.std.specs.Prelude.{◌≡◌, ℕ, ◌^◌, ◌<◌, ℤ, true, List, All, length};
ghost use Rattle.imap_types.specs.declared.command.Command.{Command};
ghost use Rattle.honest_store.specs.StoreMail.{StoreMail};
ghost use Rattle.honest_store.specs.Sessions.{StoreAnswer, StoreSession};
ghost use Rattle.honest_store.specs.WellFormed.{nearest_date};
ghost use Rattle.store_responses.specs.Sendable.{IsSendable, IsSendableTag};
ghost use Rattle.small_answers.specs.Changes.{first_mail};
ghost use Rattle.small_answers.specs.Answers.{AnswersCommand};
ghost use Rattle.small_answers.specs.OwnersCalls.{CallGives, delivered, message_at_place, message_expunged, seen_toggled, shifted};
ghost use Rattle.small_answers.specs.SmallMail.{IsSmallMail};
ghost use Rattle.small_responses.specs.SendableMail.{AreOctets, HasSendableParts, IsSendableMail, sent_responses};
ghost use Rattle.small_responses.specs.Tellable.{IsTellableCommand, IsTellableMail};

/// Each response of the small store's answer has a spelling.
pub fn answers_may_be_sent()
    ensures { (before after : StoreSession) (c : Command) (a : StoreAnswer) (tag : List ℕ) → IsSmallMail before.mail → IsSendableMail before.mail
        → HasSendableParts c → AnswersCommand before c a after → IsSendableTag tag → All IsSendable (sent_responses tag a) }
{}

/// The mail stays so that it can be told, whatever is answered, and whatever the owner does.
pub fn mail_may_be_told()
    ensures first { IsSendableMail first_mail }
    ensures answers { (before after : StoreSession) (c : Command) (a : StoreAnswer) → IsSendableMail before.mail
        → HasSendableParts c → AnswersCommand before c a after → IsSendableMail after.mail }
    ensures deliver { (before after : StoreMail) (name octets : List ℕ) (date : ℤ) → IsSendableMail before → AreOctets octets
        → CallGives before (delivered before name octets date) true after → IsSendableMail after }
    ensures toggle_seen { (before after : StoreMail) (at : ℕ) → IsSmallMail before → IsSendableMail before
        → CallGives before (seen_toggled before (message_at_place before at)) true after → IsSendableMail after }
    ensures shift { (before after : StoreMail) (at : ℕ) → IsSmallMail before → IsSendableMail before
        → CallGives before (shifted before (message_at_place before at)) true after → IsSendableMail after }
    ensures expunge { (before after : StoreMail) (at : ℕ) → IsSmallMail before → IsSendableMail before
        → CallGives before (message_expunged before (message_at_place before at)) true after → IsSendableMail after }
{}

/// Who answers, and keeps its mail and its commands so, needs to know no more of either: all that is sent has a spelling.
pub fn mail_stays_tellable()
    ensures first { IsTellableMail first_mail }
    ensures answers { (before after : StoreSession) (c : Command) (a : StoreAnswer) → IsTellableMail before.mail → IsTellableCommand c
        → AnswersCommand before c a after → IsTellableMail after.mail × ((tag : List ℕ) → IsSendableTag tag → All IsSendable (sent_responses tag a)) }
    ensures deliver { (before after : StoreMail) (name octets : List ℕ) (date : ℤ) → IsTellableMail before → nearest_date date ≡ date → length octets < 2 ^ 63
        → AreOctets octets → CallGives before (delivered before name octets date) true after → IsTellableMail after }
    ensures toggle_seen { (before after : StoreMail) (at : ℕ) → IsTellableMail before
        → CallGives before (seen_toggled before (message_at_place before at)) true after → IsTellableMail after }
    ensures shift { (before after : StoreMail) (at : ℕ) → IsTellableMail before
        → CallGives before (shifted before (message_at_place before at)) true after → IsTellableMail after }
    ensures expunge { (before after : StoreMail) (at : ℕ) → IsTellableMail before
        → CallGives before (message_expunged before (message_at_place before at)) true after → IsTellableMail after }
{}
