//! What the definition of an honest answer promises, as clauses of functions that do nothing.
ghost use Rattle.std.specs.Prelude.{◌≡◌, ◌⊎◌, ℕ, All};
ghost use Rattle.imap_types.specs.declared.command.Command.{Command};
ghost use Rattle.imap_types.specs.declared.response.Status.TheVariants as statuses;
ghost use Rattle.honest_store.specs.StoreMail.{StoreMail};
ghost use Rattle.honest_store.specs.WellFormed.{IsStoreMail};
ghost use Rattle.honest_store.specs.Others.{NoStep, OthersStep, StepBesideFolder, StepKeepingNames};
ghost use Rattle.honest_store.specs.Responses.{MayCome};
ghost use Rattle.honest_store.specs.Sessions.{StoreAnswer, StoreSession};
ghost use Rattle.honest_store.specs.Honest.{Honest, IsReading, after_no};
ghost use Rattle.honest_store.specs.Uses.{KeepNamesApart, KeepsUses, StoreGoesOn};

/// An honest store understands each command: the answer is OK or NO.
pub fn commands_are_understood()
    ensures { (before after : StoreSession) (c : Command) (a : StoreAnswer)
        → Honest OthersStep before c a after → (a.status ≡ statuses.Ok) ⊎ (a.status ≡ statuses.No) }
{}

/// Among the responses of an answer none has a tag, none is BYE, BAD, PREAUTH or EXPUNGE.
pub fn responses_may_come()
    ensures { (before after : StoreSession) (c : Command) (a : StoreAnswer)
        → Honest OthersStep before c a after → All MayCome a.responses }
{}

/// Where nobody else does anything, a command that is refused changes nothing.
pub fn refusals_change_nothing()
    ensures { (before after : StoreSession) (c : Command) (a : StoreAnswer)
        → Honest NoStep before c a after → a.status ≡ statuses.No → after ≡ after_no c before }
{}

/// Where nobody else does anything, a command that reads leaves the mail.
pub fn reading_leaves_mail()
    ensures { (before after : StoreSession) (c : Command) (a : StoreAnswer)
        → Honest NoStep before c a after → IsReading c → after.mail ≡ before.mail }
{}

/// After each answer the mail is a store's again.
pub fn answers_leave_a_stores_mail()
    ensures { (before after : StoreSession) (c : Command) (a : StoreAnswer)
        → Honest OthersStep before c a after → IsStoreMail after.mail }
{}

/// Names that were used stay so, over answers and over what others do, one after another. Where they do, one name under one
/// UIDVALIDITY is one folder then and now.
pub fn names_stay_used()
    ensures answers { (before after : StoreSession) (c : Command) (a : StoreAnswer)
        → Honest OthersStep before c a after → KeepsUses before.mail after.mail }
    ensures steps { (before after : StoreMail) → OthersStep before after → KeepsUses before after }
    ensures joined { (first second third : StoreMail) → KeepsUses first second → KeepsUses second third → KeepsUses first third }
    ensures apart { (before after : StoreMail)
        → KeepsUses before after → IsStoreMail before → IsStoreMail after → KeepNamesApart before after }
{}

/// Over any number of answers and of what others do, in session after session, the mail stays a store's, and one name under
/// one UIDVALIDITY is one folder, at whatever two times.
pub fn stores_go_on()
    ensures mail { (start now : StoreSession) → StoreGoesOn start now → IsStoreMail start.mail → IsStoreMail now.mail }
    ensures names { (start now : StoreSession) → StoreGoesOn start now → IsStoreMail start.mail → KeepNamesApart start.mail now.mail }
{}

/// What is honest while others do little is honest while they may do anything.
pub fn fewer_steps_are_honest()
    ensures none { (before after : StoreSession) (c : Command) (a : StoreAnswer)
        → Honest NoStep before c a after → Honest OthersStep before c a after }
    ensures beside_folder { (n : ℕ) (before after : StoreSession) (c : Command) (a : StoreAnswer)
        → Honest (StepBesideFolder n) before c a after → Honest OthersStep before c a after }
    ensures keeping_names { (before after : StoreSession) (c : Command) (a : StoreAnswer)
        → Honest StepKeepingNames before c a after → Honest OthersStep before c a after }
{}
