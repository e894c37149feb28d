//! What the definitions of changing calls over a machine promise, as clauses of functions that do nothing.
ghost use Rattle.std.specs.Prelude.{◌≡◌, ◌≢◌, ◌⊎◌, ℕ, List, None, Result, Some, false};
ghost use Rattle.gate_world.specs.declared.event.Event.{Event};
ghost use Rattle.jmap_arguments.specs.declared.method_error.MethodError.{MethodError};
ghost use Rattle.gate_machine.specs.Going.{HasGoneOn, MachineGoesOn};
ghost use Rattle.gate_machine.specs.History.{KnownMail};
ghost use Rattle.gate_machine.specs.KeptBodies.{KeepsBody};
ghost use Rattle.gate_machine.specs.Progress.{Progress, blame_link, is_up};
ghost use Rattle.gate_machine.specs.ServedFolders.{TellsServedFolders};
ghost use Rattle.gate_machine.specs.Sources.{KnowsExchanges};
ghost use Rattle.gate_machine.specs.declared.mail_status.MailFailure.TheVariants.{Broken};
ghost use Rattle.gate_machine.specs.declared.mail_status.MailStatus.TheVariants.{OutOfMemory, Stands, Unserved};
ghost use Rattle.set_jobs.specs.declared.done.Done.{Done};
ghost use Rattle.set_order.specs.Ordered.{Item};
ghost use Rattle.set_calls.specs.Calls.{SetCall};
ghost use Rattle.gate_changes.specs.Changing.{ChangesMail, LacksChange};
ghost use Rattle.gate_changes.specs.ToldBodies.{ChangeTells, LacksChangeTells};

use gate_machine::{kept_bodies_were_told, machines_know_what_was_told};
use mail_state::laws::emails_have_their_messages;

/// Over a call that changes mail the history that is served goes on; where there was no memory for it the machine isn't ready.
pub fn changes_keep_history()
    ensures changes { (call : SetCall) (items : List Item) (before : Progress) (result : Result (List (Item × Done)) MethodError) (events : List Event) (after : Progress)
        → ChangesMail call items before result events after → MachineGoesOn before.machine events after.machine }
    ensures lacks { (call : SetCall) (items : List Item) (before : Progress) (events : List Event) (after : Progress)
        → LacksChange call items before events after → MachineGoesOn before.machine events after.machine }
{}

/// What the machine knows after such a call comes of exchanges, as before it.
pub fn changes_come_of_exchanges()
    ensures changes { (call : SetCall) (items : List Item) (before : Progress) (result : Result (List (Item × Done)) MethodError) (events : List Event) (after : Progress)
        → ChangesMail call items before result events after → KnowsExchanges before.machine → KnowsExchanges after.machine }
    ensures lacks { (call : SetCall) (items : List Item) (before : Progress) (events : List Event) (after : Progress)
        → LacksChange call items before events after → KnowsExchanges before.machine → KnowsExchanges after.machine }
{
    machines_know_what_was_told();
}

/// Where later calls have the mail, the folder of each Email that is served is told.
pub fn changes_tell_served_folders()
    ensures { (call : SetCall) (items : List Item) (before : Progress) (result : Result (List (Item × Done)) MethodError) (events : List Event) (after : Progress)
        → ChangesMail call items before result events after → KnowsExchanges before.machine → after.standing ≡ Stands → TellsServedFolders after.machine }
{
    emails_have_their_messages();
    machines_know_what_was_told();
}

/// The body of an Email that is kept after such a call was kept before it, or a fetch for an import told it.
pub fn changes_keep_bodies()
    ensures changes { (call : SetCall) (items : List Item) (before : Progress) (result : Result (List (Item × Done)) MethodError) (events : List Event) (after : Progress)
        (does : ChangesMail call items before result events after) → (b : ℕ × List ℕ) → KeepsBody after.machine b → KeepsBody before.machine b ⊎ ChangeTells does b }
    ensures lacks { (call : SetCall) (items : List Item) (before : Progress) (events : List Event) (after : Progress)
        (lacks : LacksChange call items before events after) → (b : ℕ × List ℕ) → KeepsBody after.machine b → KeepsBody before.machine b ⊎ LacksChangeTells lacks b }
{
    kept_bodies_were_told();
}

/// Where later calls don't have the mail, the link life has ended.
pub fn broken_calls_hang_up()
    ensures { (call : SetCall) (items : List Item) (before : Progress) (result : Result (List (Item × Done)) MethodError) (events : List Event) (after : Progress)
        → ChangesMail call items before result events after → after.standing ≢ Stands → (after.standing ≡ Unserved Broken) × (is_up after.left ≡ false) }
{}

/// No epoch is drawn in such a call: where the machine is ready after it, it was before, and the history that was served then has gone on. Where
/// memory ran out it isn't ready.
pub fn changes_draw_no_epoch()
    ensures changes { (call : SetCall) (items : List Item) (before : Progress) (result : Result (List (Item × Done)) MethodError) (events : List Event) (after : Progress)
        → ChangesMail call items before result events after → (k : KnownMail) → after.machine.known ≡ Some k
        → (j : KnownMail) × (before.machine.known ≡ Some j) × HasGoneOn j.history k.history }
    ensures lacks { (call : SetCall) (items : List Item) (before : Progress) (events : List Event) (after : Progress)
        → LacksChange call items before events after → after.machine.known ≡ None }
{}

/// The link alone is blamed for such a call, and no blame is taken back.
pub fn changes_blame_the_link()
    ensures changes { (call : SetCall) (items : List Item) (before : Progress) (result : Result (List (Item × Done)) MethodError) (events : List Event) (after : Progress)
        → ChangesMail call items before result events after → (lost : ℕ) × (after.blamed ≡ blame_link lost before.blamed) }
    ensures lacks { (call : SetCall) (items : List Item) (before : Progress) (events : List Event) (after : Progress)
        → LacksChange call items before events after → (lost : ℕ) × (after.blamed ≡ blame_link lost before.blamed) }
{}

/// Such a call begins where the mail is served. It says that memory ran out exactly where there is no answer.
pub fn changes_begin_over_mail()
    ensures begun { (call : SetCall) (items : List Item) (before : Progress) (result : Result (List (Item × Done)) MethodError) (events : List Event) (after : Progress)
        → ChangesMail call items before result events after → before.standing ≡ Stands }
    ensures ended { (call : SetCall) (items : List Item) (before : Progress) (result : Result (List (Item × Done)) MethodError) (events : List Event) (after : Progress)
        → ChangesMail call items before result events after → after.standing ≢ OutOfMemory }
    ensures lacks_begun { (call : SetCall) (items : List Item) (before : Progress) (events : List Event) (after : Progress)
        → LacksChange call items before events after → before.standing ≡ Stands }
    ensures lacks_ended { (call : SetCall) (items : List Item) (before : Progress) (events : List Event) (after : Progress)
        → LacksChange call items before events after → after.standing ≡ OutOfMemory }
{}
