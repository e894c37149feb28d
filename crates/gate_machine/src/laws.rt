// What a request is owed, what it leaves of the history, and what that comes of.
ghost use Rattle.std.specs.Prelude.{◌≡◌, ◌≢◌, ◌⊎◌, ℕ, List, [], Contains, Option, true};
ghost use Rattle.gate_world.specs.Causes.{no_faults};
ghost use Rattle.gate_world.specs.declared.event.Event.{Event};
ghost use Rattle.gate_machine.specs.Beginning.{PreparesMail};
ghost use Rattle.imap_client.specs.Bodies.{body_from, body_start};
ghost use Rattle.imap_client.specs.declared.plan.Due.TheVariants as due;
ghost use Rattle.imap_client.specs.declared.plan.Refusal.{Refusal};
ghost use Rattle.mail_maps.specs.declared.row.EmailRow.{EmailRow};
ghost use Rattle.mail_state.specs.History.{MailHistory};
ghost use Rattle.gate_machine.specs.History.{KnownMail};
ghost use Rattle.email_bodies.specs.Asking.{BodyAsk};
ghost use Rattle.gate_machine.specs.Fetching.{AsksBodies, CallsAsk};
ghost use Rattle.gate_machine.specs.KeptBodies.{CallsTell, KeepsBody};
ghost use Rattle.gate_machine.specs.Going.{HasGoneOn, MachineGoesOn};
ghost use Rattle.gate_machine.specs.Machine.{MachineState, opened};
ghost use Rattle.gate_machine.specs.Obeying.{AllCame, AreAsksObeyed, IsObeyedBeginning, IsServed};
ghost use Rattle.gate_machine.specs.Progress.{Progress, is_up};
ghost use Rattle.gate_machine.specs.ServedFolders.{HasFoldersTold, Serves, TellsServedFolders};
ghost use Rattle.gate_machine.specs.Sources.{KnowsExchanges};
ghost use Rattle.gate_machine.specs.Staying.{KeepsMaps, KeepsTouches};
ghost use Rattle.gate_machine.specs.declared.mail_status.MailStatus.TheVariants.{OutOfMemory, Stands};

use imap_client::{fetches_keep_folders, finished_lives_go_on, obeyed_plans_end_ok};
use mail_state::laws::emails_have_their_messages;
use told_changes::reading_tells_as_before;

/// Where the store obeys, a place is left and no fault is blamed, the round stands and what it told is served; or memory
/// ran out.
pub fn obeyed_rounds_stand()
    ensures { (user password : List ℕ) (before : MachineState) (events : List Event) (after : Progress) (begins : PreparesMail user password before events after)
        → IsObeyedBeginning begins → after.blamed ≡ no_faults → IsServed after ⊎ (after.standing ≡ OutOfMemory) }
{
    obeyed_plans_end_ok();
}

/// Once a round stands the link is up. As long as it is, the store obeys and no fault is blamed, each body comes that calls ask for.
pub fn obeyed_bodies_come()
    ensures up { (user password : List ℕ) (before : MachineState) (events : List Event) (after : Progress)
        → PreparesMail user password before events after → after.standing ≡ Stands → is_up after.left ≡ true }
    ensures come { (before after : Progress) (asks : List BodyAsk) (events : List Event) (bodies : AsksBodies before asks events after)
        → is_up before.left ≡ true → AreAsksObeyed bodies → after.blamed ≡ no_faults → AllCame asks }
{
    obeyed_plans_end_ok();
    finished_lives_go_on();
}

/// Over a request the history that is served goes on, or the epoch that there is after it was drawn in it.
pub fn requests_keep_history()
    ensures { (user password : List ℕ) (before : MachineState) (events : List Event) (after : Progress)
        → PreparesMail user password before events after → MachineGoesOn before events after.machine }
{}

/// What the calls of a request ask leaves the history that is served as it is; or there was no memory for it.
pub fn calls_keep_history()
    ensures { (before : Progress) (asks : List BodyAsk) (events : List Event) (after : Progress)
        → CallsAsk before asks events after → MachineGoesOn before.machine events after.machine }
{}

/// What the calls of a request ask leaves the machine serving the very history that it served before, unless memory ran out.
pub fn calls_leave_the_history()
    ensures { (before : Progress) (asks : List BodyAsk) (events : List Event) (after : Progress) (h : MailHistory)
        → CallsAsk before asks events after → after.standing ≢ OutOfMemory → Serves before.machine h → Serves after.machine h }
{}

/// Once a round stands, the folder of each Email that is served is told, and stays so whatever the fetches of bodies tell. So the fetch of
/// an Email's body never begins by failing.
pub fn served_folders_are_told()
    ensures round { (user password : List ℕ) (before : MachineState) (events : List Event) (after : Progress)
        → PreparesMail user password before events after → KnowsExchanges before → after.standing ≡ Stands → TellsServedFolders after.machine }
    ensures calls { (before : Progress) (asks : List BodyAsk) (events : List Event) (after : Progress)
        → CallsAsk before asks events after → TellsServedFolders before.machine → TellsServedFolders after.machine }
    ensures begin { (k : KnownMail) (e : ℕ × EmailRow) (selected : Option (List ℕ)) (why : Refusal) → HasFoldersTold k
        → Contains k.history.numbered.rows e → body_from e.1.folder e.1.uid (body_start selected k.told.mail e.1.folder) [] ≢ due.Fails why }
{
    emails_have_their_messages();
    reading_tells_as_before();
    fetches_keep_folders();
}

/// As a history goes on, its epoch and its touches stay, and so do its maps: a state that a client was sent names the same map ever after.
pub fn touches_stay()
    ensures touches { (h after : MailHistory) → HasGoneOn h after → KeepsTouches h after }
    ensures maps { (h after : MailHistory) → HasGoneOn h after → KeepsMaps h after }
{}

/// What a machine knows comes of exchanges: once it is opened, and after each request. So what mail_state says of histories of what
/// exchanges told is said of the history that is served.
pub fn machines_know_what_was_told()
    ensures first { (epoch : ℕ) → KnowsExchanges (opened epoch) }
    ensures next { (user password : List ℕ) (before : MachineState) (events : List Event) (after : Progress)
        → PreparesMail user password before events after → KnowsExchanges before → KnowsExchanges after.machine }
    ensures calls { (before : Progress) (asks : List BodyAsk) (events : List Event) (after : Progress)
        → CallsAsk before asks events after → KnowsExchanges before.machine → KnowsExchanges after.machine }
{
    reading_tells_as_before();
}

/// A body that is kept is what a fetch of that Email's message told: once the mail is prepared none is kept that wasn't before, and after
/// the calls of a request only such that were, or that were told for them.
pub fn kept_bodies_were_told()
    ensures prepared { (user password : List ℕ) (before : MachineState) (events : List Event) (after : Progress)
        → PreparesMail user password before events after → (b : ℕ × List ℕ) → KeepsBody after.machine b → KeepsBody before b }
    ensures calls { (before : Progress) (asks : List BodyAsk) (events : List Event) (after : Progress) (calls : CallsAsk before asks events after)
        (b : ℕ × List ℕ) → KeepsBody after.machine b → KeepsBody before.machine b ⊎ CallsTell calls b }
{}
