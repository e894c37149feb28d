// What the definitions rule out.
ghost use Rattle.std.specs.Prelude.{◌≡◌, ◌⊎◌, ◌++◌, ℕ, List, [], Option, Some, Ok, false};
ghost use Rattle.gate_world.specs.Causes.{Faults, no_faults};
ghost use Rattle.gate_world.specs.declared.event.Event.{Event};
ghost use Rattle.gate_machine.specs.Progress.{Bears, Progress};
ghost use Rattle.gate_machine.specs.Machine.{MachineState};
ghost use Rattle.gate_machine.specs.Going.{HasGoneOn};
ghost use Rattle.gate_machine.specs.History.{KnownMail};
ghost use Rattle.gate_machine.specs.KeptBodies.{KeepsBody};
ghost use Rattle.gate_machine.specs.ServedFolders.{Serves};
ghost use Rattle.gate_machine.specs.Sources.{KnowsExchanges};
ghost use Rattle.mail_state.specs.History.{MailHistory};
ghost use Rattle.gate_machine.specs.declared.mail_status.MailStatus.TheVariants.{OutOfMemory};
ghost use Rattle.gate_calls.specs.Calling.{Asked};
ghost use Rattle.gate_calls.specs.Mailings.{mail_at};
ghost use Rattle.gate_calls.specs.Places.{HasPlaces};
ghost use Rattle.gate_serving.specs.Answers.{Answer};
ghost use Rattle.gate_serving.specs.Complete.{AreObeyedTold, CompletesRun, IsAnsweredFrom, IsSegmentObeyed, IsClientTold, IsWorkObeyed};
ghost use Rattle.gate_serving.specs.Doing.{Answers};
ghost use Rattle.gate_serving.specs.Histories.{KeepsHistories};
ghost use Rattle.gate_serving.specs.KeptBodies.{RunTells};
ghost use Rattle.gate_serving.specs.declared.door.Door.{Door};
ghost use Rattle.gate_serving.specs.GateState.{GateState};
ghost use Rattle.gate_serving.specs.Requests.{Account, Asking, ReadsAlone, asks_for_mail};
ghost use Rattle.gate_serving.specs.Run.{Run, Stood, run_blamed};
ghost use Rattle.gate_serving.specs.Segment.{AnswersAsking, Segment, blamed};
ghost use Rattle.gate_serving.specs.RequestWork.{RequestWork, begun_in};
ghost use Rattle.gate_serving.specs.declared.outcomes.ClientOutcome.{ClientOutcome};

use call_laws::items_are_fit;
use email_get::laws::one_blob_found;
use email_import::imports_append_once;
use gate_calls::calls_have_one_course;
use gate_changes::{
    changes_begin_over_mail, changes_blame_the_link, changes_come_of_exchanges,
    changes_draw_no_epoch, changes_keep_bodies, changes_keep_history,
};
use gate_machine::{
    calls_keep_history, kept_bodies_were_told, machines_know_what_was_told, obeyed_bodies_come,
    obeyed_rounds_stand, requests_keep_history,
};
use imap_client::{finished_lives_go_on, obeyed_plans_end_ok};
use set_items::items_end_by_their_causes;

/// Where no count rose, nothing is blamed.
pub fn no_fault_no_blame()
    ensures { (blames was now : Faults) → Bears blames was now → Stood was now → blames ≡ no_faults }
{}

/// A request that doesn't need the mail has no link life, and leaves the machine as it was.
pub fn no_life_without_need()
    ensures { (account : Account) (uploads : List (List ℕ)) (before : MachineState) (asking : Asking) (events : List Event) (came : Option Answer) (after : Progress)
        → RequestWork account uploads before asking events came after → asks_for_mail asking ≡ false → (events ≡ []) × (after.machine ≡ before) }
{}

/// Where the store obeys, a place is left and no fault is blamed, what is asked is answered from the mail that is served as its first call
/// begins and from what its calls change, and all comes that it asks for; or memory ran out.
pub fn obeyed_requests_answered()
    ensures { (account : Account) (uploads : List (List ℕ)) (before : MachineState) (asking : Asking) (events : List Event) (answer : Answer) (after : Progress)
        (work : RequestWork account uploads before asking events (Some answer) after) → IsWorkObeyed work → after.blamed ≡ no_faults
        → IsAnsweredFrom account uploads asking answer events after ⊎ (after.standing ≡ OutOfMemory) }
{
    obeyed_rounds_stand();
    obeyed_bodies_come();
    obeyed_plans_end_ok();
    finished_lives_go_on();
    imports_append_once();
    items_are_fit();
    items_end_by_their_causes();
    changes_blame_the_link();
    changes_begin_over_mail();
}

/// Where the store obeys, a place is left and no fault is blamed, whoever comes takes the whole response that is due, from the mail that
/// is served as its first call begins and from what its calls change; or memory ran out.
pub fn obeyed_clients_are_told()
    ensures { (door : Door) (account : Account) (before : GateState) (events : List Event) (how : ClientOutcome) (after : GateState)
        (segment : Segment door account before events how after) → IsSegmentObeyed segment → blamed segment ≡ no_faults
        → IsClientTold door account events how after }
{
    obeyed_requests_answered();
}

/// Each client of a run of whom nothing fails and for whom the store obeyed is told, whatever comes of the others.
pub fn obeyed_runs_are_told()
    ensures { (door : Door) (account : Account) (events : List Event) → CompletesRun door account events }
{
    obeyed_clients_are_told();
}

/// Each client of a run for whom the store obeyed is told, where nothing is blamed over the run.
pub fn quiet_runs_are_told()
    ensures { (door : Door) (account : Account) (before after : GateState) (events : List Event) (went : List ClientOutcome)
        (run : Run door account before events went after) → run_blamed run ≡ no_faults → AreObeyedTold run }
{
    obeyed_clients_are_told();
}

/// From each client of a run to each later one the history that is served goes on, or the epoch that there is then was drawn meanwhile:
/// no client is answered over other mail at a place that an earlier one was told of.
pub fn histories_go_on()
    ensures { (door : Door) (account : Account) (events : List Event) → KeepsHistories door account events }
{
    requests_keep_history();
    calls_keep_history();
    changes_keep_history();
}

/// The history that the machine serves after a request has gone on from the mail from which on the request is answered; after one whose
/// calls read it is that mail. So what `histories_go_on` says of the histories of a run's machines it says of the mail over which clients
/// are answered.
pub fn answers_are_of_the_served_history()
    ensures goes { (door : Door) (account : Account) (before : GateState) (events : List Event) (text : List ℕ) (after : GateState)
        (a : AnswersAsking door account before events text after) (h : MailHistory) (k : KnownMail) → mail_at (begun_in a.work) ≡ Ok h
        → after.machine.known ≡ Some k → HasGoneOn h k.history }
    ensures reads { (door : Door) (account : Account) (before : GateState) (events : List Event) (text : List ℕ) (after : GateState)
        (a : AnswersAsking door account before events text after) (h : MailHistory) → ReadsAlone a.asking → mail_at (begun_in a.work) ≡ Ok h
        → Serves after.machine h }
{
    changes_draw_no_epoch();
}

/// From two moments at which the same mail is served, what is asked comes to one answer: as long as what it asks of the outside is answered as
/// before, the same is asked; and once all is, the answer is the same, and the mail that is served then.
pub fn one_answer()
    ensures { (account : Account) (uploads : List (List ℕ)) (asking : Asking) (p q : Progress) (asks more also later : List Asked) (es fs : List Event)
        (a b : Answer) (after then : Progress) → mail_at p ≡ mail_at q → HasPlaces (mail_at p) → Answers account uploads asking p asks es a after
        → Answers account uploads asking q also fs b then → asks ++ more ≡ also ++ later
        → (asks ≡ also) × (a ≡ b) × (mail_at after ≡ mail_at then) }
{
    calls_have_one_course();
    one_blob_found();
}

/// What is known after a run comes of exchanges, where it did before. So the mail from which on a request is answered has places left.
pub fn runs_know_what_was_told()
    ensures machine { (door : Door) (account : Account) (before after : GateState) (events : List Event) (went : List ClientOutcome)
        → Run door account before events went after → KnowsExchanges before.machine → KnowsExchanges after.machine }
    ensures mail { (account : Account) (uploads : List (List ℕ)) (before : MachineState) (asking : Asking) (events : List Event) (came : Option Answer) (after : Progress)
        (work : RequestWork account uploads before asking events came after) → KnowsExchanges before → HasPlaces (mail_at (begun_in work)) }
{
    machines_know_what_was_told();
    changes_come_of_exchanges();
}

/// A body that is kept after a run was kept before it, or is what a fetch of that Email's message told in it.
pub fn runs_keep_told_bodies()
    ensures { (door : Door) (account : Account) (before after : GateState) (events : List Event) (went : List ClientOutcome)
        (run : Run door account before events went after) (b : ℕ × List ℕ) → KeepsBody after.machine b → KeepsBody before.machine b ⊎ RunTells run b }
{
    kept_bodies_were_told();
    changes_keep_bodies();
}
