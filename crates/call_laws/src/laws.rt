// Laws of calls that change mail.
ghost use Rattle.std.specs.Prelude.{◌≡◌, ◌≢◌, ◌⊎◌, ℕ, List, Err, Ok, Option, Result, Some, false, true};
ghost use Rattle.gate_world.specs.declared.event.Event.{Event};
ghost use Rattle.told_mail.specs.Mail.{Mail};
ghost use Rattle.imap_client.specs.LinkLife.{LinkLife};
ghost use Rattle.jmap_arguments.specs.declared.method_error.MethodError.{MethodError};
ghost use Rattle.jmap_arguments.specs.declared.method_error.MethodError.TheVariants.{ServerFail, ServerPartialFail, ServerUnavailable};
ghost use Rattle.jmap_arguments.specs.declared.using.Using.{Using};
ghost use Rattle.jmap_core.specs.CreatedIds.{Ids};
ghost use Rattle.mail_state.specs.History.{MailHistory};
ghost use Rattle.result_references.specs.Call.{CallData};
ghost use Rattle.result_references.specs.References.{resolved_arguments};
ghost use Rattle.serde_json.specs.Data.{Data};
ghost use Rattle.set_arguments.specs.Arguments.{SetAsked, set_asked};
ghost use Rattle.set_arguments.specs.declared.set_method.SetMethod.{SetMethod};
ghost use Rattle.set_jobs.specs.declared.done.Done.{Done};
ghost use Rattle.set_jobs.specs.declared.job.Job.{Job};
ghost use Rattle.set_order.specs.Ordered.{Item};
ghost use Rattle.set_items.specs.Causes.{FailedPartly, WasUnavailable};
ghost use Rattle.set_given.specs.Given.{Given};
ghost use Rattle.set_items.specs.Commands.{IsFit, appends_of};
ghost use Rattle.set_items.specs.Talks.{ending_of};
ghost use Rattle.set_items.specs.declared.item.ItemEnd.{ItemEnd};
ghost use Rattle.set_items.specs.declared.item.ItemEnd.TheVariants.{Comes, Ends, OutOfMemory};
ghost use Rattle.set_calls.specs.Calls.{SetCall, CallState, DoesItems, StepsItem, StopsAt, call_begun};
ghost use Rattle.set_calls.specs.Promises.{ChecksAppend, ChecksFit};
ghost use Rattle.set_methods.specs.Checks.{Drawn, Prepares};
ghost use Rattle.gate_machine.specs.Going.{HasGoneOn};
ghost use Rattle.gate_machine.specs.History.{KnownMail};
ghost use Rattle.gate_machine.specs.Progress.{Progress, is_up};
ghost use Rattle.gate_changes.specs.Answering.{call_of, is_current};
ghost use Rattle.gate_changes.specs.Changing.{ChangesMail};
ghost use Rattle.gate_calls.specs.Calling.{Asked, CallsState, DoesCall, DoesCalls};
ghost use Rattle.gate_calls.specs.ItemChecks.{item_checks};
ghost use Rattle.gate_calls.specs.Mailings.{mail_at};
ghost use Rattle.gate_calls.specs.MethodNames.{method_asked};
ghost use Rattle.gate_calls.specs.declared.method.Method.TheVariants.{Set};
ghost use Rattle.call_laws.specs.Appends.{appends_due};
ghost use Rattle.call_laws.specs.Ended.{HasNoPlaces, IsEndedByCause, IsEndedSo};
ghost use Rattle.call_laws.specs.Lives.{SomeCallEndsLife};

use email_creation::creations_append_once;
use email_import::imports_append_once;
use email_laws::{email_items_append_nothing, email_items_are_fit, email_items_begin_held};
use gate_changes::changes_draw_no_epoch;
use imap_client::finished_lives_go_on;
use mailbox_laws::{mailbox_items_append_nothing, mailbox_items_are_fit, mailbox_items_begin_held};
use set_calls::calls_end_by_their_causes;
use set_items::causes_end_items;

/// Whatever a call asks, its items have the steps that set_items' laws want of them: each command has to be obeyed but EXPUNGE, what is listed was made,
/// and a folder that is selected at first is held. A creation of an Email sends one APPEND, and no other item sends any. Imports have no steps by their checks
/// alone: email_import's laws say the same of them.
pub fn items_are_fit()
    ensures fit { (uploads : List (List ℕ)) (m : SetMethod) (a : SetAsked) (h : MailHistory) (created : Ids) → ChecksFit (call_of (item_checks uploads) m a h created) }
    ensures each { (uploads : List (List ℕ)) (m : SetMethod) (a : SetAsked) (g : Given) (item : Item) (drawn : Option Drawn) (job : Job)
        → Prepares (item_checks uploads m a) g item drawn (Ok job) → appends_of job.steps ≡ appends_due m item }
    ensures append { (uploads : List (List ℕ)) (m : SetMethod) (a : SetAsked) (h : MailHistory) (created : Ids) → ChecksAppend (call_of (item_checks uploads) m a h created) }
{
    email_items_are_fit();
    email_items_begin_held();
    email_items_append_nothing();
    creations_append_once();
    mailbox_items_are_fit();
    mailbox_items_begin_held();
    mailbox_items_append_nothing();
}

/// A call that changes mail, and whose items are done, ends with one of its three errors only by the causes of each.
pub fn changing_calls_end_by_their_causes()
    ensures partly { (call : SetCall) (items : List Item) (before : Progress) (events : List Event) (after : Progress) → ChecksFit call
        → ChangesMail call items before (Err ServerPartialFail) events after → IsEndedSo FailedPartly ServerPartialFail call items before }
    ensures unavailable { (call : SetCall) (items : List Item) (before : Progress) (events : List Event) (after : Progress) → ChecksFit call
        → ChangesMail call items before (Err ServerUnavailable) events after → IsEndedSo WasUnavailable ServerUnavailable call items before }
    ensures fail { (call : SetCall) (items : List Item) (before : Progress) (events : List Event) (after : Progress)
        → ChangesMail call items before (Err ServerFail) events after → HasNoPlaces call items before }
    ensures others { (call : SetCall) (items : List Item) (before : Progress) (e : MethodError) (events : List Event) (after : Progress)
        → ChangesMail call items before (Err e) events after → (e ≡ ServerPartialFail) ⊎ (e ≡ ServerUnavailable) ⊎ (e ≡ ServerFail) }
{
    calls_end_by_their_causes();
    imports_append_once();
}

/// A call of Email/set, Mailbox/set or Email/import that isn't refused by its name, its references, its arguments or its state, over mail that is served,
/// ends with an error only by a cause of it.
pub fn set_calls_end_by_their_causes()
    ensures { (uses : Using) (uploads : List (List ℕ)) (earlier : List CallData) (call : CallData) (before : CallsState) (asks : List Asked) (e : MethodError)
        (events : List Event) (after : CallsState) (m : SetMethod) (d : Data) (a : SetAsked) (h : MailHistory)
        → DoesCall uses uploads earlier call before asks (Err e) events after → method_asked uses call.name ≡ Ok (Set m)
        → resolved_arguments earlier call.arguments ≡ Ok d → set_asked m d ≡ Ok a → mail_at before.progress ≡ Ok h → is_current m a h ≡ true
        → IsEndedByCause uploads m a h before e }
{
    changing_calls_end_by_their_causes();
    items_are_fit();
}

/// Each of these causes ends the call with its error, unless memory ran out; of an item that came to something neither holds.
pub fn causes_end_calls()
    ensures partly { (c : SetCall) (item : Item) (mid after : CallState) (ends : ItemEnd) (events : List Event) → ChecksFit c
        → (stop : StopsAt c item mid ends events after) → FailedPartly (ending_of mid.exchanges stop.steps.does.runs)
        → (ends ≡ OutOfMemory) ⊎ (ends ≡ Ends ServerPartialFail) }
    ensures unavailable { (c : SetCall) (item : Item) (mid after : CallState) (ends : ItemEnd) (events : List Event) → ChecksFit c
        → (stop : StopsAt c item mid ends events after) → WasUnavailable (ending_of mid.exchanges stop.steps.does.runs)
        → (ends ≡ OutOfMemory) ⊎ (ends ≡ Ends ServerUnavailable) }
    ensures done { (item : Item) (job : Job) (mid after : CallState) (done : Done) (events : List Event) → IsFit job
        → (steps : StepsItem item job mid (Comes done) events after)
        → FailedPartly (ending_of mid.exchanges steps.does.runs) ⊎ WasUnavailable (ending_of mid.exchanges steps.does.runs) → ⊥ }
{
    causes_end_items();
}

/// Over each call of a request the history that is served goes on: so the states that its replies tell are of one history, one after another.
pub fn calls_keep_one_history()
    ensures one { (uses : Using) (uploads : List (List ℕ)) (earlier : List CallData) (call : CallData) (before : CallsState) (asks : List Asked)
        (result : Result Data MethodError) (events : List Event) (after : CallsState) (h : MailHistory) (k : KnownMail)
        → DoesCall uses uploads earlier call before asks result events after → mail_at before.progress ≡ Ok h → after.progress.machine.known ≡ Some k
        → HasGoneOn h k.history }
    ensures joins { (h j k : MailHistory) → HasGoneOn h j → HasGoneOn j k → HasGoneOn h k }
{
    changes_draw_no_epoch();
}

/// Where the mail is served and the link life has ended, one of the calls before ended it. In a call whose items find that it has ended, it had before
/// the call, or a fault of the link is blamed in it.
pub fn ended_lives_have_causes()
    ensures calls { (uses : Using) (uploads : List (List ℕ)) (begun now : CallsState) (calls responses : List CallData) (asks : List Asked) (events : List Event)
        (h : MailHistory) (does : DoesCalls uses uploads begun calls asks responses events now) → is_up begun.progress.left ≡ true
        → mail_at now.progress ≡ Ok h → is_up now.progress.left ≡ false → SomeCallEndsLife does }
    ensures items { (c : SetCall) (m : Mail) (life : LinkLife) (done : List (Item × Done)) (events : List Event) (mid : CallState)
        → DoesItems c (call_begun m life) done events mid → mid.life.goes_on ≡ false → (life.goes_on ≡ false) ⊎ (mid.lost ≢ 0) }
{
    calls_end_by_their_causes();
    finished_lives_go_on();
    imports_append_once();
    items_are_fit();
}
