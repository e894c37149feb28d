//! Laws of answers to calls, as clauses of functions that do nothing.
ghost use Rattle.std.specs.Prelude.{◌≡◌, ◌++◌, ◌↔◌, ℕ, List, All, true};
ghost use Rattle.gate_world.specs.declared.event.Event.{Event};
ghost use Rattle.jmap_arguments.specs.Arguments.{is_among};
ghost use Rattle.jmap_arguments.specs.declared.using.Using.{Using};
ghost use Rattle.jmap_core.specs.Session.{email_orders};
ghost use Rattle.result_references.specs.Call.{CallData};
ghost use Rattle.gate_machine.specs.Progress.{Progress};
ghost use Rattle.gate_calls.specs.Calling.{Asked, CallsState, DoesCalls, LacksCalls};
ghost use Rattle.gate_calls.specs.Mailings.{mail_at};
ghost use Rattle.gate_calls.specs.MethodNames.{ChangesNoMail};
ghost use Rattle.gate_calls.specs.OneMail.{AnsweredOverOne, LacksOverOne};
ghost use Rattle.gate_calls.specs.Places.{HasPlaces};
ghost use Rattle.gate_calls.specs.SortOptions.{IsTakenOrder};

use email_get::laws::{one_get_answer, one_parse_answer};
use query_changes::laws::one_query_changes_answer;
use query_core::laws::one_query_answer;
use read_methods::laws::one_changes_answer;
use set_order::items_have_one_order;

/// From two moments at which the same mail is served and the same ids were created, the calls of a request come to one thing: as long as what
/// they ask is answered as before, the same is asked; once all is, they have the same responses, and leave the same ids and the same mail.
pub fn calls_have_one_course()
    ensures { (uses : Using) (uploads : List (List ℕ)) (calls : List CallData) (s t after then : CallsState) (asks more also later : List Asked)
        (a b : List CallData) (es fs : List Event) → mail_at s.progress ≡ mail_at t.progress → s.created ≡ t.created → HasPlaces (mail_at s.progress)
        → DoesCalls uses uploads s calls asks a es after → DoesCalls uses uploads t calls also b fs then → asks ++ more ≡ also ++ later
        → (asks ≡ also) × (a ≡ b) × (after.created ≡ then.created) × (mail_at after.progress ≡ mail_at then.progress) }
{
    one_changes_answer();
    one_get_answer();
    one_parse_answer();
    one_query_answer();
    one_query_changes_answer();
    items_have_one_order();
}

/// Calls that read, each over the mail of its moment, come to what they come to over the one mail that is served before the first of them, and
/// ask the same bodies in all; also where memory runs out.
pub fn reading_calls_have_one_mail()
    ensures joined { (uses : Using) (uploads : List (List ℕ)) (before after : CallsState) (calls responses : List CallData) (asks : List Asked)
        (events : List Event) → All (λ call. ChangesNoMail uses call.name) calls → DoesCalls uses uploads before calls asks responses events after
        → AnsweredOverOne uses uploads before calls asks responses events after }
    ensures apart { (uses : Using) (uploads : List (List ℕ)) (before after : CallsState) (calls responses : List CallData) (asks : List Asked)
        (events : List Event) → AnsweredOverOne uses uploads before calls asks responses events after
        → DoesCalls uses uploads before calls asks responses events after }
    ensures lacks { (uses : Using) (uploads : List (List ℕ)) (before : CallsState) (calls : List CallData) (events : List Event) (after : Progress)
        → All (λ call. ChangesNoMail uses call.name) calls → LacksCalls uses uploads before calls events after → LacksOverOne uses uploads before calls events after }
    ensures lacks_apart { (uses : Using) (uploads : List (List ℕ)) (before : CallsState) (calls : List CallData) (events : List Event) (after : Progress)
        → LacksOverOne uses uploads before calls events after → LacksCalls uses uploads before calls events after }
{}

/// The properties that the Session offers as `emailQuerySortOptions` are exactly those by which Email/query sorts.
pub fn orders_offered_are_taken()
    ensures { (name : List ℕ) → (is_among name email_orders ≡ true) ↔ IsTakenOrder name }
{}
