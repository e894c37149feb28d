//! What the definitions of changing calls promise, as clauses of functions that do nothing.
ghost use Rattle.std.specs.Prelude.{◌≡◌, ◌≤◌, ◌+◌, List, [], Err, Result};
ghost use Rattle.gate_world.specs.declared.event.Event.{Event};
ghost use Rattle.told_mail.specs.Mail.{Mail};
ghost use Rattle.imap_client.specs.LinkLife.{LinkLife};
ghost use Rattle.jmap_arguments.specs.declared.method_error.MethodError.TheVariants.{ServerUnavailable, ServerPartialFail};
ghost use Rattle.set_jobs.specs.declared.done.Done.{Done};
ghost use Rattle.set_order.specs.Ordered.{Item};
ghost use Rattle.set_items.specs.Causes.{FailedPartly, WasUnavailable};
ghost use Rattle.set_items.specs.Commands.{appends_in};
ghost use Rattle.set_items.specs.declared.item.ItemEnd.{ItemEnd};
ghost use Rattle.set_items.specs.declared.item.ItemEnd.TheVariants.{Ends};
ghost use Rattle.set_calls.specs.Calls.{SetCall, CallState, RunsItems, call_begun};
ghost use Rattle.set_calls.specs.Promises.{ChecksAppend, ChecksFit, IsEndedBy, creations_in};

use set_items::{
    exchanges_are_answers, items_end_by_their_causes, no_append_is_repeated as items_append_once,
};

/// A call ends with serverPartialFail or serverUnavailable only by the causes of each, over all that was exchanged for it.
pub fn calls_end_by_their_causes()
    ensures partly { (c : SetCall) (items : List Item) (m : Mail) (life : LinkLife) (after : CallState) (events : List Event) → ChecksFit c
        → RunsItems c items (call_begun m life) (Err (Ends ServerPartialFail)) events after → IsEndedBy FailedPartly ServerPartialFail c items (call_begun m life) after events }
    ensures unavailable { (c : SetCall) (items : List Item) (m : Mail) (life : LinkLife) (after : CallState) (events : List Event) → ChecksFit c
        → RunsItems c items (call_begun m life) (Err (Ends ServerUnavailable)) events after → IsEndedBy WasUnavailable ServerUnavailable c items (call_begun m life) after events }
{
    items_end_by_their_causes();
}

/// However a call goes, at most as many APPENDs are completed for it as it has creations.
pub fn no_append_is_repeated()
    ensures { (c : SetCall) (items : List Item) (before after : CallState) (result : Result (List (Item × Done)) ItemEnd) (events : List Event) → ChecksAppend c
        → RunsItems c items before result events after → appends_in after.exchanges ≤ appends_in before.exchanges + creations_in items }
{
    exchanges_are_answers();
    items_append_once();
}
