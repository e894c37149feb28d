//! What the definitions of items promise, as clauses of functions that do nothing.
ghost use Rattle.std.specs.Prelude.{◌≡◌, ◌≢◌, ◌≤◌, ◌⊎◌, ℕ, Bool, List, [], ◌∷◌, true, false, Result};
ghost use Rattle.gate_world.specs.declared.event.Event.{Event};
ghost use Rattle.told_folder.specs.declared.exchange.Exchange.{Exchange};
ghost use Rattle.told_mail.specs.Mail.{Mail};
ghost use Rattle.imap_types.specs.declared.response.Status.TheVariants as statuses;
ghost use Rattle.imap_client.specs.LinkLife.{LinkLife, ClientState};
ghost use Rattle.imap_client.specs.Plans.{Ran};
ghost use Rattle.jmap_arguments.specs.declared.method_error.MethodError.TheVariants.{ServerUnavailable, ServerPartialFail};
ghost use Rattle.set_jobs.specs.declared.done.Done.TheVariants.{Made};
ghost use Rattle.set_jobs.specs.declared.job.Job.{Job};
ghost use Rattle.set_items.specs.Items.{ItemState, Settled, item_at, item_plan, item_start, Answers};
ghost use Rattle.set_items.specs.Ends.{ItemEnd, Ends, OutOfMemory, any_change, is_cut_off};
ghost use Rattle.set_items.specs.Causes.{FailedPartly, WasUnavailable};
ghost use Rattle.set_items.specs.Talks.{DoesItem, ending_of};
ghost use Rattle.set_items.specs.Commands.{appends_in, appends_of, BeginsHeld, IsFit, MakesNothing, MakesBy, MustBeObeyed};

/// An item ends its call with serverPartialFail or serverUnavailable only by the causes of each.
pub fn items_end_by_their_causes()
    ensures partly { (job : Job) (call : List Exchange) (before after : Mail) (life left : LinkLife) (client : ClientState) (events : List Event)
        (d : DoesItem job call before after life left client (Ends ServerPartialFail) events) → IsFit job → FailedPartly (ending_of call d.runs) }
    ensures unavailable { (job : Job) (call : List Exchange) (before after : Mail) (life left : LinkLife) (client : ClientState) (events : List Event)
        (d : DoesItem job call before after life left client (Ends ServerUnavailable) events) → IsFit job → BeginsHeld before job
        → WasUnavailable (ending_of call d.runs) }
{}

/// Each of these causes ends the call with its error, unless memory ran out.
pub fn causes_end_items()
    ensures partly { (job : Job) (call : List Exchange) (before after : Mail) (life left : LinkLife) (client : ClientState) (ends : ItemEnd) (events : List Event)
        (d : DoesItem job call before after life left client ends events) → IsFit job → FailedPartly (ending_of call d.runs)
        → (ends ≡ OutOfMemory) ⊎ (ends ≡ Ends ServerPartialFail) }
    ensures unavailable { (job : Job) (call : List Exchange) (before after : Mail) (life left : LinkLife) (client : ClientState) (ends : ItemEnd) (events : List Event)
        (d : DoesItem job call before after life left client ends events) → IsFit job → WasUnavailable (ending_of call d.runs)
        → (ends ≡ OutOfMemory) ⊎ (ends ≡ Ends ServerUnavailable) }
{}

/// Of an item that has one APPEND among its steps one APPEND is sent at most.
pub fn no_append_is_repeated()
    ensures { (job : Job) (m : Mail) (xs : List Exchange) → Answers (item_start job m) xs → appends_in xs ≤ appends_of job.steps }
{}

/// An item is answered as made only by an APPEND that was answered OK with a usable code that contradicts nothing, under the mark that is
/// told there.
pub fn made_by_one_append()
    ensures { (job : Job) (m : Mail) (xs : List Exchange) (mark size : ℕ) → MakesNothing job → Answers (item_start job m) xs
        → (item_at (item_start job m) xs).stage ≡ Settled (Made mark size) → MakesBy (item_start job m) xs mark size }
{}

/// After a NO or BAD to a changing command but EXPUNGE the item sends no more.
pub fn refused_items_send_no_more()
    ensures { (s : ItemState) (x : Exchange) (more : List Exchange) → Answers s (x ∷ more) → x.status ≢ statuses.Ok → MustBeObeyed x.command → more ≡ [] }
{}

/// Where no changing command of the call was answered OK, it ends with serverPartialFail only where the store took octets of one that it
/// didn't answer, in a life that went on until then.
pub fn partial_only_after_a_change()
    ensures { (job : Job) (call : List Exchange) (before after : Mail) (life left : LinkLife) (client : ClientState) (events : List Event)
        (d : DoesItem job call before after life left client (Ends ServerPartialFail) events) → IsFit job
        → any_change call ≡ false → any_change d.runs.exchanges ≡ false
        → is_cut_off (item_plan (item_start job before) d.runs.exchanges) (ending_of call d.runs).torn ≡ true }
{}

/// In a life that had ended nothing is sent: whatever was taken of a command before, the call fails in part only after a change of its own.
pub fn ended_lives_break_no_call()
    ensures { (job : Job) (call : List Exchange) (before after : Mail) (life left : LinkLife) (client : ClientState) (events : List Event)
        (d : DoesItem job call before after life left client (Ends ServerPartialFail) events) → life.goes_on ≡ false → any_change call ≡ true }
{}

/// The exchanges of an item in a life are answers to what its plan asked, one after another: so what is said of answers is said of lives.
pub fn exchanges_are_answers()
    ensures { (s : ItemState) (life after : LinkLife) (xs : List Exchange) (events : List Event) → Ran (item_plan s) life xs after events → Answers s xs }
{}
