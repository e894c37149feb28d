// What the definitions promise.
ghost use Rattle.std.specs.Prelude.{◌≡◌, ◌≢◌, ◌++◌, List, [], ℕ, Bool, Option, Some, None, Result, Ok, Err};
ghost use Rattle.gate_world.specs.declared.event.Event.{Event};
ghost use Rattle.imap_types.specs.declared.command.Command.{Command};
ghost use Rattle.told_folder.specs.declared.exchange.Exchange.{Exchange};
ghost use Rattle.told_mail.specs.Mail.{Mail};
ghost use Rattle.imap_exchange.specs.declared.link_end.LinkEnd.{LinkEnd};
ghost use Rattle.imap_exchange.specs.declared.link_end.LinkEnd.TheVariants as ends;
ghost use Rattle.imap_client.specs.declared.plan.Due.{Due};
ghost use Rattle.imap_client.specs.declared.plan.Due.TheVariants as dues;
ghost use Rattle.imap_client.specs.Connecting.{connect_plan};
ghost use Rattle.imap_client.specs.LinkLife.{LinkLife, ClientState};
ghost use Rattle.imap_client.specs.Plans.{Planned, Follows};
ghost use Rattle.imap_client.specs.Rounds.{round_plan};
ghost use Rattle.store_causes.specs.declared.cause.StoreCause.{StoreCause};
ghost use Rattle.store_causes.specs.Causes.{DoesntFailAtOnce, StopsBy};
ghost use Rattle.imap_client.specs.declared.plan.Refusal.{Refusal};
ghost use Rattle.imap_client.specs.Refusals.{refusal_end};
ghost use Rattle.std.specs.declared.alloc.AllocError.{AllocError};
ghost use Rattle.store_causes.specs.declared.check.Checked.{Checked};
ghost use Rattle.store_causes.specs.Checks.{Checks};
ghost use Rattle.store_causes.specs.Reads.{OnlyReads, TakesReads};
ghost use Rattle.store_causes.specs.Reasons.{AnsweredSo};

/// Each command that a check asks only reads.
pub fn checks_only_read()
    ensures connecting { (preauth : Bool) (user password : List ℕ) (xs : List Exchange) (command : Command)
        → connect_plan preauth user password xs ≡ dues.Send command → OnlyReads command }
    ensures round { (special_use : Bool) (m : Mail) (xs : List Exchange) (command : Command) → round_plan special_use m xs ≡ dues.Send command → OnlyReads command }
{}

/// Over a whole check, all that the store took is a front of the texts of commands that only read, in order.
pub fn checks_take_reads()
    ensures { (user password : List ℕ) (result : Result Checked AllocError) (events : List Event) → Checks user password result events → TakesReads 1 events }
{}

/// How octets begin that can't be read is told without the password: in none that is told it stands.
pub fn beginnings_hide_the_password()
    ensures { (user password : List ℕ) (checked : Checked) (events : List Event) (told before after : List ℕ) → Checks user password (Ok checked) events
        → password ≢ [] → checked.beginning ≡ Some told → told ≢ before ++ (password ++ after) }
{}

/// There is at most one cause.
pub fn one_cause()
    ensures { (let_in : Bool) (selected : Option (List ℕ)) (xs : List Exchange) (now : Due) (e : LinkEnd) (c d : StoreCause)
        → StopsBy let_in selected xs now e c → StopsBy let_in selected xs now e d → c ≡ d }
{}

/// Where a plan that doesn't fail at once stopped, and not out of memory, there is a cause.
pub fn each_stop_has_a_cause()
    ensures { (plan : Planned) (let_in : Bool) (selected : Option (List ℕ)) (life left : LinkLife) (xs : List Exchange) (client : ClientState) (e : LinkEnd) (events : List Event)
        → DoesntFailAtOnce plan → e ≢ ends.Memory → Follows plan life left xs client (Err e) events → (c : StoreCause) × StopsBy let_in selected xs (plan xs) e c }
{}

/// Where an answer stopped connecting, the cause says what that answer is.
pub fn answers_are_so()
    ensures { (preauth : Bool) (user password : List ℕ) (life left : LinkLife) (xs : List Exchange) (client : ClientState) (e : LinkEnd) (events : List Event) (why : Refusal) (c : StoreCause)
        → Follows (connect_plan preauth user password) life left xs client (Err e) events → connect_plan preauth user password xs ≡ dues.Fails why
        → StopsBy preauth None xs (dues.Fails why) (refusal_end why) c → AnsweredSo xs c }
{}
