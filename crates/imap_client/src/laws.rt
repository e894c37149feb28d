// What the definitions rule out, and what they promise.
ghost use Rattle.std.specs.Prelude.{◌≡◌, ◌≢◌, ◌⊎◌, ◌++◌, ◌+◌, ◌≤◌, ◌∷◌, [], List, ℕ, Bool, true, Ok, Err, Some, IsSome, Option, Result, length};
ghost use Rattle.std.specs.List.{flat_map};
ghost use Rattle.gate_world.specs.declared.event.Event.{Event};
ghost use Rattle.gate_world.specs.Octets.{store_gave_in, store_took_in};
ghost use Rattle.imap_types.specs.declared.response.Response.{Response};
ghost use Rattle.told_folder.specs.declared.exchange.Exchange.{Exchange};
ghost use Rattle.imap_exchange.specs.declared.link_end.LinkEnd.{LinkEnd};
ghost use Rattle.imap_exchange.specs.declared.link_end.LinkEnd.TheVariants as ends;
ghost use Rattle.imap_exchange.specs.Received.{Octets};
ghost use Rattle.imap_exchange.specs.Begins.{Begins};
ghost use Rattle.imap_exchange.specs.Answering.{is_some_taken};
ghost use Rattle.imap_client.specs.declared.plan.Due.TheVariants as dues;
ghost use Rattle.imap_client.specs.declared.plan.Refusal.{Refusal};
ghost use Rattle.imap_client.specs.Bodies.{FetchesBody, body_from, body_start, without_body};
ghost use Rattle.imap_client.specs.Connected.{IsConnected};
ghost use Rattle.imap_client.specs.Connecting.{Connects, GreetsBy, connect_plan, greeting_says};
ghost use Rattle.imap_client.specs.LinkLife.{LinkLife, ClientState, next_number, selected};
ghost use Rattle.imap_client.specs.Plans.{Planned, Follows, StopsAtRefusal, ends_torn};
ghost use Rattle.imap_client.specs.Obeying.{Obeys};
ghost use Rattle.imap_client.specs.Decided.{IsDecided};
ghost use Rattle.imap_client.specs.Rounds.{Rounds, is_sparse, round_plan};
ghost use Rattle.imap_client.specs.Sent.{due_texts, next_text};
ghost use Rattle.imap_client.specs.WholeFetches.{IsFinishedFetch};
ghost use Rattle.imap_client.specs.WholeRounds.{AsksFolder, IsFinishedRound, select_told};
ghost use Rattle.told_mail.specs.Mail.{Mail, folder_in};

/// A BYE is no welcome.
pub fn no_bye_is_welcome()
    ensures { (gave rest : List ℕ) (greeting : Response) (after : Octets) (preauth : Bool)
        → Begins (greeting ∷ []) rest gave → greeting_says greeting ≡ Err ends.Bye → GreetsBy gave after (Ok preauth) → ⊥ }
{}

/// A client that connected asked CAPABILITY, LOGIN unless the greeting was PREAUTH, CAPABILITY and ENABLE; and a round asks special uses
/// exactly where the second CAPABILITY told SPECIAL-USE.
pub fn capabilities_after_login_count()
    ensures { (user password : List ℕ) (left : LinkLife) (client : ClientState) (events : List Event)
        → Connects user password (Some left) client (Ok tt) events → IsConnected user password left }
{}

/// A round that ended in Ok sent exactly the commands of a whole round, in order, and the mail is what these told.
pub fn finished_rounds_are_whole()
    ensures { (before after : Mail) (life left : LinkLife) (client : ClientState) (events : List Event) → Rounds before after life left client (Ok tt) events
        → IsFinishedRound before after life left events }
{}

/// Of a folder whose SELECT tells of few messages and of UIDs far beyond them a round asks by three commands at most.
pub fn sparse_folders_take_three()
    ensures { (at : ℕ) (before after : Mail) (xs : List Exchange) (asks : AsksFolder at before xs after) → is_sparse (select_told asks) ≡ true
        → length xs ≤ 3 }
{}

/// The fetch of a body that ended in Ok sent exactly the commands of a whole fetch, in order, the mail is what these told, and the body
/// is the last one that the FETCH told.
pub fn finished_fetches_are_whole()
    ensures { (folder uid : ℕ) (before after : Mail) (life left : LinkLife) (client : ClientState) (octets : List ℕ) (events : List Event)
        → FetchesBody folder uid before after life left client (Ok octets) events → IsFinishedFetch folder uid before after life left octets events }
{}

/// A folder that the mail has it still has after the fetch of a body, unless memory ran out; and where it has the folder of the body the
/// fetch doesn't begin by failing.
pub fn fetches_keep_folders()
    ensures stay { (folder uid : ℕ) (before after : Mail) (life left : LinkLife) (client : ClientState) (result : Result (List ℕ) LinkEnd) (events : List Event)
        → FetchesBody folder uid before after life left client result events → result ≢ Err ends.Memory → (n : ℕ)
        → IsSome (folder_in before.folders n) → IsSome (folder_in after.folders n) }
    ensures begin { (selected : Option (List ℕ)) (folder uid : ℕ) (m : Mail) (why : Refusal) → IsSome (folder_in m.folders folder)
        → body_from folder uid (body_start selected m folder) [] ≢ dues.Fails why }
{}

/// After a round, or the fetch of a body, that ended in Ok the life goes on.
pub fn finished_lives_go_on()
    ensures round { (before after : Mail) (life left : LinkLife) (client : ClientState) (events : List Event) → Rounds before after life left client (Ok tt) events
        → life.goes_on ≡ true → left.goes_on ≡ true }
    ensures body { (folder uid : ℕ) (before after : Mail) (life left : LinkLife) (client : ClientState) (octets : List ℕ) (events : List Event)
        → FetchesBody folder uid before after life left client (Ok octets) events → life.goes_on ≡ true → left.goes_on ≡ true }
{}

/// Octets that obey a plan whole let it end in nothing but Ok, a link that was lost, or out of memory.
pub fn obeyed_plans_end_ok()
    ensures { (plan : Planned) (life left : LinkLife) (exchanges : List Exchange) (client : ClientState) (result : Result (Unit {0}) LinkEnd) (events : List Event)
        → Follows plan life left exchanges client result events → Obeys plan [] (next_number life) (selected life) (life.rest ++ flat_map store_gave_in events)
        → (result ≡ Ok tt) ⊎ (result ≡ Err ends.Lost) ⊎ (result ≡ Err ends.Memory) }
{}

/// However a plan ends, the store took a front of what its commands are, in order: of the completed ones what was due by their
/// responses, which is all where it needs no literal, and then the text of the one that is due.
pub fn commands_are_sent_in_order()
    ensures { (plan : Planned) (life left : LinkLife) (xs : List Exchange) (client : ClientState) (result : Result (Unit {0}) LinkEnd) (events : List Event)
        → Follows plan life left xs client result events
        → (unsent : List ℕ) × (flat_map store_took_in events ++ unsent ≡ due_texts (next_number life) xs ++ next_text (plan xs) (next_number life + length xs)) }
{}

/// A plan that is followed twice over one stream of octets completes the same exchanges and ends alike, in whatever pieces they
/// came, where the octets decide both ends.
pub fn one_run()
    ensures { (plan : Planned) (life left other : LinkLife) (xs ys : List Exchange) (client also : ClientState) (r s : Result (Unit {0}) LinkEnd) (es fs : List Event) (more later : List ℕ)
        → Follows plan life left xs client r es → Follows plan life other ys also s fs
        → flat_map store_gave_in es ++ more ≡ flat_map store_gave_in fs ++ later → IsDecided r → IsDecided s → (xs ≡ ys) × (r ≡ s) }
{}

/// A round over one stream of octets comes to one mail and one end, in whatever pieces they came, where the octets decide it.
pub fn one_round()
    ensures { (before after mail : Mail) (life left other : LinkLife) (client also : ClientState) (r s : Result (Unit {0}) LinkEnd) (es fs : List Event) (more later : List ℕ)
        → Rounds before after life left client r es → Rounds before mail life other also s fs
        → flat_map store_gave_in es ++ more ≡ flat_map store_gave_in fs ++ later → IsDecided r → IsDecided s → (after ≡ mail) × (r ≡ s) }
{}

/// A plan ends with a torn command exactly where the store took octets after its completed exchanges.
pub fn torn_commands_were_taken()
    ensures { (plan : Planned) (life left : LinkLife) (xs : List Exchange) (client : ClientState) (result : Result (Unit {0}) LinkEnd) (events : List Event)
        (follows : Follows plan life left xs client result events) → ends_torn follows.ends ≡ is_some_taken (flat_map store_took_in follows.last) }
{}

/// The fetch of a body over one stream of octets comes to one mail, one end and one body, in whatever pieces they came, where the
/// octets decide it.
pub fn one_fetch()
    ensures { (folder uid : ℕ) (before after mail : Mail) (life left other : LinkLife) (client also : ClientState) (r s : Result (List ℕ) LinkEnd)
        (es fs : List Event) (more later : List ℕ)
        → FetchesBody folder uid before after life left client r es → FetchesBody folder uid before mail life other also s fs
        → flat_map store_gave_in es ++ more ≡ flat_map store_gave_in fs ++ later → IsDecided (without_body r) → IsDecided (without_body s)
        → (after ≡ mail) × (r ≡ s) }
{}

/// In connecting and in a round, a command that isn't answered OK is never the last of all that is to be done.
pub fn refusals_stop()
    ensures connecting { (preauth : Bool) (user password : List ℕ) → StopsAtRefusal (connect_plan preauth user password) }
    ensures round { (special_use : Bool) (m : Mail) → StopsAtRefusal (round_plan special_use m) }
{}
