// What the definitions rule out.
ghost use Rattle.std.specs.Prelude.{◌≡◌, ◌≢◌, ◌⊎◌, ◌++◌, List, ℕ, [], ◌∷◌, Bool, Result, Err};
ghost use Rattle.std.specs.List.{flat_map};
ghost use Rattle.gate_world.specs.declared.event.Event.{Event};
ghost use Rattle.gate_world.specs.declared.event.Event.TheVariants.{StoreGave};
ghost use Rattle.gate_world.specs.Octets.{store_gave_in, store_took_in};
ghost use Rattle.imap_types.specs.Commands.{joined_pieces};
ghost use Rattle.imap_types.specs.declared.code.Code.{Code};
ghost use Rattle.imap_types.specs.declared.response.Response.{Response};
ghost use Rattle.imap_types.specs.declared.response.Status.{Status};
ghost use Rattle.imap_types.specs.declared.response.Status.TheVariants as statuses;
ghost use Rattle.imap_exchange.specs.declared.link_end.LinkEnd.{LinkEnd};
ghost use Rattle.imap_exchange.specs.declared.link_end.LinkEnd.TheVariants as ends;
ghost use Rattle.imap_exchange.specs.Received.{Octets};
ghost use Rattle.imap_exchange.specs.declared.exchange.Answer.{Answer};
ghost use Rattle.imap_exchange.specs.Needed.{ReadsWhile};
ghost use Rattle.imap_exchange.specs.Exchanges.{Verdict, Done, Open, IsVerdict, IsDuePart, pieces_due};
ghost use Rattle.imap_exchange.specs.Answering.{IsCause, Awaits, AllDueTaken, IsTooMuch, ComesTo};

/// Octets have one verdict on an exchange, so each comes exactly where it is right.
pub fn one_verdict()
    ensures { (tag : List ℕ) (pieces : List (List ℕ)) (octets : List ℕ) (v w : Verdict) → IsVerdict tag pieces octets v → IsVerdict tag pieces octets w → v ≡ w }
{}

/// No more of a command is taken than the pieces that are due by the responses before the verdict: none after a tagged
/// line, and no literal before its continuation.
pub fn each_piece_is_due()
    ensures { (tag : List ℕ) (pieces : List (List ℕ)) (octets took : List ℕ) (verdict : Verdict) (v : IsVerdict tag pieces octets verdict) → IsDuePart pieces octets took → (left : List ℕ) × (took ++ left ≡ joined_pieces (pieces_due pieces v.responses)) }
{}

/// Once the octets have a verdict, no more of them are read: neither after a tagged line nor after a BYE.
pub fn nothing_is_read_once_decided()
    ensures { (tag : List ℕ) (pieces : List (List ℕ)) (before : Octets) (so_far later : List Event) (verdict : Verdict) → ReadsWhile (Awaits pieces before) (so_far ++ later)
        → IsVerdict tag pieces (before.octets ++ flat_map store_gave_in so_far) verdict → verdict ≢ Open → flat_map store_gave_in later ≡ [] }
{}

/// Where octets are read, nothing is decided, the store took all that was due by then, and it didn't give too much.
pub fn all_due_is_taken_before_reading()
    ensures { (tag : List ℕ) (pieces : List (List ℕ)) (before : Octets) (so_far later : List Event) (octet : ℕ) (octets : List ℕ)
        → ReadsWhile (Awaits pieces before) (so_far ++ StoreGave (octet ∷ octets) ∷ later)
        → (still : IsVerdict tag pieces (before.octets ++ flat_map store_gave_in so_far) Open)
        × AllDueTaken pieces still.responses (flat_map store_took_in so_far) × (IsTooMuch before (flat_map store_gave_in so_far) → ⊥) }
{}

/// Too many octets, by which nothing is decided though all that was due was taken, end in nothing but this or out of memory.
pub fn too_much_ends_so()
    ensures { (tag : List ℕ) (pieces : List (List ℕ)) (before after : Octets) (gave took : List ℕ) (up : Bool) (result : Result Answer LinkEnd)
        (still : IsVerdict tag pieces (before.octets ++ gave) Open) → IsTooMuch before gave → AllDueTaken pieces still.responses took
        → ComesTo tag pieces before gave took after up result → (result ≡ Err ends.TooMuch) ⊎ (result ≡ Err ends.Memory) }
{}

/// Once the tagged line came, no other end is answered than out of memory: where it isn't OK, or the command was taken whole.
pub fn no_end_after_an_answer()
    ensures { (tag : List ℕ) (pieces : List (List ℕ)) (before : Octets) (gave took : List ℕ) (responses : List Response) (s : Status) (code : Code) (rest : List ℕ) (e : LinkEnd)
        → IsVerdict tag pieces (before.octets ++ gave) (Done responses s code rest) → (s ≢ statuses.Ok) ⊎ (took ≡ joined_pieces pieces)
        → IsCause tag pieces before gave took e → e ≡ ends.Memory }
{}

/// A tagged line says OK, NO or BAD.
pub fn statuses_of_answers()
    ensures { (tag : List ℕ) (pieces : List (List ℕ)) (octets rest : List ℕ) (responses : List Response) (s : Status) (code : Code)
        → IsVerdict tag pieces octets (Done responses s code rest) → (s ≡ statuses.Ok) ⊎ (s ≡ statuses.No) ⊎ (s ≡ statuses.Bad) }
{}
