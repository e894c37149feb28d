//! What commands make of names in kept form is in kept form, as clauses of a function that does nothing.
ghost use Rattle.std.specs.Prelude.{◌≡◌, ℕ, Bool, List};
ghost use Rattle.imap_types.specs.Items.{kept};
ghost use Rattle.kept_names.specs.Changes.{flags_after, subscribed};

/// Names in kept form are so after a STORE or a SUBSCRIBE.
pub fn changes_stay_kept()
    ensures flags { (add : Bool) (asked was : List (List ℕ)) → kept was ≡ was → kept (flags_after add asked was) ≡ flags_after add asked was }
    ensures attributes { (on : Bool) (was : List (List ℕ)) → kept was ≡ was → kept (subscribed on was) ≡ subscribed on was }
{}
