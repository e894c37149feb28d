// The laws of drafts that are read.
ghost use Rattle.std.specs.Prelude.{◌≡◌, ℕ, List};
ghost use Rattle.serde_json.specs.Data.{Members};
ghost use Rattle.mail_drafts.specs.declared.draft.Draft.{Draft as DraftRead};
ghost use Rattle.draft_reading.specs.Properties.{IsFirstRefused, NoneRefused};
ghost use Rattle.draft_reading.specs.Readings.{IsDraftOf, IsWithout};

/// Properties are read as a draft, refused, or without their uploads, and no two of these; one property is the first that is refused.
pub fn properties_are_read_one_way()
    ensures first { (all : Members) (one other : List ℕ) → IsFirstRefused all one → IsFirstRefused all other → one ≡ other }
    ensures refused { (all : Members) (key : List ℕ) → IsFirstRefused all key → NoneRefused all → ⊥ }
    ensures uploads { (uploads : List (List ℕ)) (all : Members) (ids : List (List ℕ)) (d : DraftRead) → IsWithout uploads all ids → IsDraftOf uploads all d → ⊥ }
{}
