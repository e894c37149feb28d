//! The laws of lists, as clauses of functions that do nothing.
ghost use Rattle.std.specs.Prelude.{◌≡◌, ◌↔◌, ℕ, List, Contains};
ghost use Rattle.std.specs.Cmp.{IsTotalOrder};
ghost use Rattle.std.specs.List.Sorted.{IsStrictlySortedBy};
ghost use Rattle.std.specs.declared.cmp.Ordering.{Ordering};
ghost use Rattle.change_list.specs.Copy.{holds_id};
ghost use Rattle.query_lists.specs.Ordered.{row_cmp};
ghost use Rattle.query_lists.specs.Splices.{added_in, spliced, without_numbers};

/// Where the order is total, two lists of the same rows are one: so a query has one list.
pub fn one_list<V>()
    ensures { (cmp : V → V → Ordering) (a b : List (ℕ × V)) → IsTotalOrder cmp → IsStrictlySortedBy (row_cmp cmp) a → IsStrictlySortedBy (row_cmp cmp) b
        → ((e : ℕ × V) → Contains a e ↔ Contains b e) → a ≡ b }
{}

/// Where two lists are the same but for some numbers, the old one, spliced by those of it and those of the new one, is the new one.
pub fn splices_give_the_list()
    ensures { (old new touched removed : List ℕ) → without_numbers touched old ≡ without_numbers touched new
        → ((n : ℕ) → Contains old n → holds_id removed n ≡ holds_id touched n)
        → spliced old removed (added_in touched new) ≡ new }
{}
