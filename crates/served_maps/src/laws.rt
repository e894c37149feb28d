//! The laws of pasts, as clauses of functions that do nothing.
ghost use Rattle.std.specs.Prelude.{◌≡◌, ◌≢◌, ◌+◌, ◌≤◌, ◌<◌, ◌++◌, ℕ, List, None, length};
ghost use Rattle.change_list.specs.Kept.{Kept, IsOf};
ghost use Rattle.change_list.specs.History as history;
ghost use Rattle.change_list.specs.Advance.{Tests, IsExact, row_at, AreRows, advance_entries};
ghost use Rattle.change_list.specs.declared.entries.Entry.{Entry};
ghost use Rattle.served_maps.specs.Past.{Past, IsPast, IsEverBelow, AreFresh, StandsFor, gone_on, served, tests_of, place_now, had_at};

/// A past goes on to new rows, where no id is new in them that was there before.
pub fn pasts_go_on<V>()
    ensures { (tests : Tests V) (p : Past V) (new : List (ℕ × V))
        → IsExact tests → IsPast p → AreRows new → AreFresh p new → IsPast (gone_on tests p new) }
{}

/// Its place rises by the number of touches.
pub fn places_rise<V>()
    ensures { (tests : Tests V) (p : Past V) (new : List (ℕ × V))
        → place_now (gone_on tests p new) ≡ place_now p + length (advance_entries tests p.now new) }
{}

/// What was there at a place stays as it was.
pub fn places_stay<V>()
    ensures { (tests : Tests V) (p : Past V) (new : List (ℕ × V)) (place q : ℕ)
        → place ≤ place_now p → had_at (gone_on tests p new) place q ≡ had_at p place q }
{}

/// Where every id that ever was is below a number, so is every id of the past that went on to rows below a later one.
pub fn ids_stay_below<V>()
    ensures { (tests : Tests V) (p : Past V) (new : List (ℕ × V)) (next now : ℕ)
        → AreRows new → IsEverBelow p next → next ≤ now → ((q : ℕ) → row_at new q ≢ None → q < now)
        → IsEverBelow (gone_on tests p new) now }
{}

/// Rows and a list that stand for a past stand for what it becomes, once the list has noted the steps to the new rows.
pub fn standing_goes_on<R, V>()
    ensures { (serve : R → V) (tests : Tests V) (rows new : List (ℕ × R)) (before now : Kept) (p : Past V)
        → IsExact tests → AreRows (served serve new) → AreFresh p (served serve new) → StandsFor serve rows before p
        → ((h : List Entry) → IsOf before h → IsOf now (h ++ advance_entries (tests_of serve tests) rows new))
        → StandsFor serve new now (gone_on tests p (served serve new)) }
{}
