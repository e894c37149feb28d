//! The laws of histories, answers and copies, as clauses of functions that do nothing. A caller has a law at a type of
//! its own by calling its function.

ghost use Rattle.std.specs.Prelude.{◌≡◌, ◌≢◌, ◌<◌, ◌≤◌, ◌↔◌, [], ◌∷◌, ◌++◌, ℕ, List, Option, Some, None, Bool, true, IsTrue, length, take};
ghost use Rattle.std.specs.Option.{ForSome};
ghost use Rattle.change_list.specs.Touches.{AreTouches};
ghost use Rattle.change_list.specs.Advance.{Tests, IsExact, row_at, AreRows, GoesOn, advance};
ghost use Rattle.change_list.specs.Changes.{IsChanges};
ghost use Rattle.change_list.specs.History.{Touch, IsHistory, AreMaps, HasMaps, last_place, map_at, map_now, entries_of, value_after};
ghost use Rattle.change_list.specs.TouchedIds.{AreTouched};
ghost use Rattle.change_list.specs.Copy.{IsCopy, ClientStep, AreClientSteps, TellsMaps, TouchedTellsMaps, applied, with_value, copy_after, place_after};
ghost use Rattle.change_list.specs.declared.entries.Entry.{Entry};
ghost use Rattle.change_list.specs.declared.answer.Changes.{Changes};

/// A history, a place and a limit determine the answer.
pub fn one_answer()
    ensures { (h : List Entry) (s : ℕ) (max : Option ℕ) (c d : Changes)
        → IsChanges h s max c → IsChanges h s max d → c ≡ d }
{}

/// Where the type has gone on past a place, an answer from there that may name an id goes on.
pub fn answers_go_on()
    ensures { (h : List Entry) (s : ℕ) (max : Option ℕ) (c : Changes)
        → IsChanges h s max c → ForSome max (λ most. 0 < most) → s < length h → s < c.to }
{}

/// A history's maps begin empty, neighbours differ at one id, and no id comes back that was lost.
pub fn history_has_maps<V>()
    ensures { (h : List (Touch V)) → IsHistory h → AreMaps (map_at h) (last_place h) }
{}

/// All such maps are those of a history.
pub fn maps_have_history<V>()
    ensures { (M : ℕ → ℕ → Option V) (n : ℕ) → AreMaps M n → (h : List (Touch V)) × HasMaps h M n }
{}

/// The touches of a history fit what was there, and no id comes back that was lost.
pub fn history_fits<V>()
    ensures { (h : List (Touch V)) → IsHistory h → AreTouches (entries_of h) }
{}

/// A history goes on by a touch that gives its id another value than it has, where the id has one or never had one.
pub fn history_grows<V>()
    ensures { (h : List (Touch V)) (t : Touch V)
        → IsHistory h → map_now h t.id ≢ t.value
        → (t.value ≢ None → map_now h t.id ≡ None → (i : ℕ) → map_at h i t.id ≡ None)
        → IsHistory (h ++ t ∷ []) }
{}

/// An answer tells which ids the two maps have, and which values may differ.
pub fn answer_tells_maps<V>()
    ensures { (h : List (Touch V)) (s : ℕ) (max : Option ℕ) (c : Changes)
        → IsHistory h → IsChanges (entries_of h) s max c → TellsMaps h s c }
{}

/// What was touched after a place tells of the maps there and now.
pub fn touched_tells_maps<V>()
    ensures { (h : List (Touch V)) (s : ℕ) (xs : List (ℕ × Bool))
        → IsHistory h → s ≤ last_place h → AreTouched (entries_of h) s xs → TouchedTellsMaps h s xs }
{}

/// Nothing is a copy of the first map.
pub fn empty_copy<V>()
    ensures { (h : List (Touch V)) → IsCopy (λ _. None) h 0 }
{}

/// A copy stays a copy under changes answered then or earlier, with values fetched afterwards.
pub fn copies_follow<V>()
    ensures { (h : List (Touch V)) (m s : ℕ) (max : Option ℕ) (c : Changes) (copy : ℕ → Option V)
        → m ≤ last_place h → IsChanges (entries_of (take m h)) s max c → IsCopy copy h s
        → IsCopy (applied c (map_now h) copy) h c.to }
{}

/// A copy at the last place is the last map.
pub fn last_copy_is_map<V>()
    ensures { (h : List (Touch V)) (copy : ℕ → Option V)
        → IsCopy copy h (last_place h) ↔ ((q : ℕ) → copy q ≡ map_now h q) }
{}

/// What a history gains keeps a copy at its place.
pub fn copies_stay<V>()
    ensures { (h more : List (Touch V)) (s : ℕ) (copy : ℕ → Option V)
        → s ≤ last_place h → IsCopy copy h s → IsCopy copy (h ++ more) s }
{}

/// So does taking the present value of an id that was there at the place.
pub fn copies_take<V>()
    ensures { (h : List (Touch V)) (s id : ℕ) (copy : ℕ → Option V)
        → map_at h s id ≢ None → IsCopy copy h s → IsCopy (with_value id (map_now h id) copy) h s }
{}

/// So does dropping an id that isn't there now.
pub fn copies_drop<V>()
    ensures { (h : List (Touch V)) (s id : ℕ) (copy : ℕ → Option V)
        → map_now h id ≡ None → IsCopy copy h s → IsCopy (with_value id None copy) h s }
{}

/// Answers and fetches one after the other, while the history goes on, keep a copy.
pub fn steps_keep_copies<V>()
    ensures { (h : List (Touch V)) (s now : ℕ) (steps : List ClientStep) (copy : ℕ → Option V)
        → s ≤ now → now ≤ last_place h → IsCopy copy (take now h) s → AreClientSteps h s now steps
        → IsCopy (copy_after h copy steps) h (place_after s steps) }
{}

/// Repeated until nothing is left, they end in the last map.
pub fn steps_end_in_last_map<V>()
    ensures { (h : List (Touch V)) (s now : ℕ) (steps : List ClientStep) (copy : ℕ → Option V)
        → s ≤ now → now ≤ last_place h → IsCopy copy (take now h) s → AreClientSteps h s now steps
        → place_after s steps ≡ last_place h → (q : ℕ) → copy_after h copy steps q ≡ map_now h q }
{}

/// The touches of an advance lead from the old map to the new one.
pub fn advance_leads<V>()
    ensures { (tests : Tests V) (old new : List (ℕ × V)) (q : ℕ)
        → ((u v : V) → tests.same u v ≡ true → u ≡ v) → AreRows old → AreRows new
        → value_after (row_at old q) (advance tests old new) q ≡ row_at new q }
{}

/// A history whose last map is the old one goes on by an advance, where no new id was there before.
pub fn advance_goes_on<V>()
    ensures { (h : List (Touch V)) (tests : Tests V) (old new : List (ℕ × V))
        → IsHistory h → AreRows old → AreRows new → IsExact tests
        → ((q : ℕ) → row_at old q ≡ map_now h q)
        → ((q i : ℕ) → row_at old q ≡ None → row_at new q ≢ None → map_at h i q ≡ None)
        → GoesOn h tests old new }
{}
