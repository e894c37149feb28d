//! The laws of search texts, as clauses of functions that do nothing.
ghost use Rattle.std.specs.Prelude.{◌≡◌, ℕ, List};
ghost use Rattle.search_words.specs.SearchTexts.{IsSearchText};
ghost use Rattle.search_words.specs.SearchWords as spec;

/// Each text is a search text, of the words that are read in it.
pub fn search_words_are_asked()
    ensures { (text : List ℕ) → IsSearchText text (spec.search_words text) }
{}

/// A text asks for one list of words.
pub fn one_search_text()
    ensures { (text : List ℕ) (a b : List (List ℕ)) → IsSearchText text a → IsSearchText text b → a ≡ b }
{}
